//! What an export hands to C.
ghost use Rattle.std.specs.Prelude.{◌+◌, ◌++◌, ◌<◌, ◌^◌, [], length};
ghost use Rattle.lispm_c.specs.Handed.{IsHanded};

/// The status of a call whose buffer is too small for the answer.
const SMALL: u8 = 10;

/// Hands an answer in two pieces to C: copies it to the caller's buffer if it fits, and reports how many bytes it has. The result is the status,
/// or 10 if the answer doesn't fit; then the buffer is unchanged.
pub(crate) fn put(
    status: u8,
    first: &[u8],
    second: &[u8],
    output: &mut [u8],
    needed: &mut usize,
) -> u8
    requires { length first.now + length second.now < 2 ^ 64 }
    ensures { IsHanded output.old output.new needed.new result (first.now ++ second.now) status }
{
    let count = first.len() + second.len();
    *needed = count;
    if output.len() < count {
        return SMALL;
    }
    output[..first.len()].copy_from_slice(first);
    output[first.len()..count].copy_from_slice(second);
    status
}
