//! Small operations on a buffer of bytes.
ghost use Rattle.std.specs.Prelude.{◌≡◌, ◌<◌, ◌≤◌, ◌+◌, ◌-◌, ◌++◌, ℕ, List, true, length, take, drop, slice_index, MatchOption, IfOk, OnErr};
ghost use Rattle.outer_ports.specs.Ports.{Gave, HasCause, IsAtEnd};
ghost use Rattle.line_input.specs.Reader.{no_feed};

use memchr::memchr;
use outer_ports::{Source, SourceFault};

/// The position of the first line feed, given that none precedes `from`.
#[inline(always)]
pub fn feed_from(bytes: &[u8], from: usize) -> Option<usize>
    requires in_range { from ≤ length bytes.now }
    requires none { no_feed (take from bytes.now) ≡ true }
    ensures { MatchOption result (no_feed bytes.now ≡ true) (λ at. (at < length bytes.now)
        × (no_feed (take at bytes.now) ≡ true) × (slice_index bytes.now at ≡ 10)) }
{
    match memchr(b'\n', &bytes[from..]) {
        Some(at) => Some(from + at),
        None => None,
    }
}

/// Moves a part of the buffer to its start.
fn shift(buffer: &mut [u8], start: usize, end: usize)
    requires order { start ≤ end }
    requires in_range { end ≤ length buffer.old }
    ensures { take (end - start) buffer.new ≡ take (end - start) (drop start buffer.old) }
{
    for at in 0..end - start {
        buffer[at] = buffer[start + at];
    }
}

/// Makes room after the part: moves it to the front if it reaches the end of the buffer. Returns its start and its end.
pub fn make_room(buffer: &mut [u8], start: usize, end: usize) -> (usize, usize)
    requires order { start ≤ end }
    requires in_range { end ≤ length buffer.old }
    requires room { end - start < length buffer.old }
    ensures stays_sound { result.0 ≤ result.1 }
    ensures free { result.1 < length buffer.new }
    ensures unchanged { take (result.1 - result.0) (drop result.0 buffer.new) ≡ take (end - start) (drop start buffer.old) }
{
    if end < buffer.len() {
        return (start, end);
    }
    shift(buffer, start, end);
    (0, end - start)
}

/// Takes bytes from the source into the buffer, after the part.
pub fn take_behind<S: Source>(
    source: &mut S,
    buffer: &mut [u8],
    start: usize,
    end: usize,
) -> Result<usize, SourceFault>
    requires order { start ≤ end }
    requires room { end < length buffer.old }
    ensures fits { IfOk result (λ n. end + n ≤ length buffer.new) }
    ensures given { IfOk result (λ n. (piece : List ℕ) × Gave (S.left source.old) (S.left source.new) piece × (length piece ≡ n)
        × (take (end + n - start) (drop start buffer.new) ≡ take (end - start) (drop start buffer.old) ++ piece)) }
    ensures end { IfOk result (λ n. n ≡ 0 → IsAtEnd (S.left source.new)) }
    ensures last { IfOk result (λ n. S.last source.new ≡ n) }
    ensures err { OnErr result (S.left source.new ≡ S.left source.old) }
    ensures unchanged { OnErr result (take (end - start) (drop start buffer.new) ≡ take (end - start) (drop start buffer.old)) }
    ensures cause { HasCause (S.faults source.old) (S.faults source.new) result }
{
    let count = source.take(&mut buffer[end..])?;
    Ok(count)
}
