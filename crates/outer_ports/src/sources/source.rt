//! The trait of a source of bytes.
ghost use Rattle.std.specs.Prelude.{◌≡◌, ◌<◌, ◌≤◌, ℕ, List, Option, length, take, IfOk, OnErr};
ghost use Rattle.outer_ports.specs.Ports.{Gave, HasCause, IsAtEnd, piece_length};

/// A source failed to give bytes.
#[derive(Debug, Drop, Clone, Copy, PartialEq, Eq)]
pub struct SourceFault;

/// Bytes that are taken in their order, one piece after another.
pub trait Source {
    /// The bytes that remain, if the source reports them.
    ghost left: { Self → Option (List ℕ) };

    /// How many calls failed. The count saturates at 2^64 - 1, and counts as risen from then on.
    ghost faults: { Self → ℕ };

    /// The length of the latest piece: 0 at the end of the input, and after a call that failed.
    ghost last: { Self → ℕ };

    /// Moves a first piece of the remaining bytes into the slice, which must not be empty, and
    /// returns the piece's length in bytes. If the source reports what remains, a length of 0 means the
    /// end of the input. A call that fails takes no byte, and fails only if the count of failed calls rose.
    fn take(&mut self, into: &mut [u8]) -> Result<usize, SourceFault>
        requires { 0 < length into.old }
        ensures fits { IfOk result (λ n. n ≤ length into.new) }
        ensures given { IfOk result (λ n. Gave (left self.old) (left self.new) (take n into.new)) }
        ensures end { IfOk result (λ n. n ≡ 0 → IsAtEnd (left self.new)) }
        ensures err { OnErr result (left self.new ≡ left self.old) }
        ensures cause { HasCause (faults self.old) (faults self.new) result }
        ensures last { last self.new ≡ piece_length result };
}
