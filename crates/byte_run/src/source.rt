//! A source over a slice of bytes.
ghost use Rattle.std.specs.Prelude.{◌≡◌, ◌<◌, ◌≤◌, Some, length, take, IfOk, OnErr};
ghost use Rattle.outer_ports.specs.Ports.{Gave, HasCause, IsAtEnd, piece_length};

use outer_ports::{Source, SourceFault};

/// The bytes of a slice that weren't yet taken. It never fails.
#[derive(Drop)]
pub(crate) struct SourceSlice<'a> {
    pub left: &'a [u8],
    pub last: usize,
}

impl<'a> Source for SourceSlice<'a> {
    ghost left = { λ s. Some s.left.now };

    ghost faults = { λ _. 0 };

    ghost last = { λ s. s.last };

    fn take(&mut self, into: &mut [u8]) -> Result<usize, SourceFault>
        requires { 0 < length into.old }
        ensures fits { IfOk result (λ n. n ≤ length into.new) }
        ensures given { IfOk result (λ n. Gave (Some self.old.left.now) (Some self.new.left.now) (take n into.new)) }
        ensures end { IfOk result (λ n. n ≡ 0 → IsAtEnd (Some self.new.left.now)) }
        ensures err { OnErr result (Some self.new.left.now ≡ Some self.old.left.now) }
        ensures cause { HasCause 0 0 result }
        ensures last { self.new.last ≡ piece_length result }
    {
        let count = into.len().min(self.left.len());
        into[..count].copy_from_slice(&self.left[..count]);
        self.left = &self.left[count..];
        self.last = count;
        Ok(count)
    }
}
