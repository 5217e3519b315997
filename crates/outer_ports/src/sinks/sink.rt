//! The trait of a sink of bytes.
ghost use Rattle.std.specs.Prelude.{◌≡◌, ◌<◌, ◌≤◌, ℕ, List, [], Bool, length, take, is_err, IfOk, OnErr};
ghost use Rattle.outer_ports.specs.Ports.{Gained, HasCause, next_count};

/// A sink failed to take bytes.
#[derive(Debug, Drop, Clone, Copy, PartialEq, Eq)]
pub struct SinkFault;

/// A destination of bytes, which takes them one piece after another.
pub trait Sink {
    /// The byte lists that the sink represents. A sink that stores its bytes represents only them; one that
    /// keeps only counts, every list with these counts; one that reports no content, no list.
    ghost stands: { Self → List ℕ → Type 0 };

    /// How many calls failed. The count saturates at 2^64 - 1, and counts as risen from then on.
    ghost faults: { Self → ℕ };

    /// Whether the latest call of `give` failed.
    ghost failed: { Self → Bool };

    /// Appends a first piece of these bytes, of which there must be at least one, and returns the
    /// piece's length in bytes, which is never 0. A call that fails appends nothing, and fails only if
    /// the count of failed calls rose, by one.
    fn give(&mut self, piece: &[u8]) -> Result<usize, SinkFault>
        requires { 0 < length piece.now }
        ensures some { IfOk result (λ n. 0 < n) }
        ensures fits { IfOk result (λ n. n ≤ length piece.now) }
        ensures written { IfOk result (λ n. Gained (stands self.old) (stands self.new) (take n piece.now)) }
        ensures err { OnErr result (Gained (stands self.old) (stands self.new) []) }
        ensures cause { HasCause (faults self.old) (faults self.new) result }
        ensures failed { failed self.new ≡ is_err result }
        ensures once { OnErr result (faults self.new ≡ next_count (faults self.old)) };
}
