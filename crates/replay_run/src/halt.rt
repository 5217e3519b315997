//! Why a run halts.
ghost use Rattle.std.specs.Prelude.{◌≡◌};
ghost use Rattle.replay_run.specs.Steps.{stop_of};

use line_input::{RunError, RunStop};

/// Why a run halts for another cause than a line with trouble. It has one byte, since each call on the way to the loop returns it.
#[derive(Clone, Copy, Debug, PartialEq, Eq)]
pub(crate) enum LoopExit {
    /// The sink failed.
    Write,
    /// The source failed.
    Read,
    /// Memory ran out.
    Memory,
    /// The swap device failed.
    Swap,
}

impl LoopExit {
    /// The `RunStop` for this halt.
    pub(crate) fn stop(self) -> RunStop
        ensures value { result ≡ stop_of self }
        ensures write { result ≡ RunStop.Write → self ≡ LoopExit.Write }
        ensures read { result ≡ RunStop.Tell RunError.Read → self ≡ LoopExit.Read }
        ensures swap { result ≡ RunStop.Tell RunError.Swap → self ≡ LoopExit.Swap }
    {
        match self {
            LoopExit::Write => RunStop::Write,
            LoopExit::Read => RunStop::Tell(RunError::Read),
            LoopExit::Memory => RunStop::Tell(RunError::Memory),
            LoopExit::Swap => RunStop::Tell(RunError::Swap),
        }
    }
}
