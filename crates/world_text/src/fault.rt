//! What an accepted line of a world causes, and why a line or a dump is refused.
ghost use Rattle.std.specs.Prelude.{◌≡◌};
ghost use Rattle.world_text.specs.declared.fault.WorldFault.TheVariants.{Bad, NoMemory};
ghost use Rattle.world_text.specs.declared.fault.DumpFault.TheVariants.{NoMemory as no_room, Swap};

use crate::Reason;
use std::alloc::AllocError;
use store_word::{NoMemory, SwapFault};
use thiserror::Error;

/// What an accepted line causes.
#[derive(Clone, Copy, Debug, PartialEq, Eq)]
pub enum WorldStep {
    Next,
    /// The line closed the world of an input: its trace begins.
    TraceBegins,
    /// The line closed the world of a world file.
    WorldEnds,
}

/// Why a line is refused.
#[derive(Clone, Copy, Debug, Drop, PartialEq, Eq)]
pub enum WorldFault {
    Bad(Reason),
    /// With the area of this line the areas need more regions than there are.
    TooSmall,
    /// With this line the area's objects would be charged for more words than its quota: `charged` so far, and `wanted` by the line.
    Exhausted {
        area: u8,
        charged: u32,
        wanted: u32,
        quota: u32,
    },
    NoMemory,
}

/// What an accepted line causes, or why the line is refused.
pub type LineResult = Result<WorldStep, WorldFault>;

impl From<Reason> for WorldFault {
    ghost from_gives = { λ reason fault. fault ≡ Bad reason };

    fn from(reason: Reason) -> WorldFault {
        WorldFault::Bad(reason)
    }
}

impl From<NoMemory> for WorldFault {
    ghost from_gives = { λ _ fault. fault ≡ NoMemory };

    fn from(_error: NoMemory) -> WorldFault {
        WorldFault::NoMemory
    }
}

/// Why a dump isn't written.
#[derive(Clone, Copy, Debug, Drop, PartialEq, Eq, Error)]
pub enum DumpFault {
    /// Memory ran out, or more than 2^32 - 1 objects are reached.
    #[error("no memory")]
    NoMemory,
    #[error("swap failed")]
    Swap(SwapFault),
}

impl From<NoMemory> for DumpFault {
    ghost from_gives = { λ _ fault. fault ≡ no_room };

    fn from(_error: NoMemory) -> DumpFault {
        DumpFault::NoMemory
    }
}

impl From<AllocError> for DumpFault {
    ghost from_gives = { λ _ fault. fault ≡ no_room };

    fn from(_error: AllocError) -> DumpFault {
        DumpFault::NoMemory
    }
}

impl From<SwapFault> for DumpFault {
    ghost from_gives = { λ swap fault. fault ≡ Swap swap };

    fn from(swap: SwapFault) -> DumpFault {
        DumpFault::Swap(swap)
    }
}
