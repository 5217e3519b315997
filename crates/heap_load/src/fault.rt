//! Why a world could not be loaded.
ghost use Rattle.std.specs.Prelude.{◌≡◌};
ghost use Rattle.heap_load.specs.declared.fault.LoadFault.TheVariants.{NoMemory, Swap};

use std::alloc::AllocError;
use store_word::SwapFault;
use thiserror::Error;

/// Why a world could not be loaded.
#[derive(Clone, Copy, Debug, Drop, PartialEq, Eq, Error)]
pub enum LoadFault {
    /// Memory ran out.
    #[error("no memory")]
    NoMemory,

    /// The swap device failed.
    #[error("swap failed")]
    Swap(SwapFault),
}

impl From<AllocError> for LoadFault {
    ghost from_gives = { λ _ fault. fault ≡ NoMemory };

    fn from(_error: AllocError) -> LoadFault {
        LoadFault::NoMemory
    }
}

impl From<SwapFault> for LoadFault {
    ghost from_gives = { λ swap fault. fault ≡ Swap swap };

    fn from(fault: SwapFault) -> LoadFault {
        LoadFault::Swap(fault)
    }
}
