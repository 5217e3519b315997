//! Why a call on a cons fails.
ghost use Rattle.std.specs.Prelude.{◌≡◌};

use store_word::SwapFault;

/// Why a call on a cons fails.
#[derive(Clone, Copy, Debug, Drop, PartialEq, Eq)]
pub enum ListFault {
    /// The word isn't tagged LIST.
    NotACons,

    /// The swap device failed.
    Swap(SwapFault),
}

impl From<SwapFault> for ListFault {
    ghost use Rattle.cdr_lists.specs.declared.fault.ListFault.TheVariants.{Swap};

    ghost from_gives = { λ swap fault. fault ≡ Swap swap };

    fn from(fault: SwapFault) -> ListFault {
        ListFault::Swap(fault)
    }
}
