//! Why a text is refused.
ghost use Rattle.std.specs.Prelude.{◌≡◌};
ghost use Rattle.sexpr_text.specs.declared.fault.SexprFault.TheVariants.{NoMemory as no_room};

use lisp_graph::NoMemory;
use std::alloc::{AllocError, AllocFailed};
use world_text::Reason;

/// One reason for each rule that a text may break.
#[derive(Clone, Copy, Debug, PartialEq, Eq)]
pub enum SexprReason {
    /// A line of the header breaks a rule of world files.
    Header(Reason),
    BadToken,
    /// The token isn't allowed in this place.
    BadForm,
    NoRegister,
    RegisterTwice,
    NoArea,
    BadNumber,
    TooManyFields,
    LabelTwice,
    /// `#k#` precedes `#k=`, or there is no `#k=`.
    NoLabel { label: u32 },
    NoEnd,
    TextAfterEnd,
    InputTooLong,
}

/// Why a text doesn't give a world. Lines are counted from 1.
#[derive(Clone, Copy, Debug, Drop, PartialEq, Eq)]
pub enum SexprFault {
    Bad { line: u64, reason: SexprReason },
    /// The areas up to this line need more regions than there are.
    TooSmall { line: u64 },
    NoMemory,
}

/// Whether a part of the text is accepted, or why not.
pub type Parsed = Result<(), SexprFault>;

impl From<NoMemory> for SexprFault {
    ghost from_gives = { λ _ fault. fault ≡ no_room };

    fn from(_error: NoMemory) -> SexprFault {
        SexprFault::NoMemory
    }
}

impl From<AllocError> for SexprFault {
    ghost from_gives = { λ _ fault. fault ≡ no_room };

    fn from(_error: AllocError) -> SexprFault {
        SexprFault::NoMemory
    }
}

impl<T: Drop> From<AllocFailed<T>> for SexprFault {
    ghost from_gives = { λ _ fault. fault ≡ no_room };

    fn from(_error: AllocFailed<T>) -> SexprFault {
        SexprFault::NoMemory
    }
}
