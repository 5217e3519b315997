//! Why a call on a block fails.
ghost use Rattle.std.specs.Prelude.{◌≡◌};

use store_word::SwapFault;

/// Why a call on a block fails.
#[derive(Clone, Copy, Debug, Drop, PartialEq, Eq)]
pub enum BlockFault {
    /// The word isn't tagged STRUCT.
    NotABlock,

    /// The block has this number of fields, and none of this index.
    NoField { length: u16 },

    /// The swap device failed.
    Swap(SwapFault),
}

impl From<SwapFault> for BlockFault {
    ghost use Rattle.block_store.specs.declared.fault.BlockFault.TheVariants.{Swap};

    ghost from_gives = { λ swap fault. fault ≡ Swap swap };

    fn from(fault: SwapFault) -> BlockFault {
        BlockFault::Swap(fault)
    }
}
