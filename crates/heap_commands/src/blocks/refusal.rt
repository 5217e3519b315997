//! The reply to a command whose call on a block failed.
ghost use Rattle.std.specs.Prelude.{◌≡◌, Result};
ghost use Rattle.heap_commands.specs.Refusals.{reply_to};

use block_store::BlockFault;
use lisp_graph::Reply;
use store_word::SwapFault;

/// The reply that says why a call on a block failed, or the swap error.
pub(super) fn refusal(fault: BlockFault) -> Result<Reply, SwapFault>
    ensures { result ≡ reply_to fault }
{
    match fault {
        BlockFault::NotABlock => Ok(Reply::WrongType),
        BlockFault::NoField { length } => Ok(Reply::NoField { length }),
        BlockFault::Swap(fault) => Err(fault),
    }
}
