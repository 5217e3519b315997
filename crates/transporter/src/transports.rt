//! Transport: an object moves out of an old region.
ghost use Rattle.std.specs.Prelude.{◌≡◌, ℕ, ◌+◌, ◌-◌, ◌*◌, ◌<◌, ◌≤◌, IfOk, IfSome, OnOk, OnErr};
ghost use Rattle.mem_port.specs.View.{AccountsForFaults};
ghost use Rattle.area_space.specs.View.{view};
ghost use Rattle.transporter.specs.Views.{IsMovable, IsTransportable, LiveWordsUnchanged, MarksFollow, MovesAtMost, MovesFrom, MovesHere, OpensAtMost, ReachesAlways, WordsUnchanged, PreservesScanned};
ghost use Rattle.transporter.specs.Growth.{Grows};
ghost use Rattle.obj_layout.specs.Forwards.{word_at};
ghost use Rattle.transporter.specs.Parcels.{StandsWhole};
ghost use Rattle.transporter.specs.Relocations.{IsOldClass};

use crate::accesses::{
    FAILED_TRANSPORT_ACCESSES, FAILED_WORD_ACCESSES, TRANSPORT_ACCESSES, WORD_ACCESSES,
};
use crate::parcel::parcel_of;
use crate::relocation::{class_if_old, relocate, relocate_pair};
use area_space::{Class, Ground};
use mem_port::Memory;
use obj_layout::{Resolved, resolve_first};
use std::sync::ledger::Ledger;
use store_word::{MAX_OBJECT_WORDS, Steps, SwapFault};

/// The live address of an object, by any address of it. If the object is in an old region, it moves
/// first, into its area, at its survivors' level: a block, a pair, or a cell with the compact run
/// that follows it. Each object that moves leaves a GC-FORWARD in its first word.
///
/// The caller must ensure that the running collection keeps the object. What is known of the object
/// and of all others remains true.
///
/// Without a swap error it takes at most 43 memory accesses and 4 for each word that it places, at
/// most 2,048. After a swap error, at most 1,069 memory accesses: every word is as before, and the
/// count of swap errors has risen.
pub fn transport<M: Memory, L: Ledger>(
    ground: &mut Ground<M>,
    at: u32,
    steps: &mut Steps<L>,
) -> Result<u32, SwapFault>
    requires { IsTransportable (view ground.old) at }

    // The address of the object, and which words moved.
    ensures settles { IfOk result (ReachesAlways (view ground.old) (view ground.new) at) }
    ensures words { IfOk result (MovesFrom (view ground.old) (view ground.new) at) }
    ensures moves { MovesAtMost (view ground.old) (view ground.new) 1 }

    // What is unchanged in the ground.
    ensures table { Grows ground.old.table ground.new.table }
    ensures live { LiveWordsUnchanged (view ground.old) (view ground.new) }
    ensures preserves { PreservesScanned (view ground.old) (view ground.new) }
    ensures marks { MarksFollow (view ground.old) (view ground.new) }

    // What holds after a swap error, and that it is counted.
    ensures fault { OnErr result (WordsUnchanged (view ground.old) (view ground.new)) }
    ensures accounted { AccountsForFaults (view ground.old).mem (view ground.new).mem steps.old steps.new result }

    // What is placed, and the cost.
    ensures at_most { ground.new.table.placed ≤ ground.old.table.placed + MAX_OBJECT_WORDS }
    ensures cost { OnOk result (steps.new ≤ steps.old + 4 * (ground.new.table.placed - ground.old.table.placed) + WORD_ACCESSES) }
    ensures cost_at_most { OnErr result (steps.new ≤ steps.old + FAILED_WORD_ACCESSES) }
{
    let found = resolve_first(&mut ground.mem, at, steps)?;
    match class_if_old(&ground.table, found.at) {
        Some(class) => move_from(ground, found, class, steps),
        None => Ok(found.at),
    }
}

// Moves the parcel at the final address of an object in an old region of this class.
fn move_from<M: Memory, L: Ledger>(
    ground: &mut Ground<M>,
    object: Resolved,
    class: Class,
    steps: &mut Steps<L>,
) -> Result<u32, SwapFault>
    requires whole { StandsWhole (view ground.old).mem.store.words object.at }
    requires first { IfSome object.first (λ word. word ≡ word_at (view ground.old).mem.store.words object.at) }
    requires can { IsMovable (view ground.old) object.at }
    requires agrees { IsOldClass ground.old.table object.at class }
    ensures moved { IfOk result (MovesHere (view ground.old) (view ground.new) object.at) }
    ensures fault { OnErr result (OpensAtMost (view ground.old) (view ground.new)) }
    ensures accounted { AccountsForFaults (view ground.old).mem (view ground.new).mem steps.old steps.new result }
    ensures cost { OnOk result (steps.new ≤ steps.old + 4 * (ground.new.table.placed - ground.old.table.placed) + TRANSPORT_ACCESSES) }
    ensures cost_at_most { OnErr result (steps.new ≤ steps.old + FAILED_TRANSPORT_ACCESSES) }
{
    let found = parcel_of(&mut ground.mem, object, steps)?;
    let parcel = found.parcel;
    let words = found.pair;
    match words {
        Some(pair) => relocate_pair(ground, &parcel, pair, class, steps),
        None => relocate(ground, &parcel, None, class, steps),
    }
}
