//! A block that has fewer fields than requested grows.
ghost use Rattle.std.specs.Prelude.{◌≡◌, ◌≢◌, ◌↔◌, ℕ, ◌+◌, ◌*◌, ◌<◌, ◌≤◌, ◌^◌, Err, IfOk, OnErr};
ghost use Rattle.mem_port.specs.View.{AccountsForFaultsIf};
ghost use Rattle.area_space.specs.View.{view};
ghost use Rattle.block_store.specs.Faults.{is_fault};
ghost use Rattle.block_store.specs.Views.{CanGrow, GrowsBlock, GrowsWithin, MarksGrown, OpensForGrown, PlacesGrown};
ghost use Rattle.transporter.specs.Views.{NoOldAddresses, MarksFollow, WordsUnchanged, PreservesScanned};
ghost use Rattle.store_word.specs.Words.{tag_of};
ghost use Rattle.store_word.specs.declared.word.Content.TheVariants.{Struct as StructAt};
ghost use Rattle.area_space.specs.lisp_graph.Effect.{grown_length as length_grown};
ghost use Rattle.obj_layout.specs.Forwards.{Final};
ghost use Rattle.transporter.specs.Growth.{OpensOrStays};
ghost use Rattle.block_store.specs.Growing.{IsHusk};

use crate::fault::BlockFault;
use crate::header::{class_of_live, find};
use crate::widening::lay_anew;
use area_space::{Ground, Origin};
use mem_port::Memory;
use std::sync::ledger::Ledger;
use store_word::{Steps, Tag, Word};
use transporter::place_for;

/// The length to which a block of this length grows if `wanted` fields are requested, which are
/// more than its length and at most 2,047: `wanted`, or twice its length and one more, but at most 2,047,
/// whichever is more.
pub fn grown_length(length: u16, wanted: u16) -> u16
    requires order { length < wanted }
    requires at_most { wanted ≤ 2047 }
    ensures { result ≡ length_grown length wanted }
{
    wanted.max((2 * length + 1).min(2047))
}

/// Writes the block to which a settled word refers again in its class, with at least `wanted` fields,
/// at most 2,047, and returns its address. The new fields are NIL. The words at its old place
/// become a husk, which stays charged to the class: a HEADER-FORWARD, and NULL. If the wider block
/// doesn't fit at the end of the class, the free region with the lowest number is opened for it.
///
/// The caller must ensure that the block has fewer fields, and that its new charge fits the quota of
/// its area. `NotABlock` is returned if and only if the word isn't tagged STRUCT, and `NoField`
/// never. It takes at most 4 memory accesses for each requested field and 40. A swap error leaves every word
/// unchanged, though a region may have been opened for the block, and the count of swap errors has risen.
pub fn grow<M: Memory, L: Ledger>(
    ground: &mut Ground<M>,
    of: Word,
    wanted: u16,
    steps: &mut Steps<L>,
) -> Result<u32, BlockFault>
    requires at_most { wanted ≤ 2047 }
    requires can { CanGrow (view ground.old) of wanted }

    // What grows, to which address, and what remains at the old place.
    ensures grows { IfOk result (GrowsBlock (view ground.old) (view ground.new) of.content wanted) }
    ensures size { IfOk result (λ at. GrowsWithin (view ground.old) of.content wanted) }
    ensures in_range { IfOk result (λ at. at < 2 ^ 28) }
    ensures left { IfOk result (λ at. (reference here : ℕ) → of.content ≡ StructAt reference → Final (view ground.old).mem.store.words reference here
        → IsHusk (view ground.old).mem.store (view ground.new).mem.store here at wanted) }
    ensures placed { IfOk result (λ at. (reference here : ℕ) → of.content ≡ StructAt reference → Final (view ground.old).mem.store.words reference here
        → PlacesGrown (view ground.old) ground.new.table here at wanted) }
    ensures unmarked { IfOk result (λ at. (reference here : ℕ) → of.content ≡ StructAt reference → Final (view ground.old).mem.store.words reference here
        → MarksGrown (view ground.old) (view ground.new) of.content here at wanted) }
    ensures needed { OpensForGrown (view ground.old) ground.new.table of.content wanted }

    // What is refused.
    ensures refused { (result ≡ Err BlockFault.NotABlock) ↔ (tag_of of.content ≢ Tag.Struct) }
    ensures no_field { (count : ℕ) → result ≢ Err (BlockFault.NoField count) }

    // What is unchanged in the ground.
    ensures preserves { PreservesScanned (view ground.old) (view ground.new) }
    ensures stays_fresh { NoOldAddresses (view ground.old) → NoOldAddresses (view ground.new) }
    ensures marks { MarksFollow (view ground.old) (view ground.new) }

    // After a swap error, and that it is counted.
    ensures opened { OnErr result (OpensOrStays ground.old.table ground.new.table) }
    ensures fault { OnErr result (WordsUnchanged (view ground.old) (view ground.new)) }
    ensures accounted { AccountsForFaultsIf (view ground.old).mem (view ground.new).mem steps.old steps.new (is_fault result) }

    // The cost.
    ensures cost { steps.new ≤ steps.old + 4 * wanted + 40 }
{
    let head = find(&mut ground.mem, of, steps)?;
    let class = class_of_live(&ground.table, head.at);
    let wide = grown_length(head.length, wanted);
    let words = wide as u32 + 1;
    let placed = place_for(ground, class.area, class.level, words);
    lay_anew(&mut ground.mem, head, placed.at, wide, steps)?;
    ground.commit(&placed, words, words, Origin::New);
    ground.note_husk(head.at, head.length as u32 + 1);
    Ok(placed.at)
}
