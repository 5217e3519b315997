//! Writes the parts of a cons.
ghost use Rattle.std.specs.Prelude.{◌≡◌, ◌+◌, ◌-◌, ◌*◌, ◌<◌, ◌≤◌, length, OnOk, OnErr};
ghost use Rattle.mem_port.specs.View.{AccountsForFaults, shown};
ghost use Rattle.area_space.specs.View.{view};
ghost use Rattle.cdr_lists.specs.Faults.{AccountsForRefusals};
ghost use Rattle.cdr_lists.specs.Views.{CanSet, IsCellAt, LaysPair, RelaysCell, SetsCdr};
ghost use Rattle.transporter.specs.Views.{NoOldAddresses, LiveWordsUnchangedExcept, MarksFollow, PreservesScanned};
ghost use Rattle.store_word.specs.declared.word.Content.TheVariants.{List as ListAt};
ghost use Rattle.mem_port.specs.Store.{StoresNothing};
ghost use Rattle.obj_layout.specs.Forwards.{word_at};
ghost use Rattle.transporter.specs.Preserving.{FreshOn};
ghost use Rattle.cdr_lists.specs.Parts.{WritesRelay};
ghost use Rattle.cdr_lists.specs.Refusing.{RefusesOthers};
ghost use Rattle.cdr_lists.specs.Storing.{FailsCdr, FailsRelay, FailsStill, KeepsButCar, KeepsButCdr, StoresCar, StoresCdr};
ghost use Rattle.cdr_lists.specs.Words.{plain};

use crate::fault::ListFault;
use crate::pair::PAIR;
use crate::places::read_cons;
use area_space::{Ground, Origin};
use mem_port::Memory;
use std::sync::ledger::Ledger;
use store_word::{CdrCode, MAX_OBJECT_WORDS, PAGE_WORDS, Steps, SwapFault, Word};
use transporter::{FIND_ACCESSES, SETTLE_ACCESSES, fetch, place_for};

/// Writes the car of the cons to which a word refers. The word there keeps its cdr code.
///
/// The caller must ensure that the new word has no old address. `NotACons` is returned if and only if the word
/// isn't tagged LIST, and takes no memory access. A refusal stores nothing. It takes at most 14
/// memory accesses.
pub fn set_car<M: Memory, L: Ledger>(
    ground: &mut Ground<M>,
    of: Word,
    value: Word,
    steps: &mut Steps<L>,
) -> Result<(), ListFault>
    requires { CanSet (view ground.old) of value }

    // What is written, and what is refused.
    ensures set { OnOk result (StoresCar (view ground.old) (view ground.new) of.content value) }
    ensures refused { RefusesOthers (view ground.old) (view ground.new) of result steps.old steps.new }
    ensures unchanged { OnErr result (StoresNothing (view ground.old).mem.store (view ground.new).mem.store) }

    // What is unchanged in the ground.
    ensures table { ground.new.table ≡ ground.old.table }
    ensures stays_ground { KeepsButCar (view ground.old) (view ground.new) of.content }

    // Swap errors and the cost.
    ensures accounted { AccountsForRefusals (view ground.old).mem (view ground.new).mem steps.old steps.new result }
    ensures cost { steps.new ≤ steps.old + FIND_ACCESSES + 1 }
{
    let cons = read_cons(&mut ground.mem, of, steps)?;
    ground.mem.write(cons.at, value.with_cdr(cons.code), steps)?;
    Ok(())
}

/// Writes the cdr of the cons to which a word refers; the cdr of a pair, into its second word. A cell is
/// relocated as a pair in its class, for which its charge has paid, with its car settled: it leaves a
/// HEADER-FORWARD to the pair, and no other cell is changed.
///
/// The caller must ensure that a running collection keeps the cons, and that the new word has no old
/// address. `NotACons` is returned if and only if the word isn't tagged LIST, and takes no memory access. If no
/// swap error occurs, it takes at most 67 memory accesses and 4 for each word that is placed. At most 2,050 words
/// are placed. After a refusal the ground represents the same objects, and no used word of a live
/// region has changed except that of a cell, which may be settled; an object may have moved.
pub fn set_cdr<M: Memory, L: Ledger>(
    ground: &mut Ground<M>,
    of: Word,
    value: Word,
    steps: &mut Steps<L>,
) -> Result<(), ListFault>
    requires { CanSet (view ground.old) of value }

    // What is written, what is refused, and what a refusal leaves.
    ensures set { OnOk result (StoresCdr (view ground.old) (view ground.new) of.content value) }
    ensures refused { RefusesOthers (view ground.old) (view ground.new) of result steps.old steps.new }
    ensures fault { OnErr result (FailsCdr (view ground.old) (view ground.new) of.content) }

    // What is unchanged in the ground, and swap errors.
    ensures stays_ground { KeepsButCdr (view ground.old) (view ground.new) of.content }
    ensures accounted { AccountsForRefusals (view ground.old).mem (view ground.new).mem steps.old steps.new result }

    // What is placed, and the cost.
    ensures at_most { ground.new.table.placed ≤ ground.old.table.placed + MAX_OBJECT_WORDS + 2 }
    ensures cost { OnOk result (steps.new ≤ steps.old + 4 * (ground.new.table.placed - ground.old.table.placed) + (FIND_ACCESSES + SETTLE_ACCESSES + 8)) }
{
    let cons = read_cons(&mut ground.mem, of, steps)?;
    match cons.code {
        CdrCode::Normal => {
            let second = ground.mem.read(cons.at + 1, steps)?;
            ground
                .mem
                .write(cons.at + 1, value.with_cdr(second.cdr_code()), steps)?;
        }
        _ => lay_pair(ground, cons.at, value, steps)?,
    }
    Ok(())
}

// Relocates a cell as a pair with another cdr. Its car is settled first.
fn lay_pair<M: Memory, L: Ledger>(
    ground: &mut Ground<M>,
    cell: u32,
    cdr: Word,
    steps: &mut Steps<L>,
) -> Result<(), SwapFault>
    requires can { CanSet (view ground.old) (plain (ListAt cell)) cdr }
    requires cell { IsCellAt (view ground.old) cell (word_at (view ground.old).mem.store.words cell) }

    // What is written, and what moves for it.
    ensures set { OnOk result (SetsCdr (view ground.old) (view ground.new) (ListAt cell) cdr.content) }
    ensures laid { OnOk result (RelaysCell (view ground.old) (view ground.new) cell cdr) }

    // After a swap error, and what is unchanged.
    ensures fault { OnErr result (FailsRelay (view ground.old) (view ground.new) cell) }
    ensures preserves { PreservesScanned (view ground.old) (view ground.new) }
    ensures stays_fresh { NoOldAddresses (view ground.old) → NoOldAddresses (view ground.new) }
    ensures marks { MarksFollow (view ground.old) (view ground.new) }

    // Swap errors.
    ensures accounted { AccountsForFaults (view ground.old).mem (view ground.new).mem steps.old steps.new result }

    // What is placed, and the cost.
    ensures at_most { ground.new.table.placed ≤ ground.old.table.placed + MAX_OBJECT_WORDS + 2 }
    ensures cost { OnOk result (steps.new ≤ steps.old + 4 * (ground.new.table.placed - ground.old.table.placed) + (SETTLE_ACCESSES + 8)) }
{
    let car = fetch(ground, cell, steps)?;
    lay_settled(ground, cell, car, cdr, steps)
}

// Relocates a cell with this settled word as a pair with another cdr.
fn lay_settled<M: Memory, L: Ledger>(
    ground: &mut Ground<M>,
    cell: u32,
    car: Word,
    cdr: Word,
    steps: &mut Steps<L>,
) -> Result<(), SwapFault>
    requires can { CanSet (view ground.old) (plain (ListAt cell)) cdr }
    requires cell { IsCellAt (view ground.old) cell car }

    // What is written, and at which address.
    ensures set { OnOk result (SetsCdr (view ground.old) (view ground.new) (ListAt cell) cdr.content) }
    ensures laid { OnOk result (LaysPair (view ground.old) (view ground.new) cell car cdr
        × LiveWordsUnchangedExcept (view ground.old) (view ground.new) cell) }

    // After a swap error, and what is unchanged.
    ensures fault { OnErr result (FailsStill (view ground.old) (view ground.new)) }
    ensures preserves { PreservesScanned (view ground.old) (view ground.new) }
    ensures stays_fresh { FreshOn ground.old.table car.content → NoOldAddresses (view ground.old) → NoOldAddresses (view ground.new) }
    ensures marks { MarksFollow (view ground.old) (view ground.new) }

    // What is placed, swap errors and the cost.
    ensures at_most { ground.new.table.placed ≤ ground.old.table.placed + 2 }
    ensures accounted { AccountsForFaults (view ground.old).mem (view ground.new).mem steps.old steps.new result }
    ensures cost { steps.new ≤ steps.old + 6 }
{
    let class = ground.table.class_of(cell).unwrap();
    let first = car.with_cdr(CdrCode::Normal);
    let second = cdr.with_cdr(CdrCode::Next);
    let placed = place_for(ground, class.area, class.level, PAIR);
    write_relay(&mut ground.mem, cell, placed.at, first, second, steps)?;
    ground.commit(&placed, PAIR, 0, Origin::Reserve);
    Ok(())
}

// Writes the words of a pair and a HEADER-FORWARD to it in the place of a cell, or none: the pages
// are held first.
fn write_relay<M: Memory, L: Ledger>(
    mem: &mut M,
    cell: u32,
    at: u32,
    first: Word,
    second: Word,
    steps: &mut Steps<L>,
) -> Result<(), SwapFault>
    requires cell { cell < length (M.seen mem.old).words }
    requires pair { at + 1 < length (M.seen mem.old).words }
    requires at_most { length (M.seen mem.old).words ≤ 4194304 }
    ensures ok { OnOk result (WritesRelay (M.seen mem.old) (M.seen mem.new) cell at first second) }
    ensures err { OnErr result (StoresNothing (M.seen mem.old) (M.seen mem.new)) }
    ensures accounted { AccountsForFaults (shown M.Memory mem.old) (shown M.Memory mem.new) steps.old steps.new result }
    ensures cost { steps.new ≤ steps.old + 6 }
{
    mem.hold(
        &[cell / PAGE_WORDS, at / PAGE_WORDS, (at + 1) / PAGE_WORDS],
        steps,
    )?;
    mem.write(at, first, steps)?;
    mem.write(at + 1, second, steps)?;
    mem.write(cell, Word::header_forward(at), steps)
}
