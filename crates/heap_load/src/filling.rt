//! Stores the parts of objects that weren't known when the objects were made.
ghost use Rattle.std.specs.Prelude.{◌≡◌, ◌+◌, ◌<◌, ℕ, true, false, length, OnOk, OnErr, [], IsOk};
ghost use Rattle.mem_port.specs.View.{AccountsForFaults};
ghost use Rattle.area_space.specs.View.{view};
ghost use Rattle.heap_load.specs.Views.{CarFilled, Drafted, Filled, HoldsSome};
ghost use Rattle.lisp_graph.specs.declared.object.Body.TheVariants.{Cons, Block};
ghost use Rattle.lisp_graph.specs.Graph.{object_at};
ghost use Rattle.mem_port.specs.Store.{Stores, StoresNothing};
ghost use Rattle.heap_load.specs.Loading.{IsLoadable, Laid};
ghost use Rattle.heap_load.specs.Places.{place_at};

use crate::places::{Place, cell_code, is_known, second_code, word_of};
use area_space::Ground;
use lisp_graph::{BodyRef, Value, World};
use mem_port::Memory;
use std::sync::ledger::Ledger;
use store_word::{CdrCode, Steps, SwapFault, Word};

// A cons that gets its parts: its number, and the car and the cdr that it has in the world.
#[derive(Clone, Copy)]
struct ConsParts {
    number: usize,
    car: Value,
    cdr: Value,
}

/// Stores, in all objects of a world, the parts that weren't known when the objects were made.
#[inline(never)]
pub(crate) fn fill_drafts<M: Memory, L: Ledger>(
    ground: &mut Ground<M>,
    world: &World,
    places: &[Place],
    steps: &mut Steps<L>,
) -> Result<(), SwapFault>
    requires loadable { IsLoadable world.now }
    requires places { length places.now ≡ length world.now.objects }
    requires made { Drafted (view ground.old) world.now places.now (length world.now.objects) }
    requires laid { Laid (view ground.old).mem.store.words places.now world.now.objects (length world.now.objects) }

    // what is stored
    ensures filled { OnOk result (Filled (view ground.new) world.now places.now (length world.now.objects)) }
    ensures stays_laid { OnOk result (Laid (view ground.new).mem.store.words places.now world.now.objects (length world.now.objects)) }

    // after a failure, and what is unchanged
    ensures left { OnErr result (HoldsSome (view ground.new) world.now) }
    ensures table { ground.new.table ≡ ground.old.table }

    // swap errors
    ensures succeeds { world.now.objects ≡ [] → IsOk result }
    ensures accounted { AccountsForFaults (view ground.old).mem (view ground.new).mem steps.old steps.new result }
{
    let count = world.objects.len() as usize;
    for number in 0..count {
        fill_object(ground, world, places, number, steps)?;
    }
    Ok(())
}

// Stores the parts of the object with this number.
fn fill_object<M: Memory, L: Ledger>(
    ground: &mut Ground<M>,
    world: &World,
    places: &[Place],
    number: usize,
    steps: &mut Steps<L>,
) -> Result<(), SwapFault>
    requires loadable { IsLoadable world.now }
    requires places { length places.now ≡ length world.now.objects }
    requires in_range { number < length world.now.objects }
    requires filled { Filled (view ground.old) world.now places.now number }
    requires laid { Laid (view ground.old).mem.store.words places.now world.now.objects (length world.now.objects) }

    // what is stored
    ensures stays_filled { OnOk result (Filled (view ground.new) world.now places.now (number + 1)) }
    ensures stays_laid { OnOk result (Laid (view ground.new).mem.store.words places.now world.now.objects (length world.now.objects)) }

    // after a failure, and what is unchanged
    ensures left { OnErr result (HoldsSome (view ground.new) world.now) }
    ensures table { ground.new.table ≡ ground.old.table }

    // swap errors
    ensures accounted { AccountsForFaults (view ground.old).mem (view ground.new).mem steps.old steps.new result }
{
    match world.objects.body(number) {
        BodyRef::Cons { car, cdr } => {
            let cons = ConsParts { number, car, cdr };
            fill_cons(ground, world, places, cons, steps)
        }
        BodyRef::Block { code: _, fields } => {
            fill_block(ground, world, places, number, fields, steps)
        }
    }
}

// Stores the car of a cell, or the parts of a pair that weren't known when it was made: the cdr of a
// cell is determined by its layout.
fn fill_cons<M: Memory, L: Ledger>(
    ground: &mut Ground<M>,
    world: &World,
    places: &[Place],
    cons: ConsParts,
    steps: &mut Steps<L>,
) -> Result<(), SwapFault>
    requires loadable { IsLoadable world.now }
    requires places { length places.now ≡ length world.now.objects }
    requires in_range { cons.number < length world.now.objects }
    requires agrees { (object_at world.now.objects cons.number).body ≡ Cons cons.car cons.cdr }
    requires filled { Filled (view ground.old) world.now places.now cons.number }
    requires laid { Laid (view ground.old).mem.store.words places.now world.now.objects (length world.now.objects) }

    // what is stored
    ensures stays_filled { OnOk result (Filled (view ground.new) world.now places.now (cons.number + 1)) }
    ensures stays_laid { OnOk result (Laid (view ground.new).mem.store.words places.now world.now.objects (length world.now.objects)) }

    // after a failure, and what is unchanged
    ensures left { OnErr result (HoldsSome (view ground.new) world.now) }
    ensures table { ground.new.table ≡ ground.old.table }

    // swap errors
    ensures accounted { AccountsForFaults (view ground.old).mem (view ground.new).mem steps.old steps.new result }
{
    let ConsParts { number, .. } = cons;
    if places[number].is_cell() {
        return fill_cell(ground, world, places, cons, steps);
    }
    fill_car(ground, world, places, cons, steps)?;
    fill_cdr(ground, world, places, cons, steps)
}

// Stores the car of a cell.
fn fill_cell<M: Memory, L: Ledger>(
    ground: &mut Ground<M>,
    world: &World,
    places: &[Place],
    cons: ConsParts,
    steps: &mut Steps<L>,
) -> Result<(), SwapFault>
    requires loadable { IsLoadable world.now }
    requires places { length places.now ≡ length world.now.objects }
    requires in_range { cons.number < length world.now.objects }
    requires agrees { (object_at world.now.objects cons.number).body ≡ Cons cons.car cons.cdr }
    requires cell { (place_at places.now cons.number).cell ≡ true }
    requires filled { Filled (view ground.old) world.now places.now cons.number }
    requires laid { Laid (view ground.old).mem.store.words places.now world.now.objects (length world.now.objects) }

    // what is stored
    ensures stays_filled { OnOk result (Filled (view ground.new) world.now places.now (cons.number + 1)) }
    ensures stays_laid { OnOk result (Laid (view ground.new).mem.store.words places.now world.now.objects (length world.now.objects)) }

    // after a failure, and what is unchanged
    ensures left { OnErr result (HoldsSome (view ground.new) world.now) }
    ensures table { ground.new.table ≡ ground.old.table }

    // swap errors
    ensures accounted { AccountsForFaults (view ground.old).mem (view ground.new).mem steps.old steps.new result }
{
    let ConsParts { number, car, cdr } = cons;
    let at = places[number].cons_at();
    let first = word_of(car, places).with_cdr(cell_code(cdr));
    store(ground, at, first, steps)
}

// Stores the car of a pair, if it wasn't known when the pair was made.
fn fill_car<M: Memory, L: Ledger>(
    ground: &mut Ground<M>,
    world: &World,
    places: &[Place],
    cons: ConsParts,
    steps: &mut Steps<L>,
) -> Result<(), SwapFault>
    requires loadable { IsLoadable world.now }
    requires places { length places.now ≡ length world.now.objects }
    requires in_range { cons.number < length world.now.objects }
    requires agrees { (object_at world.now.objects cons.number).body ≡ Cons cons.car cons.cdr }
    requires pair { (place_at places.now cons.number).cell ≡ false }
    requires filled { Filled (view ground.old) world.now places.now cons.number }
    requires laid { Laid (view ground.old).mem.store.words places.now world.now.objects (length world.now.objects) }

    // what is stored
    ensures stays_filled { OnOk result (CarFilled (view ground.new) world.now places.now cons.number cons.car cons.cdr) }
    ensures stays_laid { OnOk result (Laid (view ground.new).mem.store.words places.now world.now.objects (length world.now.objects)) }

    // after a failure, and what is unchanged
    ensures left { OnErr result (HoldsSome (view ground.new) world.now) }
    ensures table { ground.new.table ≡ ground.old.table }

    // swap errors
    ensures accounted { AccountsForFaults (view ground.old).mem (view ground.new).mem steps.old steps.new result }
{
    let ConsParts { number, car, .. } = cons;
    if is_known(car, number) {
        return Ok(());
    }
    let at = places[number].cons_at();
    let first = word_of(car, places).with_cdr(CdrCode::Normal);
    store(ground, at, first, steps)
}

// Stores the cdr of a pair, if it wasn't known when the pair was made.
fn fill_cdr<M: Memory, L: Ledger>(
    ground: &mut Ground<M>,
    world: &World,
    places: &[Place],
    cons: ConsParts,
    steps: &mut Steps<L>,
) -> Result<(), SwapFault>
    requires loadable { IsLoadable world.now }
    requires places { length places.now ≡ length world.now.objects }
    requires in_range { cons.number < length world.now.objects }
    requires agrees { (object_at world.now.objects cons.number).body ≡ Cons cons.car cons.cdr }
    requires pair { (place_at places.now cons.number).cell ≡ false }
    requires filled { CarFilled (view ground.old) world.now places.now cons.number cons.car cons.cdr }
    requires laid { Laid (view ground.old).mem.store.words places.now world.now.objects (length world.now.objects) }

    // what is stored
    ensures stays_filled { OnOk result (Filled (view ground.new) world.now places.now (cons.number + 1)) }
    ensures stays_laid { OnOk result (Laid (view ground.new).mem.store.words places.now world.now.objects (length world.now.objects)) }

    // after a failure, and what is unchanged
    ensures left { OnErr result (HoldsSome (view ground.new) world.now) }
    ensures table { ground.new.table ≡ ground.old.table }

    // swap errors
    ensures accounted { AccountsForFaults (view ground.old).mem (view ground.new).mem steps.old steps.new result }
{
    let ConsParts { number, cdr, .. } = cons;
    if is_known(cdr, number) {
        return Ok(());
    }
    let charge = world.objects.charge_of(number);
    let at = places[number].cons_at();
    let second = word_of(cdr, places).with_cdr(second_code(charge));
    store(ground, at + 1, second, steps)
}

// Stores the fields of a block.
#[inline(never)]
fn fill_block<M: Memory, L: Ledger>(
    ground: &mut Ground<M>,
    world: &World,
    places: &[Place],
    number: usize,
    fields: &[Value],
    steps: &mut Steps<L>,
) -> Result<(), SwapFault>
    requires loadable { IsLoadable world.now }
    requires places { length places.now ≡ length world.now.objects }
    requires in_range { number < length world.now.objects }
    requires agrees { (code : ℕ) × ((object_at world.now.objects number).body ≡ Block code fields.now) }
    requires filled { Filled (view ground.old) world.now places.now number }
    requires laid { Laid (view ground.old).mem.store.words places.now world.now.objects (length world.now.objects) }

    // what is stored
    ensures stays_filled { OnOk result (Filled (view ground.new) world.now places.now (number + 1)) }
    ensures stays_laid { OnOk result (Laid (view ground.new).mem.store.words places.now world.now.objects (length world.now.objects)) }

    // after a failure, and what is unchanged
    ensures left { OnErr result (HoldsSome (view ground.new) world.now) }
    ensures table { ground.new.table ≡ ground.old.table }

    // swap errors
    ensures accounted { AccountsForFaults (view ground.old).mem (view ground.new).mem steps.old steps.new result }
{
    let at = places[number].block_at();
    for i in 0..fields.len() {
        let word = word_of(fields[i], places).with_cdr(CdrCode::Next);
        store(ground, at + 1 + i as u32, word, steps)?;
    }
    Ok(())
}

// Stores a word at an address.
#[inline(always)]
fn store<M: Memory, L: Ledger>(
    ground: &mut Ground<M>,
    at: u32,
    word: Word,
    steps: &mut Steps<L>,
) -> Result<(), SwapFault>
    requires { at < length (view ground.old).mem.store.words }
    ensures written { OnOk result (Stores (view ground.old).mem.store (view ground.new).mem.store at word) }
    ensures unchanged { OnErr result (StoresNothing (view ground.old).mem.store (view ground.new).mem.store) }
    ensures table { ground.new.table ≡ ground.old.table }
    ensures accounted { AccountsForFaults (view ground.old).mem (view ground.new).mem steps.old steps.new result }
{
    ground.mem.write(at, word, steps)
}
