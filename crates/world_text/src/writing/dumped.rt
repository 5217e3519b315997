//! The walk of a dump: it visits the registers, and then the objects in the order of their numbers.
ghost use Rattle.std.specs.Prelude.{◌≡◌, ◌+◌, ◌<◌, ◌^◌, [], Some, true, false, length, slice_get, IfOk, OnOk};
ghost use Rattle.lisp_graph.specs.KeyedGraph.{Shows, cons_at};
ghost use Rattle.lisp_graph.specs.declared.walk.Seen.TheVariants.{Cons as a_cons};
ghost use Rattle.world_text.specs.writing.Numbering.{fields_of};
ghost use Rattle.world_text.specs.writing.Dump.{HasSwapCause};
ghost use Rattle.world_text.specs.writing.Visits.{AreVisited, AreVisits, IsDumped, ShowsParts, WritesObjects};

use crate::DumpFault;
use crate::writing::object_writer::ObjectWriter;
use crate::writing::visit::{VisitedObjects, visit};
use lisp_graph::{AreaRule, Body, Fields, Object, SeenCons, Walk};
use std::alloc::Global;

/// Visits the fields of an object with this many.
fn dumped_fields<W: Walk>(
    alloc: Global,
    walk: &mut W,
    visits: &mut VisitedObjects,
    key: u64,
    length: u16,
) -> Result<Fields, DumpFault>
    requires object { (W.graph walk.old).has key ≡ true }
    requires agrees { length ≡ ((W.graph walk.old).form key).length }
    requires visits { AreVisits (W.graph walk.old) visits.old }
    ensures value { IfOk result (λ fields. AreVisited (W.graph walk.old) (fields_of (W.graph walk.old) key) visits.old visits.new fields) }
    ensures unchanged { W.graph walk.new ≡ W.graph walk.old }
    ensures cause { HasSwapCause (W.faults walk.old) (W.faults walk.new) result }
{
    let mut fields = Fields::new(alloc);
    let mut index = 0;
    while index < u32::from(length) {
        let seen = walk.field_of(key, index)?;
        let value = visit(walk, visits, seen)?;
        fields.push(value)?;
        index += 1;
    }
    Ok(fields)
}

/// Visits the car and the cdr of this cons, which the walk showed when the cons got its number.
#[inline(always)]
fn dumped_cons<W: Walk>(
    walk: &mut W,
    visits: &mut VisitedObjects,
    key: u64,
    cons: SeenCons,
) -> Result<Object, DumpFault>
    requires pair { Shows (W.graph walk.old) (a_cons key) }
    requires agrees { cons ≡ cons_at (W.graph walk.old) key }
    requires shows { ShowsParts (W.graph walk.old) (Some cons) }
    requires visits { AreVisits (W.graph walk.old) visits.old }
    ensures value { IfOk result (λ object. IsDumped (W.graph walk.old) key visits.old visits.new object) }
    ensures done { IfOk result (λ _. visits.new.taken ≡ visits.old.taken) }
    ensures unchanged { W.graph walk.new ≡ W.graph walk.old }
    ensures cause { HasSwapCause (W.faults walk.old) (W.faults walk.new) result }
{
    let car = visit(walk, visits, cons.car)?;
    let cdr = visit(walk, visits, cons.cdr)?;
    Ok(Object {
        area: cons.area,
        charge: cons.charge,
        body: Body::Cons { car, cdr },
    })
}

/// Visits the fields of a block.
fn dumped_block<W: Walk>(
    alloc: Global,
    walk: &mut W,
    visits: &mut VisitedObjects,
    key: u64,
) -> Result<Object, DumpFault>
    requires object { (W.graph walk.old).has key ≡ true }
    requires pair { (W.graph walk.old).cons key ≡ false }
    requires visits { AreVisits (W.graph walk.old) visits.old }
    ensures value { IfOk result (λ object. IsDumped (W.graph walk.old) key visits.old visits.new object) }
    ensures done { IfOk result (λ _. visits.new.taken ≡ visits.old.taken) }
    ensures unchanged { W.graph walk.new ≡ W.graph walk.old }
    ensures cause { HasSwapCause (W.faults walk.old) (W.faults walk.new) result }
{
    let form = walk.form_of(key)?;
    let fields = dumped_fields(alloc, walk, visits, key, form.length)?;
    Ok(Object {
        area: form.area,
        charge: form.charge,
        body: Body::Block {
            code: form.code,
            fields,
        },
    })
}

/// Visits the first object that waits, which has this number.
fn dumped_object<W: Walk>(
    alloc: Global,
    walk: &mut W,
    visits: &mut VisitedObjects,
    number: usize,
    key: u64,
) -> Result<Object, DumpFault>
    requires listed { slice_get visits.old.keys number ≡ Some key }
    requires agrees { visits.old.taken ≡ number }
    requires at_most { number < 2 ^ 32 }
    requires visits { AreVisits (W.graph walk.old) visits.old }
    ensures value { IfOk result (λ object. IsDumped (W.graph walk.old) key visits.old visits.new object) }
    ensures done { IfOk result (λ _. visits.new.taken ≡ number + 1) }
    ensures unchanged { W.graph walk.new ≡ W.graph walk.old }
    ensures cause { HasSwapCause (W.faults walk.old) (W.faults walk.new) result }
{
    match visits.take_first() {
        Some(cons) => dumped_cons(walk, visits, key, cons),
        None => dumped_block(alloc, walk, visits, key),
    }
}

/// Visits the objects that have numbers, in the order of these, until none remains, and writes their lines; further ones get
/// numbers meanwhile.
pub fn write_objects<W: Walk>(
    alloc: Global,
    walk: &mut W,
    visits: &mut VisitedObjects,
    areas: &[AreaRule],
    writer: &mut ObjectWriter,
) -> Result<(), DumpFault>
    requires visits { AreVisits (W.graph walk.old) visits.old }
    requires done { visits.old.taken ≡ 0 }
    requires fresh { writer.old.first ≡ 0 }
    requires empty { writer.old.cars.items ≡ [] }
    ensures value { OnOk result (WritesObjects (W.graph walk.old) areas.now visits.old visits.new writer.old.text writer.new.text) }
    ensures at_most { OnOk result (length visits.new.keys < 2 ^ 32) }
    ensures unchanged { W.graph walk.new ≡ W.graph walk.old }
    ensures cause { HasSwapCause (W.faults walk.old) (W.faults walk.new) result }
{
    let mut number = 0;
    while let Some(key) = visits.keys.key(number) {
        let object = dumped_object(alloc, walk, visits, number, key)?;
        writer.add(areas, &object)?;
        number += 1;
    }
    writer.write_all(areas)?;
    Ok(())
}

/// Visits the registers.
pub fn dumped_registers<W: Walk>(
    alloc: Global,
    walk: &mut W,
    visits: &mut VisitedObjects,
) -> Result<Fields, DumpFault>
    requires { AreVisits (W.graph walk.old) visits.old }
    ensures value { IfOk result (λ registers. AreVisited (W.graph walk.old) (W.graph walk.old).registers visits.old visits.new registers) }
    ensures at_most { length (W.graph walk.old).registers < 2 ^ 32 }
    ensures unchanged { W.graph walk.new ≡ W.graph walk.old }
    ensures cause { HasSwapCause (W.faults walk.old) (W.faults walk.new) result }
{
    let mut registers = Fields::new(alloc);
    let count = walk.registers();
    let mut register = 0;
    while register < count {
        let seen = walk.value_of_register(register)?;
        let value = visit(walk, visits, seen)?;
        registers.push(value)?;
        register += 1;
    }
    Ok(registers)
}
