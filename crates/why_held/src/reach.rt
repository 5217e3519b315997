//! Finding the objects that the registers of a walk reach.
ghost use Rattle.std.specs.Prelude.{◌≡◌, ◌∷◌, [], true, OnOk};
ghost use Rattle.lisp_graph.specs.KeyedGraph.{KeyedGraph, Shows};
ghost use Rattle.world_text.specs.Dump.{HasSwapCause};
ghost use Rattle.world_text.specs.Numbering.{IsKnown, fields_of, seen_as};
ghost use Rattle.why_held.specs.Reached.{Meets};

use lisp_graph::{NoMemory, Seen, Walk};
use world_text::{DumpFault, Numbering};

/// Adds the object with this key to those that were found, if it isn't among them.
fn meet(met: &mut Numbering, key: u64, cons: bool) -> Result<(), NoMemory>
    ensures ok { OnOk result (Meets (seen_as cons key ∷ []) met.old met.new) }
    ensures stays_known { (graph : KeyedGraph) → Shows graph (seen_as cons key) → IsKnown graph met.old → OnOk result (IsKnown graph met.new) }
{
    if met.keys.contains(key) {
        return Ok(());
    }
    met.add(key, cons)?;
    Ok(())
}

/// Adds the object to which a value refers, if there is one.
fn meet_value(met: &mut Numbering, value: Seen) -> Result<(), NoMemory>
    ensures ok { OnOk result (Meets (value ∷ []) met.old met.new) }
    ensures stays_known { (graph : KeyedGraph) → Shows graph value → IsKnown graph met.old → OnOk result (IsKnown graph met.new) }
{
    match value {
        Seen::Cons(key) => meet(met, key, true),
        Seen::Block(key) => meet(met, key, false),
        Seen::Fix(_) | Seen::Nil => Ok(()),
    }
}

/// Adds the objects to which the registers refer.
pub(crate) fn meet_registers<W: Walk>(walk: &mut W, met: &mut Numbering) -> Result<(), DumpFault>
    requires { IsKnown (W.graph walk.old) met.old }
    ensures ok { OnOk result (Meets (W.graph walk.old).registers met.old met.new) }
    ensures stays_known { OnOk result (IsKnown (W.graph walk.old) met.new) }
    ensures unchanged { W.graph walk.new ≡ W.graph walk.old }
    ensures cause { HasSwapCause (W.faults walk.old) (W.faults walk.new) result }
{
    let count = walk.registers();
    let mut register = 0;
    while register < count {
        let value = walk.value_of_register(register)?;
        meet_value(met, value)?;
        register += 1;
    }
    Ok(())
}

/// Adds the objects to which the fields of an object refer.
pub(crate) fn meet_fields<W: Walk>(
    walk: &mut W,
    met: &mut Numbering,
    key: u64,
    length: u16,
) -> Result<(), DumpFault>
    requires object { (W.graph walk.old).has key ≡ true }
    requires agrees { length ≡ ((W.graph walk.old).form key).length }
    requires known { IsKnown (W.graph walk.old) met.old }
    ensures ok { OnOk result (Meets (fields_of (W.graph walk.old) key) met.old met.new) }
    ensures stays_known { OnOk result (IsKnown (W.graph walk.old) met.new) }
    ensures unchanged { W.graph walk.new ≡ W.graph walk.old }
    ensures cause { HasSwapCause (W.faults walk.old) (W.faults walk.new) result }
{
    let mut index = 0;
    while index < u32::from(length) {
        let value = walk.field_of(key, index)?;
        meet_value(met, value)?;
        index += 1;
    }
    Ok(())
}
