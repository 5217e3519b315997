//! Counting the objects that the registers of a walk reach.
ghost use Rattle.std.specs.Prelude.{◌≡◌, true, [], map, IfOk, OnOk};
ghost use Rattle.world_text.specs.Dump.{HasSwapCause};
ghost use Rattle.world_text.specs.Numbering.{IsKnown, fields_of};
ghost use Rattle.why_held.specs.Reached.{AreReached, IsReachedCensus, IsReaching, Meets, counted_form, counted_key};
ghost use Rattle.why_held.specs.Tallies.{AreTallies, Counts, HasRoom, tally_in};

use crate::reach::{meet_fields, meet_registers};
use crate::rows::{CensusRows, Counted};
use crate::tallies::{Tallies, count, no_tallies, rows_of};
use lisp_graph::{Areas, Form, Walk};
use std::alloc::Global;
use world_text::{DumpFault, Numbering};

/// What a census uses of an object of this form.
fn counted_form(form: Form, cons: bool) -> Counted
    ensures { result ≡ counted_form form cons }
{
    Counted {
        area: form.area,
        code: if cons { None } else { Some(form.code) },
        charge: form.charge,
    }
}

/// Counts an object that was found, and adds those to which its fields refer.
fn count_object<W: Walk>(
    walk: &mut W,
    met: &mut Numbering,
    tallies: &mut Tallies,
    key: u64,
    cons: bool,
) -> Result<(), DumpFault>
    requires object { (W.graph walk.old).has key ≡ true }
    requires agrees { cons ≡ (W.graph walk.old).cons key }
    requires known { IsKnown (W.graph walk.old) met.old }
    requires room { HasRoom (tally_in tallies.old (counted_key (W.graph walk.old) key).area (counted_key (W.graph walk.old) key).code) }
    ensures ok { OnOk result (Meets (fields_of (W.graph walk.old) key) met.old met.new) }
    ensures stays_known { OnOk result (IsKnown (W.graph walk.old) met.new) }
    ensures count { OnOk result (Counts (counted_key (W.graph walk.old) key) tallies.old tallies.new) }
    ensures unchanged { W.graph walk.new ≡ W.graph walk.old }
    ensures cause { HasSwapCause (W.faults walk.old) (W.faults walk.new) result }
{
    let form = walk.form_of(key)?;
    count(tallies, counted_form(form, cons))?;
    meet_fields(walk, met, key, form.length)
}

/// Finds and counts the reachable objects, one after another.
fn count_objects<W: Walk>(
    walk: &mut W,
    met: &mut Numbering,
    tallies: &mut Tallies,
) -> Result<(), DumpFault>
    requires known { IsKnown (W.graph walk.old) met.old }
    requires fresh { IsReaching (W.graph walk.old) 0 met.old }
    requires empty { AreTallies [] tallies.old }
    ensures sound { OnOk result (AreReached (W.graph walk.old) met.new.keys) }
    ensures after { OnOk result (AreTallies (map (counted_key (W.graph walk.old)) met.new.keys) tallies.new) }
    ensures unchanged { W.graph walk.new ≡ W.graph walk.old }
    ensures cause { HasSwapCause (W.faults walk.old) (W.faults walk.new) result }
{
    let mut number = 0usize;
    while let Some(key) = met.keys.key(number) {
        let cons = met.conses.as_slice()[number];
        count_object(walk, met, tallies, key, cons)?;
        number += 1;
    }
    Ok(())
}

/// Counts the objects that the registers of a walk reach; the world has these areas. Each object is looked at once, and so is each of its
/// fields. It fails if memory runs out, which it also reports if more than 2^32 - 1 objects are reached or if a key is 2^32 or more, or
/// if a page call of the swap device fails.
pub fn reached<W: Walk>(
    alloc: Global,
    walk: &mut W,
    _areas: &Areas,
) -> Result<CensusRows, DumpFault>
    ensures value { IfOk result (λ rows. IsReachedCensus (W.graph walk.old) rows) }
    ensures unchanged { W.graph walk.new ≡ W.graph walk.old }
    ensures cause { HasSwapCause (W.faults walk.old) (W.faults walk.new) result }
{
    let mut met = Numbering::new(alloc);
    meet_registers(walk, &mut met)?;
    let mut tallies = no_tallies(alloc);
    count_objects(walk, &mut met, &mut tallies)?;
    let rows = rows_of(alloc, tallies)?;
    Ok(rows)
}
