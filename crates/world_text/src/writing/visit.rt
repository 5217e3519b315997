//! Visiting values, so that the objects to which they refer get numbers.
ghost use Rattle.std.specs.Prelude.{◌≡◌, ◌+◌, ◌<◌, ◌^◌, [], ◌∷◌, true, false, length, OnOk, IfOk};
ghost use Rattle.lisp_graph.specs.KeyedGraph.{KeyedGraph, Shows};
ghost use Rattle.lisp_graph.specs.declared.object.Value.TheVariants.{Ref as a_ref};
ghost use Rattle.lisp_graph.specs.declared.walk.Seen.TheVariants.{Block as a_block, Cons as a_cons};
ghost use Rattle.world_text.specs.writing.Numbering.{Chained, is_numbered, next_cons};
ghost use Rattle.world_text.specs.writing.Dump.{HasSwapCause};
ghost use Rattle.world_text.specs.writing.Visits.{AreVisits, IsVisit};

use crate::DumpFault;
use crate::writing::kept_object::KeptObject;
use crate::writing::kept_queue::KeptQueue;
use crate::writing::numbering::KeyNumbers;
use lisp_graph::{Seen, SeenCons, Value, Walk};
use std::alloc::Global;
use store_word::NoMemory;

/// The objects that were visited. The parts of the first `taken` of them were visited too, or are being visited. For each other object
/// `waiting` has the cons as the walk showed it, or says that it is a block.
#[derive(Drop)]
pub struct VisitedObjects {
    pub keys: KeyNumbers,
    pub taken: usize,
    pub waiting: KeptQueue,
}

impl VisitedObjects {
    /// The visits before any object is visited.
    pub fn new(alloc: Global) -> VisitedObjects
        ensures empty { result.keys ≡ [] }
        ensures done { result.taken ≡ 0 }
        ensures sound { (graph : KeyedGraph) → AreVisits graph result }
    {
        VisitedObjects {
            keys: KeyNumbers::new(alloc),
            taken: 0,
            waiting: KeptQueue::new(alloc),
        }
    }

    /// Takes the first object that waits. Returns the cons that is kept, or None for a block.
    #[inline(always)]
    pub fn take_first(&mut self) -> Option<SeenCons>
        requires at_least { 0 < length self.old.waiting }
        requires at_most { self.old.taken < 2 ^ 32 }
        ensures value { self.old.waiting ≡ result ∷ self.new.waiting }
        ensures done { self.new.taken ≡ self.old.taken + 1 }
        ensures unchanged { self.new.keys ≡ self.old.keys }
    {
        self.taken += 1;
        self.waiting.take_first()
    }
}

/// The cons to which the value refers, if it has no number yet.
fn next_cons(keys: &KeyNumbers, value: Seen) -> Option<u64>
    ensures { result ≡ next_cons keys.now value }
{
    match value {
        Seen::Cons(key) => { if keys.contains(key) { None } else { Some(key) } }
        Seen::Fix(_) | Seen::Nil | Seen::Block(_) => None,
    }
}

/// Gives the next numbers to a cons and to the conses along its cdrs, up to the first that has a number.
fn chain<W: Walk>(walk: &mut W, visits: &mut VisitedObjects, key: u64) -> Result<(), DumpFault>
    requires shows { Shows (W.graph walk.old) (a_cons key) }
    requires fresh { is_numbered visits.old.keys key ≡ false }
    requires visits { AreVisits (W.graph walk.old) visits.old }
    ensures ok { OnOk result (Chained (W.graph walk.old) visits.old.keys key visits.new.keys) }
    ensures sound { OnOk result (AreVisits (W.graph walk.old) visits.new) }
    ensures done { OnOk result (visits.new.taken ≡ visits.old.taken) }
    ensures unchanged { W.graph walk.new ≡ W.graph walk.old }
    ensures cause { HasSwapCause (W.faults walk.old) (W.faults walk.new) result }
{
    let mut key = key;
    loop {
        visits.keys.add(key)?;
        let cons = walk.cons_of(key)?;
        let kept = KeptObject::cons(cons)?;
        visits.waiting.push(kept)?;
        match next_cons(&visits.keys, cons.cdr) {
            None => return Ok(()),
            Some(next) => key = next,
        }
    }
}

/// The number of a cons, which gets the next one if it has none.
#[inline(always)]
fn cons_number<W: Walk>(
    walk: &mut W,
    visits: &mut VisitedObjects,
    key: u64,
) -> Result<u64, DumpFault>
    requires shows { Shows (W.graph walk.old) (a_cons key) }
    requires visits { AreVisits (W.graph walk.old) visits.old }
    ensures value { IfOk result (λ number. IsVisit (W.graph walk.old) (a_cons key) visits.old visits.new (a_ref number)) }
    ensures unchanged { W.graph walk.new ≡ W.graph walk.old }
    ensures cause { HasSwapCause (W.faults walk.old) (W.faults walk.new) result }
{
    if let Some(number) = visits.keys.number_of(key) {
        return Ok(number as u64);
    }
    let number = visits.keys.len();
    chain(walk, visits, key)?;
    Ok(number as u64)
}

/// The number of a block, which gets the next one if it has none.
fn block_number(visits: &mut VisitedObjects, key: u64) -> Result<u64, NoMemory>
    ensures { (graph : KeyedGraph) → Shows graph (a_block key) → AreVisits graph visits.old → IfOk result (λ number. IsVisit graph (a_block key) visits.old visits.new (a_ref number)) }
{
    if let Some(number) = visits.keys.number_of(key) {
        return Ok(number as u64);
    }
    let number = visits.keys.len();
    visits.keys.add(key)?;
    visits.waiting.push(KeptObject::block())?;
    Ok(number as u64)
}

/// Visits a value; the result has the number of the object to which it refers.
#[inline(always)]
pub fn visit<W: Walk>(
    walk: &mut W,
    visits: &mut VisitedObjects,
    seen: Seen,
) -> Result<Value, DumpFault>
    requires shows { Shows (W.graph walk.old) seen }
    requires visits { AreVisits (W.graph walk.old) visits.old }
    ensures value { IfOk result (λ value. IsVisit (W.graph walk.old) seen visits.old visits.new value) }
    ensures unchanged { W.graph walk.new ≡ W.graph walk.old }
    ensures cause { HasSwapCause (W.faults walk.old) (W.faults walk.new) result }
{
    match seen {
        Seen::Fix(number) => Ok(Value::Fix(number)),
        Seen::Nil => Ok(Value::Nil),
        Seen::Cons(key) => Ok(Value::Ref(cons_number(walk, visits, key)?)),
        Seen::Block(key) => Ok(Value::Ref(block_number(visits, key)?)),
    }
}
