//! The calls of a walk, which has no counter of memory accesses: each opens one for itself.
ghost use Rattle.std.specs.Prelude.{◌≡◌, ◌<◌, true, IfOk};
ghost use Rattle.store_word.specs.Faults.{TellsFaults};
ghost use Rattle.mem_port.specs.Frames.{LeavesRoom};
ghost use Rattle.area_space.specs.View.{view};
ghost use Rattle.word_graph.specs.Views.{CanSee, HasObject, cons_in, field_in, form_in, is_cons_in, parts_in, told};
ghost use Rattle.mem_port.specs.Store.{StoresNothing};

use crate::walking::{cons_at, field_at, form_at, value_of_word};
use area_space::Ground;
use lisp_graph::{Form, Seen, SeenCons};
use mem_port::Memory;
use std::marker::Brand;
use std::sync::ledger::{Blank, Ledger};
use store_word::{Steps, SwapFault, Word};

// The calls over the ledger that a blank opens

fn value_over<M: Memory, L: Ledger>(
    ground: &mut Ground<M>,
    word: Word,
    blank: Blank,
) -> Result<Seen, SwapFault>
    requires name { blank.name ≡ L.name }
    requires parts { blank.parts ≡ L.parts }
    requires at_least { blank.parts ≡ 1 }
    requires can { CanSee (view ground.old) word.content }
    ensures value { IfOk result (λ seen. seen ≡ told (view ground.old) word.content) }
    ensures unchanged { StoresNothing (view ground.old).mem.store (view ground.new).mem.store }
    ensures table { ground.new.table ≡ ground.old.table }
    ensures cause { TellsFaults (view ground.old).mem.faults (view ground.new).mem.faults result }
    ensures room { LeavesRoom (view ground.old).mem.resident (view ground.new).mem.resident result }
{
    value_of_word(ground, word, &mut Steps::<L>::new(blank))
}

fn form_over<M: Memory, L: Ledger>(
    ground: &mut Ground<M>,
    key: u64,
    blank: Blank,
) -> Result<Form, SwapFault>
    requires name { blank.name ≡ L.name }
    requires parts { blank.parts ≡ L.parts }
    requires at_least { blank.parts ≡ 1 }
    requires object { HasObject (view ground.old) key }
    ensures value { IfOk result (λ form. form ≡ form_in (view ground.old) key) }
    ensures unchanged { StoresNothing (view ground.old).mem.store (view ground.new).mem.store }
    ensures table { ground.new.table ≡ ground.old.table }
    ensures cause { TellsFaults (view ground.old).mem.faults (view ground.new).mem.faults result }
    ensures room { LeavesRoom (view ground.old).mem.resident (view ground.new).mem.resident result }
{
    form_at(ground, key, &mut Steps::<L>::new(blank))
}

fn field_over<M: Memory, L: Ledger>(
    ground: &mut Ground<M>,
    key: u64,
    index: u32,
    blank: Blank,
) -> Result<Seen, SwapFault>
    requires name { blank.name ≡ L.name }
    requires parts { blank.parts ≡ L.parts }
    requires at_least { blank.parts ≡ 1 }

    // The object has this part.
    requires object { HasObject (view ground.old) key }
    requires in_range { index < parts_in (view ground.old) key }

    // What is returned.
    ensures value { IfOk result (λ seen. seen ≡ field_in (view ground.old) key index) }

    // What is unchanged, and swap errors.
    ensures unchanged { StoresNothing (view ground.old).mem.store (view ground.new).mem.store }
    ensures table { ground.new.table ≡ ground.old.table }
    ensures cause { TellsFaults (view ground.old).mem.faults (view ground.new).mem.faults result }
    ensures room { LeavesRoom (view ground.old).mem.resident (view ground.new).mem.resident result }
{
    field_at(ground, key, index, &mut Steps::<L>::new(blank))
}

fn cons_over<M: Memory, L: Ledger>(
    ground: &mut Ground<M>,
    key: u64,
    blank: Blank,
) -> Result<SeenCons, SwapFault>
    requires name { blank.name ≡ L.name }
    requires parts { blank.parts ≡ L.parts }
    requires at_least { blank.parts ≡ 1 }
    requires object { HasObject (view ground.old) key }
    requires pair { is_cons_in (view ground.old) key ≡ true }
    ensures value { IfOk result (λ cons. cons ≡ cons_in (view ground.old) key) }
    ensures unchanged { StoresNothing (view ground.old).mem.store (view ground.new).mem.store }
    ensures table { ground.new.table ≡ ground.old.table }
    ensures cause { TellsFaults (view ground.old).mem.faults (view ground.new).mem.faults result }
    ensures room { LeavesRoom (view ground.old).mem.resident (view ground.new).mem.resident result }
{
    cons_at(ground, key, &mut Steps::<L>::new(blank))
}

/// `value_of_word`, without a counter of memory accesses.
pub fn read_word<M: Memory>(ground: &mut Ground<M>, word: Word) -> Result<Seen, SwapFault>
    requires { CanSee (view ground.old) word.content }
    ensures value { IfOk result (λ seen. seen ≡ told (view ground.old) word.content) }
    ensures unchanged { StoresNothing (view ground.old).mem.store (view ground.new).mem.store }
    ensures table { ground.new.table ≡ ground.old.table }
    ensures cause { TellsFaults (view ground.old).mem.faults (view ground.new).mem.faults result }
    ensures room { LeavesRoom (view ground.old).mem.resident (view ground.new).mem.resident result }
{
    value_over::<M, Brand>(ground, word, Blank::new(1))
}

/// `form_at`, without a counter of memory accesses.
pub fn read_form<M: Memory>(ground: &mut Ground<M>, key: u64) -> Result<Form, SwapFault>
    requires { HasObject (view ground.old) key }
    ensures value { IfOk result (λ form. form ≡ form_in (view ground.old) key) }
    ensures unchanged { StoresNothing (view ground.old).mem.store (view ground.new).mem.store }
    ensures table { ground.new.table ≡ ground.old.table }
    ensures cause { TellsFaults (view ground.old).mem.faults (view ground.new).mem.faults result }
    ensures room { LeavesRoom (view ground.old).mem.resident (view ground.new).mem.resident result }
{
    form_over::<M, Brand>(ground, key, Blank::new(1))
}

/// `field_at`, without a counter of memory accesses.
pub fn read_field<M: Memory>(
    ground: &mut Ground<M>,
    key: u64,
    index: u32,
) -> Result<Seen, SwapFault>
    requires object { HasObject (view ground.old) key }
    requires in_range { index < parts_in (view ground.old) key }
    ensures value { IfOk result (λ seen. seen ≡ field_in (view ground.old) key index) }
    ensures unchanged { StoresNothing (view ground.old).mem.store (view ground.new).mem.store }
    ensures table { ground.new.table ≡ ground.old.table }
    ensures cause { TellsFaults (view ground.old).mem.faults (view ground.new).mem.faults result }
    ensures room { LeavesRoom (view ground.old).mem.resident (view ground.new).mem.resident result }
{
    field_over::<M, Brand>(ground, key, index, Blank::new(1))
}

/// `cons_at`, without a counter of memory accesses.
pub fn read_cons<M: Memory>(ground: &mut Ground<M>, key: u64) -> Result<SeenCons, SwapFault>
    requires object { HasObject (view ground.old) key }
    requires pair { is_cons_in (view ground.old) key ≡ true }
    ensures value { IfOk result (λ cons. cons ≡ cons_in (view ground.old) key) }
    ensures unchanged { StoresNothing (view ground.old).mem.store (view ground.new).mem.store }
    ensures table { ground.new.table ≡ ground.old.table }
    ensures cause { TellsFaults (view ground.old).mem.faults (view ground.new).mem.faults result }
    ensures room { LeavesRoom (view ground.old).mem.resident (view ground.new).mem.resident result }
{
    cons_over::<M, Brand>(ground, key, Blank::new(1))
}
