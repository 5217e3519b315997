//! A walk over what a heap holds.
ghost use Rattle.std.specs.Prelude.{◌≡◌, ◌<◌, length, slice_get, Some, true, IfOk};
ghost use Rattle.lisp_graph.specs.Cause.{HasCause};
ghost use Rattle.lisp_graph.specs.KeyedGraph.{Shows, cons_at};
ghost use Rattle.lisp_graph.specs.declared.walk.Seen.TheVariants.{Cons as a_cons};
ghost use Rattle.lisp_heap.specs.Walking.{StandsAsBefore, graph_in};

use crate::heap::Heap;
use lisp_graph::{Form, Seen, SeenCons, Walk};
use mem_port::Memory;
use store_word::SwapFault;
use word_graph::{read_cons, read_field, read_form, read_word};

/// A walk settles nothing and stores nothing, so the heap represents the same states. A key is the
/// address of an object, and remains that object's until the next command.
impl<M: Memory> Walk for Heap<M> {
    ghost graph = { graph_in };

    ghost faults = { λ h. h.faults };

    fn registers(&self) -> u32 {
        self.registers.len() as u32
    }

    fn value_of_register(&mut self, register: u32) -> Result<Seen, SwapFault>
        requires { register < length (graph_in self.old).registers }
        ensures value { IfOk result (λ seen. slice_get (graph_in self.old).registers register ≡ Some seen) }
        ensures shows { IfOk result (λ seen. Shows (graph_in self.old) seen) }
        ensures unchanged { graph_in self.new ≡ graph_in self.old }
        ensures cause { HasCause self.old.faults self.new.faults result }
        ensures stands { StandsAsBefore self.old self.new }
    {
        let word = self.registers[register as usize];
        read_word(&mut self.ground, word)
    }

    fn form_of(&mut self, key: u64) -> Result<Form, SwapFault>
        requires { (graph_in self.old).has key ≡ true }
        ensures value { IfOk result (λ form. form ≡ (graph_in self.old).form key) }
        ensures unchanged { graph_in self.new ≡ graph_in self.old }
        ensures cause { HasCause self.old.faults self.new.faults result }
        ensures stands { StandsAsBefore self.old self.new }
    {
        read_form(&mut self.ground, key)
    }

    fn field_of(&mut self, key: u64, index: u32) -> Result<Seen, SwapFault>
        requires object { (graph_in self.old).has key ≡ true }
        requires in_range { index < ((graph_in self.old).form key).length }
        ensures value { IfOk result (λ seen. seen ≡ (graph_in self.old).field key index) }
        ensures shows { IfOk result (λ seen. Shows (graph_in self.old) seen) }
        ensures unchanged { graph_in self.new ≡ graph_in self.old }
        ensures cause { HasCause self.old.faults self.new.faults result }
        ensures stands { StandsAsBefore self.old self.new }
    {
        read_field(&mut self.ground, key, index)
    }

    fn cons_of(&mut self, key: u64) -> Result<SeenCons, SwapFault>
        requires { Shows (graph_in self.old) (a_cons key) }
        ensures value { IfOk result (λ cons. cons ≡ cons_at (graph_in self.old) key) }
        ensures car { IfOk result (λ cons. Shows (graph_in self.old) cons.car) }
        ensures cdr { IfOk result (λ cons. Shows (graph_in self.old) cons.cdr) }
        ensures unchanged { graph_in self.new ≡ graph_in self.old }
        ensures cause { HasCause self.old.faults self.new.faults result }
        ensures stands { StandsAsBefore self.old self.new }
    {
        read_cons(&mut self.ground, key)
    }
}
