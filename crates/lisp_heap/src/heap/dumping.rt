//! The command that writes a dump.
ghost use Rattle.std.specs.Prelude.{◌≡◌, Some, Option, None, IfOk};
ghost use Rattle.word_graph.specs.lisp_meaning.State.{State};
ghost use Rattle.word_graph.specs.lisp_meaning.Step.{world_of};
ghost use Rattle.world_text.specs.Dump.{HasSwapCause, IsDump};
ghost use Rattle.word_graph.specs.dump_laws.Written.{dumped};
ghost use Rattle.lisp_heap.specs.HeapView.{HeapView, SameWorld};
ghost use Rattle.lisp_heap.specs.Stands.{Stands};
ghost use Rattle.lisp_heap.specs.Walking.{StandsAsBefore, graph_in};

use crate::heap::Heap;
use lisp_graph::{Areas, Form, Seen, SeenCons, Text, Walk};
use mem_port::Memory;
use std::alloc::Global;
use std::marker::{Brand, Model, PhantomData};
use store_word::SwapFault;
use world_text::{DumpFault, dump_text};

// Which heap a walk began with.
trait WalkStart {
    ghost start: { Option HeapView };
}

impl WalkStart for Brand {
    ghost start = { None };
}

// A heap that a walk visits. It represents the same states as the heap with which the walk began.
#[derive(Drop)]
struct WalkedHeap<M: Memory, O: WalkStart> {
    heap: Heap<M>,
    origin: PhantomData<O>,
}

impl<M: Memory, O: WalkStart> Model for WalkedHeap<M, O> {
    ghost use Rattle.lisp_heap.specs.HeapView.{HeapView};
    ghost use Rattle.lisp_heap.specs.Walking.{StandsSince};

    ghost Value = { HeapView };

    ghost view = { λ w. w.heap };

    ghost invariant = { λ w. StandsSince O.start w.heap };
}

// Each call is the heap's own.
impl<M: Memory, O: WalkStart> Walk for WalkedHeap<M, O> {
    ghost graph = { graph_in };

    ghost faults = { λ h. h.faults };

    fn registers(&self) -> u32 {
        Walk::registers(&self.heap)
    }

    fn value_of_register(&mut self, register: u32) -> Result<Seen, SwapFault> {
        self.heap.value_of_register(register)
    }

    fn form_of(&mut self, key: u64) -> Result<Form, SwapFault> {
        self.heap.form_of(key)
    }

    fn field_of(&mut self, key: u64, index: u32) -> Result<Seen, SwapFault> {
        self.heap.field_of(key, index)
    }

    fn cons_of(&mut self, key: u64) -> Result<SeenCons, SwapFault> {
        self.heap.cons_of(key)
    }
}

impl<M: Memory> Heap<M> {
    /// `dump`: the text of the heap's dump, with these areas, and the heap again, which represents the same
    /// states. Nothing is settled. It fails if memory runs out, or if the swap fails.
    pub fn dump(self, alloc: Global, areas: &Areas) -> (Heap<M>, Result<Text, DumpFault>)
        ensures text { IfOk result.1 (λ text. (s : State) → Stands self s → s.areas ≡ areas.now → text ≡ dumped (world_of s)) }
        ensures stands { (s : State) → Stands self s → Stands result.0 s }
        ensures unchanged { SameWorld self result.0 }
        ensures read { StandsAsBefore self result.0 }
        ensures cause { HasSwapCause self.faults result.0.faults result.1 }
    {
        dump_from::<M, Brand>(self, alloc, areas)
    }
}

// The dump of a walk that begins with this heap.
fn dump_from<M: Memory, O: WalkStart>(
    heap: Heap<M>,
    alloc: Global,
    areas: &Areas,
) -> (Heap<M>, Result<Text, DumpFault>)
    requires { O.start ≡ Some heap }
    ensures value { IfOk result.1 (λ text. IsDump (graph_in heap) heap.space areas.now text) }
    ensures stands { StandsAsBefore heap result.0 }
    ensures cause { HasSwapCause heap.faults result.0.faults result.1 }
{
    let space = heap.space;
    let mut walked = WalkedHeap::<M, O> {
        heap,
        origin: PhantomData,
    };
    let dump = dump_text(alloc, &mut walked, &space, areas.as_slice());
    (walked.heap, dump)
}
