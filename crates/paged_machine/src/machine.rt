//! The machine: a swap, a memory over it, or a heap over that.
ghost use Rattle.std.specs.Prelude.{◌≡◌, ◌↔◌, ◌≤◌, ◌<◌, true, false, [], option_map, is_some, Some, None, IsTrue, IfOk, IfErr, OnOk};
ghost use Rattle.lisp_heap.specs.lisp_meaning.Opening.{opening};
ghost use Rattle.lisp_heap.specs.heap_load.Faults.{is_fault};
ghost use Rattle.lisp_heap.specs.area_space.Fresh.{kinds_in};
ghost use Rattle.lisp_heap.specs.HeapView.{SameWorld};
ghost use Rattle.lisp_heap.specs.Form.{world_with};
ghost use Rattle.lisp_heap.specs.Stands.{Stands};
ghost use Rattle.world_text.specs.Limits.{IsAccepted};
ghost use Rattle.paged_machine.specs.Holding.{StandsFor, Takes, held_as};

use crate::commands::run_request;
use crate::engine::Engine;
use lisp_graph::{Reply, Request, Text, World};
use lisp_heap::{Heap, LoadFault, accepted_worlds_fit};
use mem_port::Memory;
use outer_ports::Swap;
use paged_memory::PagedMemory;
use std::alloc::Global;
use std::marker::{Brand, Model};
use std::mem;
use std::sync::ledger::{Blank, Ledger};
use store_word::Steps;
use world_text::DumpFault;

// What a machine holds.
#[derive(Drop)]
enum MachineStage<D: Swap> {
    Swap(D),
    Memory(PagedMemory<D>),
    // Of a world that wasn't loaded, with some of its objects.
    Part(Heap<PagedMemory<D>>),
    Heap(Heap<PagedMemory<D>>),
}

/// A machine. It is idle while it holds its swap alone; once a world was opened, it holds a heap over a paged memory over the swap.
/// If a world could not be opened, it holds the swap, the memory, or a heap with some of the world's objects.
#[derive(Drop)]
pub struct Machine<D: Swap> {
    stage: Option<MachineStage<D>>,
}

impl<D: Swap> Model for Machine<D> {
    ghost use Rattle.std.specs.Prelude.{IsSome};
    ghost use Rattle.paged_machine.specs.Holding.{Holding, holding};

    ghost Value = { Holding };

    ghost view = { λ m. holding D.faults m.stage };

    ghost invariant = { λ m. IsSome m.stage };
}

impl<D: Swap> Machine<D> {
    /// A machine that holds the swap alone.
    pub fn idle(swap: D) -> Machine<D>
        ensures idle { result.idle ≡ true }
        ensures empty { result.heap ≡ None }
        ensures no_fault { result.faults ≡ D.faults swap }
    {
        Machine {
            stage: Some(MachineStage::Swap(swap)),
        }
    }

    /// Whether it holds the swap alone.
    pub fn is_idle(&self) -> bool
        ensures { IsTrue result ↔ (self.now.idle ≡ true) }
    {
        matches!(self.stage, Some(MachineStage::Swap(_)))
    }

    /// Its heap, once a world was loaded.
    pub fn heap(&self) -> Option<&Heap<PagedMemory<D>>>
        ensures { option_map (λ heap. heap.now) result ≡ self.now.heap }
    {
        match &self.stage {
            Some(MachineStage::Heap(heap)) => Some(heap),
            _ => None,
        }
    }
}

// Puts what is held into its empty place.
fn put<D: Swap>(place: &mut Option<MachineStage<D>>, stage: MachineStage<D>)
    requires { place.old ≡ None }
    ensures { place.new ≡ Some stage }
{
    match mem::replace(place, Some(stage)) {
        None => {}
        // The place is empty, as the contract requires.
        Some(_) => unreachable!(),
    }
}

// A heap for a world's space and areas, over a memory over the swap. If it is refused, what exists by then is returned: the swap, or the memory.
fn open_heap<D: Swap>(
    alloc: Global,
    world: &World,
    swap: D,
) -> Result<Heap<PagedMemory<D>>, MachineStage<D>>
    requires { IsAccepted world.now }
    ensures stands { IfOk result (λ heap. Stands heap (opening (world_with world.now.space world.now.areas))) }
    ensures value { IfOk result (λ heap. heap.table.kinds ≡ kinds_in world.now.areas) }
    ensures no_fault { IfOk result (λ heap. heap.faults ≡ D.faults swap) }
    ensures err { IfErr result (λ stage. (held_as D.faults stage).faults ≡ D.faults swap) }
    ensures empty { IfErr result (λ stage. (held_as D.faults stage).heap ≡ None) }
{
    let memory = match PagedMemory::open(alloc, &world.space, swap) {
        Ok(memory) => memory,
        Err(refused) => return Err(MachineStage::Swap(refused.back)),
    };
    match Heap::open(alloc, &world.space, &world.areas, memory) {
        Ok(heap) => Ok(heap),
        Err(refused) => Err(MachineStage::Memory(refused.back)),
    }
}

// Loads a world into a heap that was opened for its space and areas.
fn load_world<M: Memory, L: Ledger>(
    alloc: Global,
    heap: &mut Heap<M>,
    world: &World,
    blank: Blank,
) -> Result<(), LoadFault>
    requires name { blank.name ≡ L.name }
    requires parts { blank.parts ≡ L.parts }
    requires at_least { blank.parts ≡ 1 }
    requires empty { Stands heap.old (opening (world_with world.now.space world.now.areas)) }
    requires accepted { IsAccepted world.now }
    ensures stands { OnOk result (Stands heap.new (opening world.now)) }
    ensures unchanged { SameWorld heap.old heap.new }
    ensures never_falls { heap.old.faults ≤ heap.new.faults }
    ensures swap { is_fault result ≡ true → heap.old.faults < heap.new.faults }
    ensures no_fault { is_fault result ≡ false → heap.new.faults ≡ heap.old.faults }
    ensures succeeds { world.now.objects ≡ [] → is_fault result ≡ false }
{
    accepted_worlds_fit();
    let mut steps = Steps::<L>::new(blank);
    heap.load(alloc, world, &mut steps)
}

impl<D: Swap> Engine for Machine<D> {
    ghost stands = { λ m. StandsFor m.heap };

    ghost takes = { λ m. Takes m.heap };

    ghost is_idle = { λ m. m.idle ≡ true };

    ghost loaded = { λ m. is_some m.heap };

    ghost faults = { λ m. m.faults };

    fn open(&mut self, alloc: Global, world: &World) -> Result<(), LoadFault> {
        match self.stage.take() {
            Some(MachineStage::Swap(swap)) => match open_heap(alloc, world, swap) {
                Ok(mut heap) => match load_world::<PagedMemory<D>, Brand>(
                    alloc,
                    &mut heap,
                    world,
                    Blank::new(1),
                ) {
                    Ok(()) => {
                        put(&mut self.stage, MachineStage::Heap(heap));
                        Ok(())
                    }
                    Err(fault) => {
                        put(&mut self.stage, MachineStage::Part(heap));
                        Err(fault)
                    }
                },
                Err(stage) => {
                    put(&mut self.stage, stage);
                    Err(LoadFault::NoMemory)
                }
            },
            // A machine can be opened only while it is idle, and then it holds its swap alone.
            _ => unreachable!(),
        }
    }

    #[inline(always)]
    fn answer(&mut self, command: &Request) -> Reply {
        match &mut self.stage {
            Some(MachineStage::Heap(heap)) => run_request::<PagedMemory<D>, Brand>(
                heap,
                command,
                Blank::new(1),
            ),
            // Only a machine with a heap takes commands.
            _ => unreachable!(),
        }
    }

    fn account(&self, area: u8) -> u32 {
        match &self.stage {
            Some(MachineStage::Heap(heap)) => heap.account(area),
            // Only a machine with a heap represents a state.
            _ => unreachable!(),
        }
    }

    fn dump(&mut self, alloc: Global, world: &World) -> Result<Text, DumpFault> {
        match self.stage.take() {
            Some(MachineStage::Heap(heap)) => {
                let (heap, dump) = heap.dump(alloc, &world.areas);
                put(&mut self.stage, MachineStage::Heap(heap));
                dump
            }
            // Only a machine with a heap takes commands.
            _ => unreachable!(),
        }
    }

    #[inline(always)]
    fn idle_has_no_world(&self) {
        let _stage = &self.stage;
    }
}
