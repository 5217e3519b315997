//! A heap over a memory: its regions and its registers.
ghost use Rattle.std.specs.Prelude.{◌≡◌, ◌<◌, ◌*◌, length, replicate, IfOk, IfErr};
ghost use Rattle.store_word.specs.declared.word.Content.TheVariants.{Nil as NilWord};
ghost use Rattle.mem_port.specs.Store.{IsFresh};
ghost use Rattle.area_space.specs.Fresh.{fresh, kinds_in};
ghost use Rattle.word_graph.specs.lisp_meaning.State.{State, new_level};
ghost use Rattle.word_graph.specs.lisp_meaning.Charges.{account_now};
ghost use Rattle.word_graph.specs.lisp_meaning.Opening.{opening};
ghost use Rattle.lisp_heap.specs.Form.{IsForm, world_with};
ghost use Rattle.lisp_heap.specs.Stands.{Stands};
ghost use Rattle.heap_commands.specs.cdr_lists.Words.{plain};
ghost use Rattle.scavenger.specs.Scan.{nothing_left};
ghost use Rattle.heap_state.specs.Laws.{PerformsIsStep};
ghost use Rattle.heap_state.specs.Reads.{reply_of};

mod allocating;
mod blocks;
mod collecting;
mod conses;
mod dumping;
mod growing;
mod loading;
mod looking;
mod paging;
mod registers;
mod walk;

use area_space::{Ground, RegionTable};
use heap_state::commands_are_steps;
use lisp_graph::{AreaKind, Areas, Reply};
use mem_port::Memory;
use scavenger::ScanSet;
use std::alloc::Global;
use std::marker::Model;
use store_word::{NoMemory, REGION_PAGES, Refused, Space, SwapFault, Word};

/// A heap over a memory. Of its commands only `dump` takes memory from the allocator.
#[derive(Drop)]
pub struct Heap<M: Memory> {
    ground: Ground<M>,
    scan: ScanSet,
    registers: Vec<Word>,
    space: Space,
}

impl<M: Memory> Model for Heap<M> {
    ghost use Rattle.lisp_heap.specs.HeapView.{HeapView, contents_of, counted};
    ghost use Rattle.lisp_heap.specs.Stands.{IsSound};

    ghost Value = { HeapView };

    ghost view = { λ h. contents_of (M.seen h.ground.mem) h.ground.table h.scan h.registers.items h.space (M.faults h.ground.mem) (M.resident h.ground.mem) (counted M.Memory h.ground.mem) };

    ghost invariant = { λ h. IsSound (contents_of (M.seen h.ground.mem) h.ground.table h.scan h.registers.items h.space (M.faults h.ground.mem) (M.resident h.ground.mem) (counted M.Memory h.ground.mem)) };
}

// What a heap has besides its memory.
#[derive(Drop)]
struct HeapParts {
    table: RegionTable,
    scan: ScanSet,
    registers: Vec<Word>,
}

impl<M: Memory> Heap<M> {
    /// Opens a heap over a new memory of the space's size. It is refused if the allocator has no memory,
    /// and then `mem` is returned unchanged.
    pub fn open(alloc: Global, space: &Space, areas: &Areas, mem: M) -> Result<Heap<M>, Refused<M>>
        requires sound { IsForm space.now areas.now }
        requires fresh { IsFresh (M.seen mem) space.now.regions space.now.levels }
        ensures stands { IfOk result (λ heap. Stands heap (opening (world_with space.now areas.now))) }
        ensures registers { IfOk result (λ heap. length heap.registers ≡ space.now.registers) }
        ensures value { IfOk result (λ heap. heap.table.kinds ≡ kinds_in areas.now) }
        ensures space { IfOk result (λ heap. heap.space ≡ space.now) }
        ensures no_fault { IfOk result (λ heap. heap.faults ≡ M.faults mem) }
        ensures err { IfErr result (λ refused. refused.back ≡ mem) }
    {
        let parts = match make_parts(alloc, space, areas) {
            Ok(parts) => parts,
            Err(_) => return Err(Refused { back: mem }),
        };
        let table = parts.table;
        Ok(Heap {
            ground: Ground { mem, table },
            scan: parts.scan,
            registers: parts.registers,
            space: *space,
        })
    }

    /// The words charged to an area: the charges of its held objects, and its husks.
    pub fn account(&self, area: u8) -> u32
        requires { area < length self.now.table.kinds }
        ensures { (s : State) → Stands self.now s → result ≡ account_now s area }
    {
        self.ground.table.account(area)
    }

    /// The number of registers.
    pub fn registers(&self) -> u32
        ensures { result ≡ length self.now.registers }
    {
        self.registers.len() as u32
    }
}

// The table, the scan set and the registers of a heap that is opened.
fn make_parts(alloc: Global, space: &Space, areas: &Areas) -> Result<HeapParts, NoMemory>
    requires { IsForm space.now areas.now }
    ensures table { IfOk result (λ parts. parts.table ≡ fresh space.now.regions space.now.levels areas.now) }
    ensures idle { IfOk result (λ parts. parts.scan ≡ nothing_left space.now.registers (REGION_PAGES * space.now.regions)) }
    ensures registers { IfOk result (λ parts. parts.registers.items ≡ replicate space.now.registers (plain NilWord)) }
{
    let table = RegionTable::new(alloc, space, areas)?;
    let scan = ScanSet::new(alloc, space)?;
    let registers = vec![in alloc; Word::nil(); space.registers as usize]?;
    Ok(HeapParts {
        table,
        scan,
        registers,
    })
}

// The reply to a command: what it returned, or that a page call failed.
fn reply_of(answer: Result<Reply, SwapFault>) -> Reply
    ensures { result ≡ reply_of answer }
{
    match answer {
        Ok(reply) => reply,
        Err(_) => Reply::Fault,
    }
}

// Ends a command that was performed, and makes nothing: what it performed is a transition.
fn finish_step(answer: Result<Reply, SwapFault>) -> Reply
    ensures value { result ≡ reply_of answer }
    ensures step { PerformsIsStep }
{
    commands_are_steps();
    reply_of(answer)
}

// The level of an object that a command makes in an area of this kind.
fn new_level(kind: AreaKind) -> u8
    ensures { result ≡ new_level kind }
{
    match kind {
        AreaKind::Ephemeral => 1,
        _ => 0,
    }
}
