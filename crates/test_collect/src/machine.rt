//! The machine.
ghost use Rattle.std.specs.Prelude.{◌≡◌, replicate, IfOk};
ghost use Rattle.store_word.specs.declared.word.Content.TheVariants.{Nil as NilWord};
ghost use Rattle.lisp_graph.specs.World.{AreAreas, IsSpace};
ghost use Rattle.mem_port.specs.Store.{IsFresh, MarksHold};
ghost use Rattle.area_space.specs.Fresh.{RoomRuleFor};
ghost use Rattle.heap_state.specs.lisp_meaning.State.{new_level};
ghost use Rattle.heap_commands.specs.cdr_lists.Words.{plain};
ghost use Rattle.heap_state.specs.Laws.{AllocationIsStep, PerformsIsStep, StepsRepresent};

use crate::acting::{act, grow};
use crate::call::Call;
use crate::making::{New, make};
use area_space::{Ground, RegionTable};
use heap_collect::{flip, reclaim, scavenge};
use heap_state::commands_are_steps;
use lisp_graph::{AreaKind, Areas, CommandHead, Condemn, Reply};
use mem_port::Memory;
use scavenger::ScanSet;
use std::alloc::Global;
use std::marker::Model;
use std::sync::ledger::Ledger;
use store_word::{NoMemory, Space, Steps, SwapFault, Word};

/// A ground with its areas, the scan set of its collections, and the registers. An allocation scans nothing: each unit is scanned by
/// a call of its own.
#[derive(Drop)]
pub struct Machine<M: Memory> {
    ground: Ground<M>,
    scan: ScanSet,
    registers: Vec<Word>,
    areas: Areas,
}

impl<M: Memory> Model for Machine<M> {
    ghost use Rattle.lisp_graph.specs.declared.world.AreaRule.{AreaRule};
    ghost use Rattle.std.specs.Prelude.{List};
    ghost use Rattle.test_collect.specs.Machines.{IsMachine};

    ghost Value = { List AreaRule };

    ghost view = { λ h. h.areas };

    ghost invariant = { λ h. IsMachine (M.seen h.ground.mem) h.ground.table h.scan h.registers.items h.areas };
}

impl<M: Memory + Drop> Machine<M> {
    /// A machine without objects, whose registers are nil, over a new memory of the space's size.
    pub fn new(alloc: Global, space: &Space, areas: Areas, mem: M) -> Result<Machine<M>, NoMemory>
        requires sizes { IsSpace space.now }
        requires size { space.now.registers ≡ 8 }
        requires rate { space.now.rate ≡ 0 }
        requires rules { AreAreas areas }
        requires room { RoomRuleFor space.now.regions space.now.levels areas }
        requires fresh { IsFresh (M.seen mem) space.now.regions space.now.levels }
    {
        let table = RegionTable::new(alloc, space, &areas)?;
        let scan = ScanSet::new(alloc, space)?;
        let registers = nils(alloc)?;
        let _regions = table.regions();
        Ok(Machine {
            ground: Ground { mem, table },
            scan,
            registers,
            areas,
        })
    }
}

impl<M: Memory> Machine<M> {
    /// Does a call, and returns its reply; None if it is refused: a register, an area or a size doesn't exist, or the quota doesn't allow
    /// the words. After a swap error the call may be repeated.
    pub fn call<L: Ledger>(&mut self, call: Call, steps: &mut Steps<L>) -> Option<Reply> {
        if let Some(what) = call.condemned() {
            return Some(self.flip(what));
        }
        match call {
            Call::Do(CommandHead::Cons { to, area, car, cdr }) => self.make(
                to,
                area,
                New::Pair { car, cdr },
                steps,
            ),
            Call::List {
                to,
                area,
                item,
                count,
            } => self.make(to, area, New::List { item, count }, steps),
            Call::Do(
                CommandHead::Make {
                    to,
                    area,
                    code,
                    length,
                },
            ) => self.make(
                to,
                area,
                New::Block {
                    code,
                    fields: length,
                },
                steps,
            ),
            Call::Do(CommandHead::Scavenge { count }) => Some(self.scan(count, steps)),
            Call::Do(CommandHead::Reclaim) => Some(self.reclaim()),
            Call::Do(CommandHead::PageOut { count }) => Some(self.evict(count)),
            Call::Do(CommandHead::Grow { target, length }) => self.grow(target, length, steps),
            Call::Do(command) => self.act(command, steps),
            Call::FlipLevels { .. } => None,
        }
    }

    // Makes an object in an area, at the level of its new objects.
    fn make<L: Ledger>(
        &mut self,
        to: u8,
        area: u8,
        what: New,
        steps: &mut Steps<L>,
    ) -> Option<Reply> {
        let rules = self.areas.as_slice();
        if area as usize >= rules.len() {
            return None;
        }
        let level = new_level(rules[area as usize].kind);
        let reply = make(
            &mut self.ground,
            &mut self.registers,
            to,
            area,
            level,
            what,
            steps,
        );
        command_laws(&self.ground.mem);
        reply
    }

    // Does a command that makes nothing, grows nothing and doesn't collect.
    fn act<L: Ledger>(&mut self, command: CommandHead, steps: &mut Steps<L>) -> Option<Reply> {
        let reply = act(&mut self.ground, &mut self.registers, command, steps);
        command_laws(&self.ground.mem);
        reply
    }

    // Grows the block in a register.
    fn grow<L: Ledger>(&mut self, target: u8, fields: u16, steps: &mut Steps<L>) -> Option<Reply> {
        if target >= 8 || fields > 2047 {
            return None;
        }
        let reply = grow(&mut self.ground, &mut self.registers, target, fields, steps);
        command_laws(&self.ground.mem);
        reply
    }

    // Begins a collection, unless one runs.
    fn flip(&mut self, what: Condemn) -> Reply {
        flip(&mut self.ground, &mut self.scan, what)
    }

    // Scans this many units.
    fn scan<L: Ledger>(&mut self, count: u32, steps: &mut Steps<L>) -> Reply {
        let reply = scavenge(
            &mut self.ground,
            &mut self.scan,
            &mut self.registers,
            count,
            steps,
        );
        command_laws(&self.ground.mem);
        reply
    }

    // Ends a collection, if its scan has finished.
    fn reclaim(&mut self) -> Reply {
        let reply = reclaim(&mut self.ground, &self.scan);
        command_laws(&self.ground.mem);
        reply
    }

    // Evicts this many pages.
    fn evict(&mut self, count: u32) -> Reply {
        let evicted = self.ground.mem.evict_oldest(count);
        command_laws(&self.ground.mem);
        match evicted {
            Ok(_) => Reply::Fine,
            Err(_) => Reply::Fault,
        }
    }

    /// The word at an address; NULL if it is in no region.
    pub fn read<L: Ledger>(&mut self, at: u32, steps: &mut Steps<L>) -> Result<Word, SwapFault> {
        if at / 256 >= self.ground.mem.pages() {
            return Ok(Word::null());
        }
        let read = self.ground.mem.read(at, steps);
        command_laws(&self.ground.mem);
        read
    }

    /// The words of the registers.
    pub fn registers(&self) -> &[Word] {
        &self.registers
    }

    /// The table of regions, which only the calls above change.
    pub fn table(&self) -> &RegionTable {
        &self.ground.table
    }

    /// How many units remain to be scanned.
    pub fn units_left(&self) -> u64 {
        if self.ground.table.condemned().is_none() {
            return 0;
        }
        self.scan.units_left(&self.ground, &self.registers)
    }

    /// The lowest page with a word that remains to be scanned.
    pub fn lowest_page(&self) -> Option<u32> {
        if self.ground.table.condemned().is_none() {
            return None;
        }
        self.scan.lowest_page(&self.ground)
    }
}

// Eight registers that are nil.
fn nils(alloc: Global) -> Result<Vec<Word>, NoMemory>
    ensures { IfOk result (λ registers. registers.items ≡ replicate 8 (plain NilWord)) }
{
    Ok(vec![in alloc; Word::nil(); 8]?)
}

// At the end of a call it is known that its memory obeys the law of marks, and that what it performed is a
// transition, after which the machine represents a state.
fn command_laws<M: Memory>(mem: &M)
    ensures marks { MarksHold (M.seen mem.now) }
    ensures performs { PerformsIsStep }
    ensures err { AllocationIsStep }
    ensures represented { StepsRepresent }
{
    let _pages = mem.pages();
    commands_are_steps();
}

// The level of an object that a call makes in an area of this kind.
fn new_level(kind: AreaKind) -> u8
    ensures { result ≡ new_level kind }
{
    match kind {
        AreaKind::Ephemeral => 1,
        _ => 0,
    }
}
