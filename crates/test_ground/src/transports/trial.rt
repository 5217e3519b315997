//! The machine: two registers over a ground of one area or more.
ghost use Rattle.std.specs.Prelude.{◌+◌, ◌<◌, ◌≤◌, IfOk, OnOk};
ghost use Rattle.area_space.specs.View.{view};
ghost use Rattle.test_ground.specs.Views.{IsOpen, IsRunning};
ghost use Rattle.lisp_graph.specs.World.{AreAreas};
ghost use Rattle.mem_port.specs.Store.{IsFresh};
ghost use Rattle.area_space.specs.Fresh.{RoomRuleFor};

use crate::transports::making::{reserve, write_block, write_cells, write_pair};
use crate::transports::relaying::{is_cell, is_first_class, leave_husk, write_wider};
use area_space::{Ground, Origin, RegionTable};
use lisp_graph::{Areas, Condemn};
use mem_port::Memory;
use obj_layout::resolve;
use std::alloc::Global;
use std::sync::ledger::Ledger;
use store_word::{CdrCode, Content, NoMemory, Space, Steps, SwapFault, Word};
use transporter::settle;

/// One of the two registers of a machine.
#[derive(Clone, Copy)]
pub enum Register {
    Front,
    Middle,
}

/// A ground and two registers. Objects are made in area 0 at level 0, until a flip condemns them all.
#[derive(Drop)]
pub struct Trial<M: Memory> {
    pub ground: Ground<M>,
    pub front: Word,
    pub middle: Word,
}

impl<M: Memory + Drop> Trial<M> {
    /// A machine without objects, whose registers are nil, over a new memory of the space's size.
    pub fn new(alloc: Global, space: &Space, areas: &Areas, mem: M) -> Result<Trial<M>, NoMemory>
        requires regions { (1 ≤ space.now.regions) × (space.now.regions ≤ 1024) }
        requires levels { space.now.levels ≤ 6 }
        requires areas { AreAreas areas.now }
        requires room { RoomRuleFor space.now.regions space.now.levels areas.now }
        requires fresh { IsFresh (M.seen mem) space.now.regions space.now.levels }
        ensures { IfOk result (λ trial. IsOpen (view trial.ground) trial.front trial.middle) }
    {
        let table = RegionTable::new(alloc, space, areas)?;
        let _regions = table.regions();
        Ok(Trial {
            ground: Ground { mem, table },
            front: Word::nil(),
            middle: Word::nil(),
        })
    }

    /// The front register becomes a new pair of a number and itself, if the quota allows it.
    pub fn cons<L: Ledger>(&mut self, number: i32, steps: &mut Steps<L>) -> Result<bool, SwapFault>
        requires { IsOpen (view self.old.ground) self.old.front self.old.middle }
        ensures { OnOk result (IsOpen (view self.new.ground) self.new.front self.new.middle) }
    {
        if self.ground.table.account(0) + 2 > self.ground.table.quota(0) {
            return Ok(false);
        }
        let at = reserve(&mut self.ground, 2, 2, Origin::New);
        let car = Word::fixnum(number);
        write_pair(
            &mut self.ground.mem,
            at,
            car,
            self.front,
            CdrCode::Second,
            steps,
        )?;
        self.front = Word::list_at(at);
        Ok(true)
    }

    /// The front register becomes a new compact list of the numbers from 0 on, and the middle one its
    /// rest from a number on, if the quota allows it.
    pub fn list<L: Ledger>(
        &mut self,
        count: u16,
        index: u16,
        steps: &mut Steps<L>,
    ) -> Result<bool, SwapFault>
        requires at_most { count ≤ 1024 }
        requires in_range { index < count }
        requires open { IsOpen (view self.old.ground) self.old.front self.old.middle }
        ensures { OnOk result (IsOpen (view self.new.ground) self.new.front self.new.middle) }
    {
        let cells = count as u32;
        if self.ground.table.account(0) + 3 * cells > self.ground.table.quota(0) {
            return Ok(false);
        }
        let at = reserve(&mut self.ground, cells, 3 * cells, Origin::New);
        write_cells(&mut self.ground.mem, at, count, steps)?;
        self.front = Word::list_at(at);
        self.middle = Word::list_at(at + index as u32);
        Ok(true)
    }

    /// The front register becomes a new block of this many fields, if the quota allows it.
    pub fn block<L: Ledger>(&mut self, fields: u16, steps: &mut Steps<L>) -> Result<bool, SwapFault>
        requires at_most { fields ≤ 2047 }
        requires open { IsOpen (view self.old.ground) self.old.front self.old.middle }
        ensures { OnOk result (IsOpen (view self.new.ground) self.new.front self.new.middle) }
    {
        let words = fields as u32 + 1;
        if self.ground.table.account(0) + words > self.ground.table.quota(0) {
            return Ok(false);
        }
        let at = reserve(&mut self.ground, words, words, Origin::New);
        write_block(&mut self.ground.mem, at, fields, steps)?;
        self.front = Word::struct_at(at);
        Ok(true)
    }

    /// The cdr of the cell in the middle register becomes nil, if it is a cell of area 0 at level 0
    /// and the quota allows two more words: it is relocated as a pair, and leaves a HEADER-FORWARD.
    pub fn cut<L: Ledger>(&mut self, steps: &mut Steps<L>) -> Result<bool, SwapFault>
        requires { IsOpen (view self.old.ground) self.old.front self.old.middle }
        ensures { OnOk result (IsOpen (view self.new.ground) self.new.front self.new.middle) }
    {
        let Content::List(cell) = self.middle.content() else {
            return Ok(false);
        };
        let car = self.ground.mem.read(cell, steps)?;
        if !is_cell(car) || !is_first_class(&self.ground.table, cell) {
            return Ok(false);
        }
        if self.ground.table.account(0) + 2 > self.ground.table.quota(0) {
            return Ok(false);
        }
        let at = reserve(&mut self.ground, 2, 0, Origin::Reserve);
        let mem = &mut self.ground.mem;
        write_pair(mem, at, car, Word::nil(), CdrCode::Next, steps)?;
        leave_husk(mem, cell, at, 0, steps)?;
        Ok(true)
    }

    /// The block in the front register gets twice its fields and one, if it is one of area 0 at
    /// level 0 with at most 1,023 and the quota allows it: it is relocated, and leaves a HEADER-FORWARD and
    /// a husk.
    pub fn grow<L: Ledger>(&mut self, steps: &mut Steps<L>) -> Result<bool, SwapFault>
        requires { IsOpen (view self.old.ground) self.old.front self.old.middle }
        ensures { OnOk result (IsOpen (view self.new.ground) self.new.front self.new.middle) }
    {
        let Content::Struct(front) = self.front.content() else {
            return Ok(false);
        };
        let at = resolve(&mut self.ground.mem, front, steps)?;
        let header = self.ground.mem.read(at, steps)?;
        let Content::Header { code, length } = header.content() else {
            return Ok(false);
        };
        if length > 1023 || !is_first_class(&self.ground.table, at) {
            return Ok(false);
        }
        let words = 2 * length as u32 + 2;
        if self.ground.table.account(0) + words > self.ground.table.quota(0) {
            return Ok(false);
        }
        let to = reserve(&mut self.ground, words, words, Origin::New);
        let mem = &mut self.ground.mem;
        write_wider(mem, at, code, length, to, steps)?;
        leave_husk(mem, at, to, length, steps)?;
        self.ground.note_husk(at, length as u32 + 1);
        Ok(true)
    }

    /// Evicts this many resident pages.
    pub fn page_out(&mut self, count: u32) -> Result<u32, SwapFault>
        requires { IsOpen (view self.old.ground) self.old.front self.old.middle }
        ensures { IsOpen (view self.new.ground) self.new.front self.new.middle }
    {
        self.ground.mem.evict_oldest(count)
    }

    /// Condemns everything that was made, in areas that aren't static.
    pub fn flip(&mut self)
        requires { IsOpen (view self.old.ground) self.old.front self.old.middle }
        ensures { IsRunning (view self.new.ground) self.new.front self.new.middle }
    {
        self.ground.condemn(Condemn::Full);
    }

    /// Settles a register.
    pub fn settle<L: Ledger>(
        &mut self,
        register: Register,
        steps: &mut Steps<L>,
    ) -> Result<(), SwapFault>
        requires { IsRunning (view self.old.ground) self.old.front self.old.middle }
        ensures { IsRunning (view self.new.ground) self.new.front self.new.middle }
    {
        match register {
            Register::Front => self.settle_front(steps),
            Register::Middle => self.settle_middle(steps),
        }
    }

    // Settles the front register.
    fn settle_front<L: Ledger>(&mut self, steps: &mut Steps<L>) -> Result<(), SwapFault>
        requires { IsRunning (view self.old.ground) self.old.front self.old.middle }
        ensures { IsRunning (view self.new.ground) self.new.front self.new.middle }
    {
        let front = settle(&mut self.ground, self.front, steps)?;
        self.front = front;
        Ok(())
    }

    // Settles the middle register.
    fn settle_middle<L: Ledger>(&mut self, steps: &mut Steps<L>) -> Result<(), SwapFault>
        requires { IsRunning (view self.old.ground) self.old.front self.old.middle }
        ensures { IsRunning (view self.new.ground) self.new.front self.new.middle }
    {
        let middle = settle(&mut self.ground, self.middle, steps)?;
        self.middle = middle;
        Ok(())
    }

    /// The word at an address, if it is in the memory.
    pub fn read<L: Ledger>(
        &mut self,
        at: u32,
        steps: &mut Steps<L>,
    ) -> Result<Option<Word>, SwapFault>
        requires { IsRunning (view self.old.ground) self.old.front self.old.middle }
        ensures { IsRunning (view self.new.ground) self.new.front self.new.middle }
    {
        if at / 256 >= self.ground.mem.pages() {
            return Ok(None);
        }
        let word = self.ground.mem.read(at, steps)?;
        Ok(Some(word))
    }
}
