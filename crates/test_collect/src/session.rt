//! Sessions: a machine and the graph beside it, call by call.
ghost use Rattle.std.specs.Prelude.{IfOk};
ghost use Rattle.lisp_graph.specs.World.{AreAreas};
ghost use Rattle.area_space.specs.Fresh.{RoomRuleFor};
ghost use Rattle.mem_port.specs.Store.{IsFresh};

use crate::call::Call;
use crate::graph::{AREAS, Graph};
use crate::machine::Machine;
use crate::walk::{Tried, base_pages, check_graph, has_old, live_words, lowest_live};
use lisp_graph::{AreaKind, AreaRule, Areas, CommandHead, Condemn, Name, Reply};
use mem_port::Memory;
use std::alloc::Global;
use std::process::Abort;
use std::sync::ledger::Ledger;
use std::test::Fail;
use store_word::{Space, Steps};

pub(crate) const SPACE: Space = Space {
    regions: 32,
    frames: 32,
    registers: 8,
    levels: 2,
    rate: 0,
    capacity: [0; 6],
};

// How many scans of one `Scavenge` the graph is compared after.
const LOOKS: u32 = 12;

// A dynamic area, an ephemeral one and a static one.
fn areas(alloc: Global) -> Result<Areas, Fail>
    ensures are { IfOk result AreAreas }
    ensures room { IfOk result (RoomRuleFor 32 2) }
{
    let mut areas = Areas::new(alloc);
    areas.push(AreaRule {
        name: Name::read(b"work").ok_or("no name")?,
        kind: AreaKind::Dynamic,
        quota: 8192,
    })?;
    areas.push(AreaRule {
        name: Name::read(b"young").ok_or("no name")?,
        kind: AreaKind::Ephemeral,
        quota: 4096,
    })?;
    areas.push(AreaRule {
        name: Name::read(b"fixed").ok_or("no name")?,
        kind: AreaKind::Static,
        quota: 2048,
    })?;
    Ok(areas)
}

/// A machine, the graph that it has to hold, and whether they are compared after each call or only after collections.
#[derive(Drop)]
pub(crate) struct Session<M: Memory> {
    tried: Tried<M>,
    graph: Graph,
    often: bool,
    alloc: Global,
}

impl<M: Memory + Drop> Session<M> {
    pub fn new(alloc: Global, mem: M, often: bool) -> Result<Session<M>, Fail>
        requires { IsFresh (M.seen mem) 32 2 }
    {
        let areas = areas(alloc)?;
        let Ok(machine) = Machine::new(alloc, &SPACE, areas, mem) else {
            return Err("no memory".into());
        };
        Ok(Session {
            tried: Tried {
                machine,
                met: false,
            },
            graph: Graph::new(alloc),
            often,
            alloc,
        })
    }
}

impl<M: Memory> Session<M> {
    /// Whether a page call failed.
    pub fn met(&self) -> bool {
        self.tried.met
    }

    // Does a call; if it replies `fault`, repeats it once.
    fn call<L: Ledger>(&mut self, call: Call, steps: &mut Steps<L>) -> Result<Option<Reply>, Fail> {
        match self.tried.machine.call(call, steps) {
            Some(Reply::Fault) => {}
            reply => return Ok(reply),
        }
        self.tried.met = true;
        match self.tried.machine.call(call, steps) {
            Some(Reply::Fault) => Err("two faults".into()),
            reply => Ok(reply),
        }
    }

    /// Does one call of a session, and tests what has to be true after it. `Scavenge` scans each unit by a call of its own.
    pub fn step<L: Ledger>(
        &mut self,
        rt: &impl Abort,
        call: Call,
        steps: &mut Steps<L>,
    ) -> Result<(), Fail> {
        match call {
            Call::Do(CommandHead::Flip { .. }) | Call::FlipLevels { .. } => self.flip(
                rt, call, steps,
            )?,
            Call::Do(CommandHead::Scavenge { count }) => self.scan(rt, count, steps)?,
            Call::Do(CommandHead::Reclaim) => self.reclaim(rt, steps)?,
            Call::Do(CommandHead::PageOut { .. }) => assert!(rt;
                self.call(call, steps)? == Some(Reply::Fine)
            ),
            _ => self.act(rt, call, steps)?,
        }
        self.check_accounts(rt);
        if self.often || matches!(call, Call::Do(CommandHead::Reclaim)) {
            check_graph(rt, self.alloc, &mut self.tried, &self.graph, steps)?;
        }
        Ok(())
    }

    // Does a call that doesn't collect.
    fn act<L: Ledger>(
        &mut self,
        rt: &impl Abort,
        call: Call,
        steps: &mut Steps<L>,
    ) -> Result<(), Fail> {
        let room = self.has_room(call);
        let before = self.units();
        let words = live_words(self.tried.machine.table());
        let reply = self.call(call, steps)?;
        assert!(rt; reply == self.graph.play(call, room)?);
        let placed = live_words(self.tried.machine.table()).wrapping_sub(words);
        let more = if before > 0 { placed } else { 0 };
        assert!(rt; self.units() == before.wrapping_add(more));
        Ok(())
    }

    // Whether the quota allows what a call needs.
    fn has_room(&self, call: Call) -> bool {
        let Some((area, charge)) = self.graph.wanted(call) else {
            return true;
        };
        let (Some((_, quota)), Some(charged)) = (AREAS.get(area as usize), self.account(area))
        else {
            return false;
        };
        charge <= quota.saturating_sub(charged)
    }

    // What an area is charged.
    fn account(&self, area: u8) -> Option<u32> {
        let table = self.tried.machine.table();
        if (area as u32) < table.areas() {
            Some(table.account(area))
        } else {
            None
        }
    }

    // Each area is charged for its objects and its husks.
    fn check_accounts(&self, rt: &impl Abort) {
        for area in 0..3u8 {
            if let Some(charged) = self.graph.account(area) {
                assert!(rt; self.account(area) == Some(charged));
            }
        }
    }

    // How many units remain.
    fn units(&self) -> u64 {
        self.tried.machine.units_left()
    }

    // Begins a collection, unless one runs. Units are the registers and the words of the base pages: those that have an address in an
    // old region, and maybe more; in a full collection all used ones, of which the lowest is the lowest page that remains.
    fn flip<L: Ledger>(
        &mut self,
        rt: &impl Abort,
        call: Call,
        steps: &mut Steps<L>,
    ) -> Result<(), Fail> {
        let Some(what) = call.condemned() else {
            return Err("no flip".into());
        };
        match self.call(call, steps)? {
            Some(Reply::Flipped { pages }) => {
                self.graph.flip(what);
                let units = self.units();
                let full = what == Condemn::Full;
                if full {
                    let lowest = lowest_live(self.tried.machine.table());
                    assert!(rt; self.tried.machine.lowest_page() == lowest);
                }
                if full || self.often {
                    let (least, words) = base_pages(&mut self.tried, full, steps)?;
                    assert!(rt; least <= pages);
                    assert!(rt; units >= words.wrapping_add(8));
                    if least == pages {
                        assert!(rt; units == words.wrapping_add(8));
                    }
                }
                assert!(rt; units <= 8 + 256 * pages as u64);
            }
            reply => assert!(rt; reply == Some(Reply::Busy)),
        }
        Ok(())
    }

    // Scans this many units, or all that remain: each scan removes one, and each word that is placed adds one. The first are
    // scanned alone; if the graph is compared often, all are.
    fn scan<L: Ledger>(
        &mut self,
        rt: &impl Abort,
        count: u32,
        steps: &mut Steps<L>,
    ) -> Result<(), Fail> {
        for turn in 0..count {
            let more = if self.often || turn < LOOKS {
                self.scan_units(rt, 1, steps)?
            } else {
                self.scan_units(rt, count - turn, steps)?;
                false
            };
            if !more {
                return Ok(());
            }
            if self.often && turn < LOOKS {
                check_graph(rt, self.alloc, &mut self.tried, &self.graph, steps)?;
            }
        }
        Ok(())
    }

    // Scans this many units by one call. Returns whether more remain.
    fn scan_units<L: Ledger>(
        &mut self,
        rt: &impl Abort,
        count: u32,
        steps: &mut Steps<L>,
    ) -> Result<bool, Fail> {
        let units = self.units();
        let words = live_words(self.tried.machine.table());
        let reply = self.call(Call::Do(CommandHead::Scavenge { count }), steps)?;
        let placed = live_words(self.tried.machine.table()).wrapping_sub(words);
        let scanned = units.wrapping_add(placed).wrapping_sub(self.units());
        match reply {
            // A call that met a swap error has scanned some before it.
            Some(Reply::More) => {
                assert!(rt; scanned >= count as u64);
                assert!(rt; count > 1 || scanned == 1);
                Ok(true)
            }
            Some(Reply::Done) => {
                assert!(rt; self.units() == 0);
                assert!(rt; self.tried.machine.lowest_page().is_none());
                assert!(rt; count > 1 || scanned <= 1);
                Ok(false)
            }
            reply => {
                assert!(rt; reply == Some(Reply::NotFlipped));
                Ok(false)
            }
        }
    }

    // Ends a collection, if nothing remains to be scanned. No region is old then.
    fn reclaim<L: Ledger>(&mut self, rt: &impl Abort, steps: &mut Steps<L>) -> Result<(), Fail> {
        let units = self.units();
        match self.call(Call::Do(CommandHead::Reclaim), steps)? {
            Some(Reply::Reclaimed) => {
                assert!(rt; units == 0);
                self.graph.reclaim(self.alloc)?;
                assert!(rt; !has_old(self.tried.machine.table()));
            }
            Some(Reply::NotDone) => assert!(rt; units > 0),
            reply => assert!(rt; reply == Some(Reply::NotFlipped)),
        }
        Ok(())
    }
}
