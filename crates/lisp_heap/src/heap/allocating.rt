//! How a command begins that makes a new object.
ghost use Rattle.std.specs.Prelude.{◌<◌, length, IfErr, IfOk, OnOk};
ghost use Rattle.area_space.specs.Table.{areas_of, levels_of};
ghost use Rattle.area_space.specs.View.{view};
ghost use Rattle.heap_collect.specs.Laws.{AdmittedIsStep};
ghost use Rattle.heap_state.specs.Views.{RepresentsState};
ghost use Rattle.lisp_heap.specs.Admits.{Admits, Refuses};
ghost use Rattle.lisp_heap.specs.HeapView.{contents_at};
ghost use Rattle.lisp_heap.specs.Stands.{IsSound};

use crate::heap::new_level;
use area_space::Ground;
use heap_collect::{Allocation, admit, allocations_are_steps, take_silent_steps};
use lisp_graph::Reply;
use mem_port::Memory;
use scavenger::ScanSet;
use std::sync::ledger::Ledger;
use store_word::{Space, Steps, Word};

// Takes the silent steps, tests the quota of the area and scans: the level of the new object, or a refusal.
#[inline(always)]
pub(super) fn admit_allocation<M: Memory, L: Ledger>(
    ground: &mut Ground<M>,
    scan: &mut ScanSet,
    registers: &mut [Word],
    space: &Space,
    allocation: Allocation,
    steps: &mut Steps<L>,
) -> Result<u8, Reply>
    requires sound { IsSound (contents_at ground.old scan.old registers.old space.now) }
    requires area { allocation.area < length ground.old.table.kinds }

    // what is admitted, and what is refused
    ensures ok { IfOk result (λ level. Admits (view ground.old) (view ground.new) scan.old scan.new registers.old registers.new space.now (M.resident ground.old.mem) allocation.area allocation.charge steps.old steps.new level) }
    ensures err { IfErr result (λ reply. Refuses (contents_at ground.old scan.old registers.old space.now) (contents_at ground.new scan.new registers.new space.now) allocation.area allocation.charge steps.old steps.new reply) }

    // where the new object may be placed, and that to make it is a transition
    ensures consistent { OnOk result (RepresentsState (view ground.new) registers.new) }
    ensures areas { OnOk result (allocation.area < areas_of ground.new.table) }
    ensures level { IfOk result (λ level. level < levels_of ground.new.table) }
    ensures step { AdmittedIsStep }
{
    let level = new_level(ground.table.kinds()[allocation.area as usize]);
    take_silent_steps(ground, scan, space);
    allocations_are_steps();
    match admit(ground, scan, registers, allocation, space.rate, steps) {
        Ok(()) => Ok(level),
        Err(reply) => Err(reply),
    }
}
