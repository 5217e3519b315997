//! Scans a number of units.
ghost use Rattle.std.specs.Prelude.{◌≡◌, ◌≢◌, None, OnOk, OnErr, false, true};
ghost use Rattle.mem_port.specs.View.{AccountsForFaults, AccountsForFaultsIf};
ghost use Rattle.area_space.specs.View.{view};
ghost use Rattle.lisp_graph.specs.declared.command.Command.TheVariants.{Scavenge as ScavengeCommand};
ghost use Rattle.heap_state.specs.Reads.{is_fault};
ghost use Rattle.heap_state.specs.Views.{RepresentsAll, StepsTo};
ghost use Rattle.heap_state.specs.lisp_meaning.Roles.{RoleMap};
ghost use Rattle.heap_state.specs.lisp_meaning.State.{State};
ghost use Rattle.heap_collect.specs.Amounts.{RepresentsAhead, ScansOn, ScansUnits};
ghost use Rattle.heap_collect.specs.MachineView.{machine};
ghost use Rattle.heap_collect.specs.Views.{RepresentsMachineState};

use area_space::Ground;
use lisp_graph::Reply;
use mem_port::Memory;
use scavenger::ScanSet;
use std::sync::ledger::Ledger;
use store_word::{Steps, SwapFault, Word};

// Scans `count` units in order, or all that remain, if a collection runs; otherwise it
// does nothing.
//
// The machine represents the same state, by a later map, with this number of units scanned ahead of what
// the state has paid. Then it has taken at most 48 memory accesses for each unit scanned and 4 for each word
// placed, and has placed at most 2,048 words for each unit. After a swap error the units that were scanned
// before it are scanned, the machine still represents that state, and none counts as ahead; how many
// memory accesses were made isn't specified. Whatever it returns, the units scanned and those that remain
// are together those that remained before and the words placed.
#[inline(always)]
pub(crate) fn scan_ahead<M: Memory, L: Ledger>(
    ground: &mut Ground<M>,
    scan: &mut ScanSet,
    registers: &mut [Word],
    limit: u64,
    steps: &mut Steps<L>,
) -> Result<(), SwapFault>
    requires represented { RepresentsMachineState (view ground.old) scan.old registers.old }
    ensures ok { OnOk result (ScansUnits (machine ground.old scan.old registers.old) (machine ground.new scan.new registers.new) limit steps.old steps.new) }
    ensures fault { OnErr result (RepresentsAhead (machine ground.old scan.old registers.old) (machine ground.new scan.new registers.new) 0) }
    ensures goes_on { ScansOn (machine ground.old scan.old registers.old) (machine ground.new scan.new registers.new) }
    ensures idle { ground.old.table.aim ≡ None → (ground.new ≡ ground.old) × (scan.new ≡ scan.old) × (registers.new ≡ registers.old) × (steps.new ≡ steps.old) }
    ensures accounted { AccountsForFaults (view ground.old).mem (view ground.new).mem steps.old steps.new result }
{
    if ground.table.condemned().is_none() {
        return Ok(());
    }
    scan.scan_up_to(ground, registers, limit, steps)
}

/// `scavenge`: scans this number of units of the collection that runs, or all that remain. It replies `Done`
/// if none remains, and `More` if one does; `NotFlipped` if no collection runs; and `Fault` if
/// the swap failed. Whatever it replies, the units scanned and those that remain are together those that
/// remained before and the words placed.
///
/// If no swap error occurs, it takes at most 48 memory accesses for each unit scanned and 4 for each word placed,
/// and places at most 2,048 words for each unit.
pub fn scavenge<M: Memory, L: Ledger>(
    ground: &mut Ground<M>,
    scan: &mut ScanSet,
    registers: &mut [Word],
    count: u32,
    steps: &mut Steps<L>,
) -> Reply
    requires represented { RepresentsMachineState (view ground.old) scan.old registers.old }

    // what the machine represents
    ensures step { (k : RoleMap) (s : State) → RepresentsAll (view ground.old) scan.old registers.old k s
        → StepsTo (view ground.new) scan.new registers.new s (ScavengeCommand count) result }

    // what is scanned, and at which cost
    ensures scans { result ≢ Reply.Fault → ScansUnits (machine ground.old scan.old registers.old) (machine ground.new scan.new registers.new) count steps.old steps.new }
    ensures goes_on { ScansOn (machine ground.old scan.old registers.old) (machine ground.new scan.new registers.new) }
    ensures going { result ≡ Reply.More → scan.new.over ≡ false }
    ensures done { result ≡ Reply.Done → scan.new.over ≡ true }
    ensures accounted { AccountsForFaultsIf (view ground.old).mem (view ground.new).mem steps.old steps.new (is_fault result) }
{
    match scan_ahead(ground, scan, registers, u64::from(count), steps) {
        Ok(()) if ground.table.condemned().is_none() => Reply::NotFlipped,
        Ok(()) if scan.is_over() => Reply::Done,
        Ok(()) => Reply::More,
        Err(_) => Reply::Fault,
    }
}
