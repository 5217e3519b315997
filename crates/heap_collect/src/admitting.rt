//! The quota and the scan before an allocation.
ghost use Rattle.std.specs.Prelude.{◌≡◌, ◌≢◌, ◌*◌, ◌<◌, IfErr, None, OnOk};
ghost use Rattle.mem_port.specs.View.{AccountsForFaultsIf};
ghost use Rattle.area_space.specs.Table.{areas_of};
ghost use Rattle.area_space.specs.View.{view};
ghost use Rattle.heap_state.specs.Reads.{met_fault};
ghost use Rattle.heap_collect.specs.Admitting.{HasLeft, StepsByReply, refusal};
ghost use Rattle.heap_collect.specs.Amounts.{ScansOn, ScansUnits};
ghost use Rattle.heap_collect.specs.MachineView.{machine};
ghost use Rattle.heap_collect.specs.Views.{RepresentsMachineState};

use crate::scanning::scan_ahead;
use area_space::Ground;
use lisp_graph::Reply;
use mem_port::Memory;
use scavenger::ScanSet;
use std::sync::ledger::Ledger;
use store_word::{Steps, Word};

/// The words that an object is charged, and the area whose quota they have to fit.
#[derive(Clone, Copy, Debug)]
pub struct Allocation {
    /// The place of the area in the world's list.
    pub area: u8,

    /// The number of words.
    pub charge: u32,
}

/// Requests an allocation. If the quota allows less, it is refused as
/// `Exhausted`, and nothing has changed. Otherwise, if a collection runs, `rate` units are scanned for
/// each word of its charge, or all that remain; a swap error in that scan is returned.
///
/// If it is admitted, it takes at most 48 memory accesses for each unit scanned and 4 for each word placed,
/// and places at most 2,048 words for each unit. If no collection runs, it takes none.
#[inline(always)]
pub fn admit<M: Memory, L: Ledger>(
    ground: &mut Ground<M>,
    scan: &mut ScanSet,
    registers: &mut [Word],
    allocation: Allocation,
    rate: u32,
    steps: &mut Steps<L>,
) -> Result<(), Reply>
    requires represented { RepresentsMachineState (view ground.old) scan.old registers.old }
    requires area { allocation.area < areas_of ground.old.table }

    // what is admitted, and what is refused
    ensures ok { OnOk result (ScansUnits (machine ground.old scan.old registers.old) (machine ground.new scan.new registers.new) (rate * allocation.charge) steps.old steps.new) }
    ensures left { OnOk result (HasLeft ground.new.table allocation.area allocation.charge) }
    ensures refused { IfErr result (StepsByReply (machine ground.old scan.old registers.old) (machine ground.new scan.new registers.new) allocation.area allocation.charge) }
    ensures err { IfErr result (λ reply. reply ≢ Reply.Fault
        → (reply ≡ refusal ground.old.table allocation.area allocation.charge) × (ground.new ≡ ground.old) × (scan.new ≡ scan.old) × (registers.new ≡ registers.old) × (steps.new ≡ steps.old)) }

    // what the call leaves, with any result
    ensures goes_on { ScansOn (machine ground.old scan.old registers.old) (machine ground.new scan.new registers.new) }
    ensures idle { ground.old.table.aim ≡ None → (ground.new ≡ ground.old) × (scan.new ≡ scan.old) × (registers.new ≡ registers.old) × (steps.new ≡ steps.old) }
    ensures accounted { AccountsForFaultsIf (view ground.old).mem (view ground.new).mem steps.old steps.new (met_fault result) }
{
    let Allocation { area, charge } = allocation;
    let charged = ground.table.account(area);
    let quota = ground.table.quota(area);
    if quota - charged < charge {
        return Err(Reply::Exhausted {
            area,
            charged,
            wanted: charge,
            quota,
        });
    }
    match scan_ahead(
        ground,
        scan,
        registers,
        u64::from(rate) * u64::from(charge),
        steps,
    ) {
        Ok(()) => Ok(()),
        Err(_) => Err(Reply::Fault),
    }
}
