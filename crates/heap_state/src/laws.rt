//! Laws of what is represented, the same for all commands.
ghost use Rattle.heap_state.specs.Laws.{AllocationIsStep, AtLast, RepresentedChanges, RepresentsIsStands, FaultIsStep, IsMachineInvariant, PerformsIsStep, ReachStays, StepsRepresent};

use scavenger::scans_go_on;

/// What a command performs is a transition of the definition, whether or not a collection runs.
pub fn commands_are_steps()
    ensures performs { PerformsIsStep }
    ensures made { AllocationIsStep }
    ensures fault { FaultIsStep }
    ensures last { AtLast }
    ensures preserves { ReachStays }
    ensures represented { StepsRepresent }
{
    scans_go_on();
}

/// What is represented between two commands satisfies the invariant of a machine.
pub fn what_is_represented_stands()
    ensures sound { IsMachineInvariant }
    ensures stands { RepresentsIsStands }
{}

/// How what is represented changes when registers and memory change.
pub fn what_is_represented_changes()
    ensures { RepresentedChanges }
{}
