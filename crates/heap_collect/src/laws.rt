//! Laws of allocations.
ghost use Rattle.heap_collect.specs.Laws.{AdmittedIsStep, AdmittedCommandIsStep, PreparedGoes, StandsAfterLook, UnaskedIsStep};

use heap_state::commands_are_steps;
use scavenger::scans_go_on;

/// An allocation that was admitted and performed is a transition, and together with the silent steps before
/// it what the definition does.
pub fn allocations_are_steps()
    ensures admitted { AdmittedIsStep }
    ensures step { PreparedGoes }
{
    commands_are_steps();
}

/// An allocation that looks at an object before it requests words is a transition, whether it finds that
/// no words are needed, or is admitted and performed. After a look a machine represents the same states.
pub fn looks_are_steps()
    ensures stands { StandsAfterLook }
    ensures idle { UnaskedIsStep }
    ensures admitted { AdmittedCommandIsStep }
{
    scans_go_on();
    commands_are_steps();
}
