//! Calls that are planned to fail.
ghost use Rattle.std.specs.Prelude.{◌≡◌, ◌≤◌, ◌↔◌, true, false, IsTrue};
ghost use Rattle.outer_ports.specs.Plans.{FailsNext, Plan, after_call, plan_of};

use std::marker::Model;

/// The numbers of the calls that fail, counted from 1, how many calls there were, how many failed, and whether the latest did.
#[derive(Drop)]
pub(crate) struct FaultPlan {
    fails: Vec<u64>,
    calls: u64,
    faults: u64,
    failed: bool,
}

impl Model for FaultPlan {
    ghost use Rattle.outer_ports.specs.Plans.{Plan};

    ghost Value = { Plan };

    ghost view = { λ p. record { fails = p.fails.items; calls = p.calls; faults = p.faults; failed = p.failed } };
}

impl FaultPlan {
    /// The plan before the first call.
    pub(crate) fn new(fails: Vec<u64>) -> FaultPlan
        ensures { result ≡ plan_of fails.items }
    {
        FaultPlan {
            fails,
            calls: 0,
            faults: 0,
            failed: false,
        }
    }

    /// Whether the next call is planned to fail.
    pub(crate) fn fails_next(&self) -> bool
        ensures { IsTrue result ↔ FailsNext self.now }
    {
        let fails = self.fails.as_slice();
        match self.calls.checked_add(1) {
            Some(call) => fails.contains(&call),
            None => false,
        }
    }

    /// Counts a call that didn't fail.
    pub(crate) fn pass(&mut self)
        ensures { self.new ≡ after_call self.old false }
    {
        self.calls = self.calls.saturating_add(1);
        self.failed = false;
    }

    /// Counts a call that failed.
    pub(crate) fn fail(&mut self)
        ensures after { self.new ≡ after_call self.old true }
        ensures never_falls { self.old.faults ≤ self.new.faults }
    {
        self.calls = self.calls.saturating_add(1);
        self.faults = self.faults.saturating_add(1);
        self.failed = true;
    }
}
