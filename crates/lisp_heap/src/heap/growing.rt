//! The command by which a block grows.
ghost use Rattle.std.specs.Prelude.{◌≡◌, ◌≢◌, ℕ, ◌-◌, ◌*◌, ◌<◌, ◌≤◌, get_or, length, IsTrue, None, Some};
ghost use Rattle.mem_port.specs.View.{AccountsForFaultsIf};
ghost use Rattle.area_space.specs.View.{view};
ghost use Rattle.heap_collect.specs.Views.{RepresentsMachineState};
ghost use Rattle.heap_commands.specs.Views.{MarksMade as MarksOnGround, WantsGrowth};
ghost use Rattle.heap_state.specs.Views.{RepresentsAll, StepsTo};
ghost use Rattle.area_space.specs.Table.{areas_of};
ghost use Rattle.word_graph.specs.lisp_meaning.Roles.{RoleMap};
ghost use Rattle.word_graph.specs.lisp_meaning.State.{State};
ghost use Rattle.heap_state.specs.Reads.{is_fault, reads, IsDone};
ghost use Rattle.heap_state.specs.Settled.{IsSettled};
ghost use Rattle.heap_collect.specs.Laws.{StandsAfterLook, UnaskedIsStep};
ghost use Rattle.lisp_heap.specs.Costs.{Costs, CostsLook, IsRefused, LookCosts, ScanGoesOn, Spends, wants_in};
ghost use Rattle.store_word.specs.Words.{null_word};
ghost use Rattle.lisp_heap.specs.Growth.{LooksAndWidens, ScansAndWidens};
ghost use Rattle.lisp_heap.specs.Making.{ScansBeforeGrowth};
ghost use Rattle.lisp_heap.specs.NewMarks.{MarksMade};
ghost use Rattle.heap_state.specs.transporter.LiveWordsUnchanged.{OnlyGrows};
ghost use Rattle.heap_state.specs.transporter.Views.{MarksFollow};
ghost use Rattle.lisp_heap.specs.Stands.{Runs, Stands};

use crate::heap::{Heap, reply_of};
use area_space::Ground;
use heap_collect::{Allocation, admit, looks_are_steps, take_silent_steps};
use heap_commands::{Growing, find_growing};
use lisp_graph::{Command, Reply};
use mem_port::Memory;
use scavenger::ScanSet;
use std::sync::ledger::Ledger;
use store_word::{Steps, Word};

impl<M: Memory> Heap<M> {
    /// `grow`: the block in a register gets at least `wanted` fields, at most 2,047; the new ones are
    /// nil. Silent steps precede it, as they precede `cons`. If the block has the
    /// fields, or the register holds no block, the reply is known; if no swap error occurs, that takes at most
    /// 59 memory accesses and 4 for each word copied, at most 2,048. Otherwise its charge is one word more than
    /// the fields that it gets, to its own area, and it is refused as exhausted if and only if that exceeds what
    /// the quota allows; a refusal takes no more memory accesses than a known reply. While a collection runs it
    /// scans the units that the rate requires for those words, or all that remain; if the block grew, it
    /// took at most the memory accesses of a `cons` with that charge.
    pub fn grow<L: Ledger>(&mut self, target: u8, wanted: u16, steps: &mut Steps<L>) -> Reply
        requires target { target < length self.old.registers }
        requires at_most { wanted ≤ 2047 }
        ensures runs { Runs self.old self.new steps.old steps.new (Command.Grow target wanted) result }
        ensures costs { result ≡ Reply.Fine → (s : State) → Stands self.old s → (area charge : ℕ) → wants_in s (Command.Grow target wanted) ≡ Some (record { area = area; charge = charge })
            → Costs self.old self.new steps.old steps.new charge charge 1 }
        ensures order { result ≡ Reply.Fine → (s : State) → Stands self.old s → (area charge : ℕ) → wants_in s (Command.Grow target wanted) ≡ Some (record { area = area; charge = charge })
            → ScansBeforeGrowth self.old self.new charge }
        ensures unmarked { result ≡ Reply.Fine → (s : State) → Stands self.old s → (area charge : ℕ) → wants_in s (Command.Grow target wanted) ≡ Some (record { area = area; charge = charge })
            → MarksMade (Command.Grow target wanted) self.old self.new (get_or self.new.registers target null_word) charge }
        ensures found { result ≢ Reply.Fault → (s : State) → Stands self.old s → wants_in s (Command.Grow target wanted) ≡ None → CostsLook self.old self.new steps.old steps.new }
        ensures refused { IsRefused result → CostsLook self.old self.new steps.old steps.new }
    {
        let registers = self.registers.as_mut_slice();
        take_silent_steps(&mut self.ground, &mut self.scan, &self.space);
        grow_register(
            &mut self.ground,
            &mut self.scan,
            registers,
            target,
            wanted,
            self.space.rate,
            steps,
        )
    }
}

// The same after the silent steps: finds the reply, or makes the block wider.
fn grow_register<M: Memory, L: Ledger>(
    ground: &mut Ground<M>,
    scan: &mut ScanSet,
    registers: &mut [Word],
    target: u8,
    wanted: u16,
    rate: u32,
    steps: &mut Steps<L>,
) -> Reply
    requires represented { RepresentsMachineState (view ground.old) scan.old registers.old }
    requires at_least { 0 < areas_of ground.old.table }
    requires target { target < length registers.old }
    requires at_most { wanted ≤ 2047 }
    ensures step { (k : RoleMap) (s : State) → RepresentsAll (view ground.old) scan.old registers.old k s → s.space.rate ≡ rate
        → StepsTo (view ground.new) scan.new registers.new s (Command.Grow target wanted) result }
    ensures settled { IsDone result → (i : ℕ) → IsTrue (reads (Command.Grow target wanted) i) → IsSettled ground.new.table registers.new i }
    ensures registers { length registers.new ≡ length registers.old }
    ensures table { OnlyGrows ground.old.table ground.new.table }
    ensures marks { MarksFollow (view ground.old) (view ground.new) }
    ensures costs { result ≡ Reply.Fine → (k : RoleMap) (s : State) → RepresentsAll (view ground.old) scan.old registers.old k s
        → (area charge : ℕ) → wants_in s (Command.Grow target wanted) ≡ Some (record { area = area; charge = charge })
        → Spends scan.old scan.new ground.old.table ground.new.table rate charge 99 1 steps.old steps.new }
    ensures order { result ≡ Reply.Fine → (k : RoleMap) (s : State) → RepresentsAll (view ground.old) scan.old registers.old k s
        → (area charge : ℕ) → wants_in s (Command.Grow target wanted) ≡ Some (record { area = area; charge = charge })
        → LooksAndWidens (view ground.old) (view ground.new) scan.old scan.new registers.old registers.new charge (rate * charge) }
    ensures unmarked { result ≡ Reply.Fine → (k : RoleMap) (s : State) → RepresentsAll (view ground.old) scan.old registers.old k s
        → (area charge : ℕ) → wants_in s (Command.Grow target wanted) ≡ Some (record { area = area; charge = charge })
        → MarksOnGround (view ground.old) (view ground.new) (get_or registers.new target null_word) charge }
    ensures found { result ≢ Reply.Fault → (k : RoleMap) (s : State) → RepresentsAll (view ground.old) scan.old registers.old k s
        → wants_in s (Command.Grow target wanted) ≡ None → LookCosts scan.old scan.new ground.old.table ground.new.table steps.old steps.new }
    ensures refused { IsRefused result → LookCosts scan.old scan.new ground.old.table ground.new.table steps.old steps.new }
    ensures goes_on { ScanGoesOn scan.old scan.new ground.old.table ground.new.table result }
    ensures accounted { AccountsForFaultsIf (view ground.old).mem (view ground.new).mem steps.old steps.new (is_fault result) }
{
    let found = find_growing(ground, registers, target, wanted, steps);
    looks_are_steps();
    match found {
        Growing::Answered(reply) => reply,
        Growing::Wants { area, charge } => {
            let allocation = Allocation { area, charge };
            grow_charged(
                ground, scan, registers, target, wanted, allocation, rate, steps,
            )
        }
    }
}

// The same for the block in a settled register, which has fewer fields and needs this allocation.
fn grow_charged<M: Memory, L: Ledger>(
    ground: &mut Ground<M>,
    scan: &mut ScanSet,
    registers: &mut [Word],
    target: u8,
    wanted: u16,
    allocation: Allocation,
    rate: u32,
    steps: &mut Steps<L>,
) -> Reply
    requires represented { RepresentsMachineState (view ground.old) scan.old registers.old }
    requires can { WantsGrowth (view ground.old) registers.old target wanted allocation.area allocation.charge }
    requires target { target < length registers.old }
    requires at_most { wanted ≤ 2047 }
    ensures step { (k : RoleMap) (s : State) → RepresentsAll (view ground.old) scan.old registers.old k s → s.space.rate ≡ rate
        → StepsTo (view ground.new) scan.new registers.new s (Command.Grow target wanted) result }
    ensures settled { IsDone result → (i : ℕ) → IsTrue (reads (Command.Grow target wanted) i) → IsSettled ground.new.table registers.new i }
    ensures registers { length registers.new ≡ length registers.old }
    ensures table { OnlyGrows ground.old.table ground.new.table }
    ensures marks { MarksFollow (view ground.old) (view ground.new) }
    ensures costs { result ≡ Reply.Fine → Spends scan.old scan.new ground.old.table ground.new.table rate allocation.charge 40 0 steps.old steps.new }
    ensures order { result ≡ Reply.Fine → ScansAndWidens (view ground.old) (view ground.new) scan.old scan.new registers.old registers.new allocation.charge (rate * allocation.charge) }
    ensures unmarked { result ≡ Reply.Fine → MarksOnGround (view ground.old) (view ground.new) (get_or registers.new target null_word) allocation.charge }
    ensures refused { IsRefused result → (scan.new ≡ scan.old) × (ground.new.table ≡ ground.old.table) × (steps.new ≡ steps.old) }
    ensures goes_on { ScanGoesOn scan.old scan.new ground.old.table ground.new.table result }
    ensures accounted { AccountsForFaultsIf (view ground.old).mem (view ground.new).mem steps.old steps.new (is_fault result) }
{
    looks_are_steps();
    match admit(ground, scan, registers, allocation, rate, steps) {
        Ok(()) => reply_of(heap_commands::grow(ground, registers, target, wanted, steps)),
        Err(reply) => reply,
    }
}
