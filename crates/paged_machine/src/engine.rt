//! What runs commands.
ghost use Rattle.std.specs.Prelude.{◌≡◌, ◌≢◌, ◌<◌, ◌≤◌, ℕ, [], Bool, IfOk, OnOk, length, true, false, is_ok};
ghost use Rattle.lisp_graph.specs.declared.command.Command.{Command as OneCommand};
ghost use Rattle.lisp_graph.specs.declared.command.Command.TheVariants.{Dump};
ghost use Rattle.lisp_heap.specs.heap_load.Faults.{is_fault};
ghost use Rattle.lisp_heap.specs.lisp_meaning.State.{State};
ghost use Rattle.lisp_heap.specs.lisp_meaning.Opening.{opening};
ghost use Rattle.lisp_heap.specs.lisp_meaning.Step.{Replied, world_of};
ghost use Rattle.lisp_heap.specs.lisp_meaning.Charges.{account_now};
ghost use Rattle.lisp_heap.specs.lisp_meaning.Run.{Does};
ghost use Rattle.world_text.specs.Dump.{HasSwapCause};
ghost use Rattle.world_text.specs.Limits.{IsAccepted};
ghost use Rattle.lisp_heap.specs.dump_laws.Written.{dumped};
ghost use Rattle.lisp_graph.specs.Commands.{IsRunnable};
ghost use Rattle.paged_machine.specs.Asks.{IsOf, is_replied};

use lisp_graph::{Reply, Request, Text, World};
use lisp_heap::LoadFault;
use std::alloc::Global;
use world_text::DumpFault;

/// A machine that can be opened for a world, and then runs commands.
pub trait Engine {
    // It represents a state.
    ghost stands: { Self → State → Type 0 };

    // It can be given this command.
    ghost takes: { Self → OneCommand → Type 0 };

    // No world was opened.
    ghost is_idle: { Self → Type 0 };

    // A world was loaded: it represents the state after the commands that it was given since.
    ghost loaded: { Self → Bool };

    // How often its swap failed.
    ghost faults: { Self → ℕ };

    /// Makes it represent the opening of a world. It fails if memory runs out, and if the swap fails, which it can't in a world
    /// without objects; only a swap failure raises the count of swap errors. A world was loaded if and only if it succeeds.
    fn open(&mut self, alloc: Global, world: &World) -> Result<(), LoadFault>
        requires idle { is_idle self.old }
        requires accepted { IsAccepted world.now }
        ensures stands { OnOk result (stands self.new (opening world.now)) }
        ensures takes { OnOk result ((command : OneCommand) → IsRunnable world.now command → takes self.new command) }
        ensures value { loaded self.new ≡ is_ok result }
        ensures never_falls { faults self.old ≤ faults self.new }
        ensures swap { is_fault result ≡ true → faults self.old < faults self.new }
        ensures no_fault { is_fault result ≡ false → faults self.new ≡ faults self.old }
        ensures succeeds { world.now.objects ≡ [] → is_fault result ≡ false };

    /// Runs a command that replies by a `Reply`: any but `stats` and `dump`. The count of swap errors rises if and only if the reply is `Fault`.
    fn answer(&mut self, command: &Request) -> Reply
        requires can { takes self.old command.now }
        requires replied { is_replied command.now ≡ true }
        ensures does { (old : State) → stands self.old old → ((new : State) × Does old command.now (Replied result) new × stands self.new new) }
        ensures takes { (other : OneCommand) → takes self.old other → takes self.new other }
        ensures unchanged { loaded self.new ≡ loaded self.old }
        ensures fault { result ≡ Reply.Fault → faults self.old < faults self.new }
        ensures no_fault { result ≢ Reply.Fault → faults self.new ≡ faults self.old }
        ensures never_falls { faults self.old ≤ faults self.new };

    /// The words that an area is charged in any state that it represents.
    fn account(&self, area: u8) -> u32
        requires { (s : State) × stands self.now s × (area < length s.areas) }
        ensures { (s : State) → stands self.now s → result ≡ account_now s area };

    /// The text of a dump in this world. It fails if memory runs out, or if the swap fails, and changes nothing that it represents.
    fn dump(&mut self, alloc: Global, world: &World) -> Result<Text, DumpFault>
        requires can { takes self.old Dump }
        requires agrees { (s : State) × stands self.old s × IsOf world.now s }
        ensures text { IfOk result (λ text. (s : State) → stands self.old s → IsOf world.now s → text ≡ dumped (world_of s)) }
        ensures stands { (s : State) → stands self.old s → stands self.new s }
        ensures takes { (other : OneCommand) → takes self.old other → takes self.new other }
        ensures unchanged { loaded self.new ≡ loaded self.old }
        ensures cause { HasSwapCause (faults self.old) (faults self.new) result };

    /// An idle engine has no world: this call does nothing, and proofs take that from it.
    fn idle_has_no_world(&self)
        ensures { is_idle self.now → loaded self.now ≡ false };
}
