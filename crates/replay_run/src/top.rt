//! The top call.
ghost use Rattle.std.specs.Prelude.{◌≡◌, ◌≢◌, ◌⊎◌, ◌-◌, ◌<◌, ◌≤◌, true, false, ℕ, List, is_some, Some, None};
ghost use Rattle.std.specs.List.{All};
ghost use Rattle.outer_ports.specs.Ports.{FailedLast, Rose};
ghost use Rattle.paged_machine.specs.Holding.{HasReading};
ghost use Rattle.lisp_graph.specs.declared.command.Command.TheVariants.{Dump};
ghost use Rattle.replay_run.specs.Outcome.{IfNoWorld, IfNoWorldYet, IsEarly, Ran};
ghost use Rattle.line_input.specs.Statuses.{code, status_of};
ghost use Rattle.input_verdict.specs.Verdict.{Broken, Whole, verdict};
ghost use Rattle.command_words.specs.declared.mode.FileMode.{FileMode};
ghost use Rattle.command_words.specs.Words.{mode_of};
ghost use Rattle.file_modes.specs.Outcome as files;
ghost use Rattle.replay_run.specs.Exercise.{Exercised};
ghost use Rattle.replay_run.specs.Top.{Refused, reads, runs};

use crate::exercise::exercise;
use crate::input::answer_input;
use command_words::{Mode, read_words};
use file_modes::run_mode;
use line_input::{RunError, Status, report};
use lisp_graph::NoMemory;
use outer_ports::{Sink, Source, Swap};
use paged_machine::{Engine, Machine};
use std::alloc::Global;

/// Everything that the program does. `words` are the program's arguments, and the machine is idle.
///
/// The argument `replay` answers the input, as `replay` says; `exercise --number N --count K` answers the generated input for N and K, and writes a
/// summary of its replies, or, if memory ran out, only the error line for that; `print`, `why --object K` and `census` answer what they request of
/// a world file, and `compile` of a text of S-expressions, as `run_mode` of `file_modes` says. Other arguments are refused with status 7. If memory
/// runs out before the arguments are read, the status is 5, whatever they are. If the sink fails in what is written, the status is 1. At any other
/// status, if a device's failure isn't reported by the status or, for the swap device, by a reply, the device's count of failed calls is unchanged.
pub fn run_lispm<S: Source, K: Sink, D: Swap>(
    alloc: Global,
    words: &[String],
    source: &mut S,
    sink: &mut K,
    machine: &mut Machine<D>,
) -> u8
    requires { machine.old.idle ≡ true }

    // The run on an input is as its status says, and the heap has the meaning of the state after its commands.
    ensures ran { mode_of words.now ≡ Some Mode.Replay → ((status : Status) × (result ≡ code status)
        × (i b w : List ℕ) × Ran (S.left source.old) (S.left source.new) (K.stands sink.old) (K.stands sink.new)
        (record { input = i; taken = b; last = S.last source.new; written = w; stands = HasReading machine.new.heap; loaded = is_some machine.new.heap; source_rose = Rose (S.faults source.old) (S.faults source.new); swap_rose = machine.new.faults - machine.old.faults })
        status) }

    // For the generated input the replies are those of a run, too. Their summary is written.
    ensures exercised { (number count : ℕ) → mode_of words.now ≡ Some (Mode.Exercise number count) → ((status : Status) × (result ≡ code status)
        × Exercised number count (K.stands sink.old) (K.stands sink.new)
        (HasReading machine.new.heap) (is_some machine.new.heap) (machine.new.faults - machine.old.faults) status) }

    // For a file, what the mode requests of its world is written, or an error line.
    ensures asked { (mode : FileMode) → mode_of words.now ≡ Some (Mode.OfFile mode) → ((status : Status) × (result ≡ code status)
        × files.Ran mode (S.left source.old) (S.left source.new) (K.stands sink.old) (K.stands sink.new)
        (Rose (S.faults source.old) (S.faults source.new)) status) }

    // All other arguments are refused, and no others.
    ensures usage { mode_of words.now ≡ None → ((status : Status) × (result ≡ code status)
        × Refused (K.stands sink.old) (K.stands sink.new) status) }
    ensures only { result ≡ 7 → mode_of words.now ≡ None }

    // With refused arguments, and for an exercise, the source isn't called. If no commands are run, the machine remains idle.
    ensures untaken { reads (mode_of words.now) ≡ false → source.new ≡ source.old }
    ensures idle { runs (mode_of words.now) ≡ false → machine.new ≡ machine.old }

    // If no device fails, a whole input is answered to its end. Only memory may run out, before the first command or at a dump.
    ensures complete { (i : List ℕ) → mode_of words.now ≡ Some Mode.Replay → S.left source.old ≡ Some i → (verdict i).ending ≡ Whole
        → (Rose (S.faults source.old) (S.faults source.new) → ⊥) → (Rose (K.faults sink.old) (K.faults sink.new) → ⊥) → machine.new.faults ≤ machine.old.faults
        → (result ≡ 0) ⊎ (result ≡ 5) }

    // An input with trouble then has the status of its trouble.
    ensures refused { (i : List ℕ) (trouble : RunError) → mode_of words.now ≡ Some Mode.Replay → S.left source.old ≡ Some i → (verdict i).ending ≡ Broken trouble
        → (Rose (S.faults source.old) (S.faults source.new) → ⊥) → (Rose (K.faults sink.old) (K.faults sink.new) → ⊥) → machine.new.faults ≤ machine.old.faults
        → (result ≡ code (status_of trouble)) ⊎ (result ≡ 5) }

    // In an input without a dump, memory can run out only before the first command.
    ensures early { (i : List ℕ) → mode_of words.now ≡ Some Mode.Replay → S.left source.old ≡ Some i → All (λ command. command ≢ Dump) (verdict i).read.commands
        → result ≡ 5 → IsEarly i (S.left source.new) (S.last source.new) (K.stands sink.old) (K.stands sink.new) (is_some machine.new.heap) }

    // If no world was read before the first line with trouble, or before the source failed, the machine is unchanged.
    ensures unopened { mode_of words.now ≡ Some Mode.Replay → IfNoWorld (S.left source.old) (machine.new ≡ machine.old) }
    ensures unread { mode_of words.now ≡ Some Mode.Replay → IfNoWorldYet (S.left source.old) (S.left source.new) (result ≡ 3 → machine.new ≡ machine.old) }

    // An exercise is answered to its end, too, whatever the swap device does.
    ensures complete_made { (number count : ℕ) → mode_of words.now ≡ Some (Mode.Exercise number count)
        → (Rose (K.faults sink.old) (K.faults sink.new) → ⊥) → (result ≡ 0) ⊎ (result ≡ 5) }

    // A device's failure is reported only if its count of failed calls rose.
    ensures read { result ≡ 3 → Rose (S.faults source.old) (S.faults source.new) }
    ensures write { result ≡ 1 → Rose (K.faults sink.old) (K.faults sink.new) }
    ensures swap { result ≡ 6 → machine.old.faults < machine.new.faults }

    // If the sink failed, exactly one of its calls did, and that was the latest, so nothing was written after it.
    ensures last { result ≡ 1 → FailedLast (K.faults sink.old) (K.faults sink.new) (K.failed sink.new) }

    // Otherwise the count is unchanged; that of the swap device, if no reply is `fault`, by `ran` and `exercised`. If the sink fails, the source or
    // the swap device may have failed before it.
    ensures source_no_fault { result ≢ 3 → result ≢ 1 → S.faults source.new ≡ S.faults source.old }
    ensures sink_no_fault { result ≢ 1 → K.faults sink.new ≡ K.faults sink.old }
    ensures never_falls { machine.old.faults ≤ machine.new.faults }
{
    machine.idle_has_no_world();
    match read_words(alloc, words) {
        Ok(Some(Mode::Replay)) => { answer_input(alloc, source, sink, machine).code() }
        Ok(Some(Mode::Exercise { number, count })) => {
            exercise(alloc, number, count, sink, machine).code()
        }
        Ok(Some(Mode::OfFile(mode))) => run_mode(alloc, mode, source, sink).code(),
        Ok(None) => report(sink, &RunError::Usage).code(),
        Err(NoMemory) => report(sink, &RunError::Memory).code(),
    }
}
