//! The top call.
ghost use Rattle.std.specs.Prelude.{◌≡◌, ◌≢◌, ◌⊎◌, ◌-◌, ◌<◌, ◌≤◌, true, ℕ, List, is_some, Some, None};
ghost use Rattle.std.specs.List.{All};
ghost use Rattle.outer_ports.specs.Ports.{FailedLast, Rose};
ghost use Rattle.inside_text.specs.lisp_graph.declared.command.Command.TheVariants.{Dump};
ghost use Rattle.line_input.specs.Statuses.{Closed, code, status_of, trouble_line};
ghost use Rattle.input_verdict.specs.Verdict.{Broken, Whole, verdict};
ghost use Rattle.replay_run.specs.Outcome.{IsEarly};
ghost use Rattle.inside_run.specs.Outcome.{Shows, device_of, fail_of};

use crate::device::ShownSwap;
use crate::looking::finish_shown;
use crate::words::fail_number;
use line_input::{LineReader, RunError, Status, finish, report};
use outer_ports::{Sink, SinkBuffer, Source, Swap};
use paged_machine::{Engine, Machine};
use replay_run::run_trace;
use std::alloc::Global;

/// The most bytes of text that are pending before they are given to the sink.
const PENDING: usize = 32_768;

/// How the program ended: its status, and the machine.
#[derive(Drop)]
pub struct Ended<D: Swap> {
    pub status: u8,
    pub machine: Machine<D>,
}

/// Answers an input on an idle machine, and writes the machine after the replies if the whole input was answered.
fn answer_shown<S: Source, K: Sink, D: ShownSwap>(
    alloc: Global,
    source: &mut S,
    sink: &mut K,
    machine: &mut Machine<D>,
) -> Status
    requires { machine.old.idle ≡ true }
    ensures ran { Shows (S.left source.old) (S.left source.new) (S.last source.new) (K.stands sink.old) (K.stands sink.new)
        machine.new.heap (Rose (S.faults source.old) (S.faults source.new)) (machine.new.faults - machine.old.faults) result }
    ensures read { result ≡ Status.ReadFailed → Rose (S.faults source.old) (S.faults source.new) }
    ensures write { result ≡ Status.WriteFailed → Rose (K.faults sink.old) (K.faults sink.new) }
    ensures last { result ≡ Status.WriteFailed → FailedLast (K.faults sink.old) (K.faults sink.new) (K.failed sink.new) }
    ensures swap { result ≡ Status.SwapFailed → machine.old.faults < machine.new.faults }
    ensures source_no_fault { result ≢ Status.ReadFailed → result ≢ Status.WriteFailed → S.faults source.new ≡ S.faults source.old }
    ensures sink_no_fault { result ≢ Status.WriteFailed → K.faults sink.new ≡ K.faults sink.old }
    ensures never_falls { machine.old.faults ≤ machine.new.faults }
{
    machine.idle_has_no_world();
    let mut reader = match LineReader::new(alloc) {
        Ok(reader) => reader,
        Err(_) => return report(sink, &RunError::Memory),
    };
    let mut buffer = match SinkBuffer::new(alloc, PENDING) {
        Ok(buffer) => buffer,
        Err(_) => return report(sink, &RunError::Memory),
    };
    match run_trace(alloc, &mut reader, &mut buffer, source, sink, machine) {
        Ok(()) => finish_shown(&mut buffer, sink, machine),
        Err(stop) => finish(&mut buffer, sink, Err(stop)),
    }
}

/// Everything that the program does. `words` are the program's arguments, and `device` is the swap device that they request: of its page
/// calls the one with the number in the arguments fails.
/// The machine has this device: the function is generic over it, and so it can't make another.
///
/// The input is answered as `lispm replay` answers it. If all of it was, status 0, the heap is written after the replies; at any
/// other status it isn't. Arguments other than `--fail N` are refused with status 7. Once the world is open, only a dump allocates
/// memory.
pub fn run_inside<S: Source, K: Sink, D: ShownSwap>(
    alloc: Global,
    words: &[String],
    source: &mut S,
    sink: &mut K,
    device: D,
) -> Ended<D>
    // The page call that fails is the one with the number in the arguments, and no page call was made yet.
    requires agrees { D.device device ≡ device_of words.now }

    // For an input, the replies are those of a run, as its status says, and the heap has the meaning of the state after its commands. That heap is written after them.
    ensures ran { (fail : ℕ) → fail_of words.now ≡ Some fail → ((status : Status) × (result.status ≡ code status)
        × Shows (S.left source.old) (S.left source.new) (S.last source.new) (K.stands sink.old) (K.stands sink.new)
        result.machine.heap (Rose (S.faults source.old) (S.faults source.new)) (result.machine.faults - D.faults device) status) }

    // All other arguments are refused, and no others.
    ensures usage { fail_of words.now ≡ None → ((status : Status) × (result.status ≡ code status)
        × Closed (K.stands sink.old) (K.stands sink.new) (trouble_line RunError.Usage) Status.Usage status) }
    ensures only { result.status ≡ 7 → fail_of words.now ≡ None }
    ensures untaken { fail_of words.now ≡ None → S.left source.new ≡ S.left source.old }
    ensures idle { fail_of words.now ≡ None → (result.machine.idle ≡ true) × (result.machine.heap ≡ None) × (result.machine.faults ≡ D.faults device) }

    // If no device fails, a whole input is answered to its end. Only memory may run out, before the first command or at a dump.
    ensures complete { (fail : ℕ) (i : List ℕ) → fail_of words.now ≡ Some fail → S.left source.old ≡ Some i → (verdict i).ending ≡ Whole
        → (Rose (S.faults source.old) (S.faults source.new) → ⊥) → (Rose (K.faults sink.old) (K.faults sink.new) → ⊥) → result.machine.faults ≤ D.faults device
        → (result.status ≡ 0) ⊎ (result.status ≡ 5) }

    // An input with trouble then has the status of its trouble.
    ensures refused { (fail : ℕ) (i : List ℕ) (trouble : RunError) → fail_of words.now ≡ Some fail → S.left source.old ≡ Some i → (verdict i).ending ≡ Broken trouble
        → (Rose (S.faults source.old) (S.faults source.new) → ⊥) → (Rose (K.faults sink.old) (K.faults sink.new) → ⊥) → result.machine.faults ≤ D.faults device
        → (result.status ≡ code (status_of trouble)) ⊎ (result.status ≡ 5) }

    // In an input without a dump, memory can run out only before the first command; so writing the machine allocates none.
    ensures early { (fail : ℕ) (i : List ℕ) → fail_of words.now ≡ Some fail → S.left source.old ≡ Some i → All (λ command. command ≢ Dump) (verdict i).read.commands
        → result.status ≡ 5 → IsEarly i (S.left source.new) (S.last source.new) (K.stands sink.old) (K.stands sink.new) (is_some result.machine.heap) }

    // A device's failure is reported only if its count of failed calls rose.
    ensures read { result.status ≡ 3 → Rose (S.faults source.old) (S.faults source.new) }
    ensures write { result.status ≡ 1 → Rose (K.faults sink.old) (K.faults sink.new) }
    ensures swap { result.status ≡ 6 → D.faults device < result.machine.faults }

    // If the sink failed, exactly one of its calls did, and that was the latest, so nothing was written after it.
    ensures last { result.status ≡ 1 → FailedLast (K.faults sink.old) (K.faults sink.new) (K.failed sink.new) }

    // Otherwise the count is unchanged; that of the swap device, if no reply is `fault`, by `ran`. If the sink fails, the source or the swap
    // device may have failed before it.
    ensures source_no_fault { result.status ≢ 3 → result.status ≢ 1 → S.faults source.new ≡ S.faults source.old }
    ensures sink_no_fault { result.status ≢ 1 → K.faults sink.new ≡ K.faults sink.old }
    ensures never_falls { D.faults device ≤ result.machine.faults }
{
    let mut machine = Machine::idle(device);
    if fail_number(words).is_none() {
        let status = report(sink, &RunError::Usage).code();
        return Ended { status, machine };
    }
    let status = answer_shown(alloc, source, sink, &mut machine).code();
    Ended { status, machine }
}
