//! A whole run.
ghost use Rattle.std.specs.Prelude.{◌≡◌, ◌≢◌, ◌-◌, true, ℕ, List, is_some, Some};
ghost use Rattle.outer_ports.specs.Ports.{Rose};
ghost use Rattle.paged_machine.specs.Holding.{StandsFor};
ghost use Rattle.replay_run.specs.Outcome.{IfNoWorld, IfNoWorldYet, Ran};
ghost use Rattle.replay_run.specs.Reports.{ReportsSink, ReportsSwap};
ghost use Rattle.line_input.specs.Statuses.{code};

use crate::run::run_trace;
use line_input::{LineReader, RunError, Status, finish, report};
use outer_ports::{Sink, SinkBuffer, Source, Swap};
use paged_machine::{Engine, Machine};
use std::alloc::Global;

/// The most bytes of replies that are pending before they are given to the sink.
const PENDING: usize = 32_768;

/// Answers an input on an idle engine: reads it from the source, line by line, runs its commands, and gives the replies to the sink. The
/// sink's count of failed calls is unchanged except at `WriteFailed`, the source's except at `WriteFailed` and `ReadFailed`, and the engine's,
/// if no reply is `fault`, except at `WriteFailed` and `SwapFailed`. If no world was read before the first line with trouble, or before
/// the source failed, the engine is unchanged.
pub fn answer_input<S: Source, K: Sink, E: Engine>(
    alloc: Global,
    source: &mut S,
    sink: &mut K,
    engine: &mut E,
) -> Status
    requires { E.is_idle engine.old }
    ensures ran { (i b w : List ℕ) × Ran (S.left source.old) (S.left source.new) (K.stands sink.old) (K.stands sink.new)
        (record { input = i; taken = b; last = S.last source.new; written = w; stands = E.stands engine.new; loaded = E.loaded engine.new; source_rose = Rose (S.faults source.old) (S.faults source.new); swap_rose = E.faults engine.new - E.faults engine.old })
        result }
    ensures read { result ≡ Status.ReadFailed → Rose (S.faults source.old) (S.faults source.new) }
    ensures source_no_fault { result ≢ Status.ReadFailed → result ≢ Status.WriteFailed → S.faults source.new ≡ S.faults source.old }
    ensures sink { ReportsSink (result ≡ Status.WriteFailed) (K.faults sink.old) (K.faults sink.new) (K.failed sink.new) }
    ensures swap { ReportsSwap (result ≡ Status.SwapFailed) (E.faults engine.old) (E.faults engine.new) }
    ensures unopened { IfNoWorld (S.left source.old) (engine.new ≡ engine.old) }
    ensures unread { IfNoWorldYet (S.left source.old) (S.left source.new) (result ≡ Status.ReadFailed → engine.new ≡ engine.old) }
{
    engine.idle_has_no_world();
    let mut reader = match LineReader::new(alloc) {
        Ok(reader) => reader,
        Err(_) => return report(sink, &RunError::Memory),
    };
    let mut buffer = match SinkBuffer::new(alloc, PENDING) {
        Ok(buffer) => buffer,
        Err(_) => return report(sink, &RunError::Memory),
    };
    let outcome = run_trace(alloc, &mut reader, &mut buffer, source, sink, engine);
    finish(&mut buffer, sink, outcome)
}

/// Answers an input on an idle machine, and returns the number of the status: 0 if it was read to its end and each command
/// answered, 1 if the sink failed, 2 if a line broke a rule or can't be run, 3 if the source failed, 4 if the world has no
/// room for an area or its objects exceed a quota, 5 if memory ran out before the world was loaded or at a dump, and 6 if the swap device
/// failed while the world's objects were loaded. The sink's count of failed calls is unchanged except at 1, the source's except
/// at 1 and 3, and the swap device's, if no reply is `fault`, except at 1 and 6. If no world was read before the first line with
/// trouble, or before the source failed, the machine is unchanged.
pub fn replay<S: Source, K: Sink, D: Swap>(
    alloc: Global,
    source: &mut S,
    sink: &mut K,
    machine: &mut Machine<D>,
) -> u8
    requires { machine.old.idle ≡ true }
    ensures ran { (status : Status) × (result ≡ code status) × (i b w : List ℕ) × Ran (S.left source.old) (S.left source.new) (K.stands sink.old) (K.stands sink.new)
        (record { input = i; taken = b; last = S.last source.new; written = w; stands = StandsFor machine.new.heap; loaded = is_some machine.new.heap; source_rose = Rose (S.faults source.old) (S.faults source.new); swap_rose = machine.new.faults - machine.old.faults })
        status }
    ensures read { result ≡ 3 → Rose (S.faults source.old) (S.faults source.new) }
    ensures source_no_fault { result ≢ 3 → result ≢ 1 → S.faults source.new ≡ S.faults source.old }
    ensures sink { ReportsSink (result ≡ 1) (K.faults sink.old) (K.faults sink.new) (K.failed sink.new) }
    ensures swap { ReportsSwap (result ≡ 6) machine.old.faults machine.new.faults }
    ensures unopened { IfNoWorld (S.left source.old) (machine.new ≡ machine.old) }
    ensures unread { IfNoWorldYet (S.left source.old) (S.left source.new) (result ≡ 3 → machine.new ≡ machine.old) }
{
    answer_input(alloc, source, sink, machine).code()
}
