//! An exercise: runs a generated input, and summarizes its replies.
ghost use Rattle.std.specs.Prelude.{◌≡◌, ◌≢◌, ◌-◌, ◌≤◌};
ghost use Rattle.trace_text.specs.Summary.{summary};
ghost use Rattle.line_input.specs.Statuses.{Closed};
ghost use Rattle.replay_run.specs.Exercise.{Exercised, RanMade};
ghost use Rattle.replay_run.specs.Reports.{ReportsSink};

use crate::input::answer_input;
use line_input::{RunError, Status, report};
use outer_ports::{Sink, SinkTally, Tally, give_all};
use paged_machine::Engine;
use std::alloc::Global;
use trace_text::{Maker, summary_text};

/// Runs the generated input, and counts the lines that it writes.
fn run_made<E: Engine>(alloc: Global, number: u32, count: u32, engine: &mut E) -> (Status, Tally)
    requires at_most { count ≤ 1000000 }
    requires idle { E.is_idle engine.old }
    ensures made { RanMade number count (E.stands engine.new) (E.loaded engine.new) (E.faults engine.new - E.faults engine.old) result.0 result.1 }
    ensures never_falls { E.faults engine.old ≤ E.faults engine.new }
{
    let mut maker = Maker::new(number, count);
    let mut sink = SinkTally::new();
    let ended = answer_input(alloc, &mut maker, &mut sink, engine);
    (ended, sink.tally())
}

/// Writes the summary of an exercise.
fn write_summary<K: Sink>(sink: &mut K, count: u32, tally: &Tally) -> Status
    ensures written { Closed (K.stands sink.old) (K.stands sink.new) (summary count tally.now) Status.Done result }
    ensures sink { ReportsSink (result ≡ Status.WriteFailed) (K.faults sink.old) (K.faults sink.new) (K.failed sink.new) }
{
    let text = summary_text(count, tally);
    match give_all(sink, text.as_bytes()) {
        Ok(()) => Status::Done,
        Err(_) => Status::WriteFailed,
    }
}

/// Runs the generated input for this number, with this count of commands, on an idle machine, and writes the summary of its replies. If memory
/// ran out before the first command, it writes only the error line for that. The generated world has no objects, so the swap device can't fail
/// while the world is loaded.
pub(crate) fn exercise<K: Sink, E: Engine>(
    alloc: Global,
    number: u32,
    count: u32,
    sink: &mut K,
    engine: &mut E,
) -> Status
    requires at_most { count ≤ 1000000 }
    requires idle { E.is_idle engine.old }
    ensures exercised { Exercised number count (K.stands sink.old) (K.stands sink.new) (E.stands engine.new) (E.loaded engine.new) (E.faults engine.new - E.faults engine.old) result }
    ensures sink { ReportsSink (result ≡ Status.WriteFailed) (K.faults sink.old) (K.faults sink.new) (K.failed sink.new) }
    ensures swap { result ≢ Status.SwapFailed }
    ensures never_falls { E.faults engine.old ≤ E.faults engine.new }
{
    let (ended, tally) = run_made(alloc, number, count, engine);
    match ended {
        Status::Done => write_summary(sink, count, &tally),
        _ => report(sink, &RunError::Memory),
    }
}
