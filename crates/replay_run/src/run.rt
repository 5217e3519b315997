//! The loop over the lines.
ghost use Rattle.std.specs.Prelude.{◌≡◌, ◌≢◌, ◌⊎◌, ◌≤◌, ◌<◌, ◌-◌, ◌^◌, ◌++◌, List, [], true, false, length, Some, Err, IfErr, IfOk, IfSome, OnOk, ℕ};
ghost use Rattle.outer_ports.specs.Ports.{IsAtEnd, Rose};
ghost use Rattle.input_verdict.specs.Events.{Nothing, event_of};
ghost use Rattle.input_verdict.specs.Places.{IsPlace, MayDo};
ghost use Rattle.input_verdict.specs.Verdict.{ending_at};
ghost use Rattle.replay_run.specs.Outcome.{IfNoWorld, IfNoWorldYet};
ghost use Rattle.replay_run.specs.OneLine.{JudgedNext};
ghost use Rattle.replay_run.specs.Reports.{ReportsSink, ReportsSource, ReportsSwap};
ghost use Rattle.replay_run.specs.Steps.{Acted, Fetched, Filled, IsIn, RanTo, TakesAfter, closed};

use crate::halt::LoopExit;
use crate::line::act;
use crate::serve::serve;
use input_verdict::{
    InputJudge, JudgedInput, JudgedLine, judge_buffered, judge_line, pass_conses, run_error_of,
};
use line_input::{InputReader, LineReader, LineSpan, RunError, RunStop, early_end};
use lisp_graph::Request;
use outer_ports::{Sink, SinkBuffer, Source};
use paged_machine::Engine;
use std::alloc::Global;
use world_text::Reason;

/// The next line, or a prefix of it that has enough bytes. More bytes are taken only if neither is buffered, one piece after another until one is,
/// and after what is pending was given to the sink.
#[inline(always)]
fn next_line<S: Source, K: Sink>(
    reader: &mut LineReader,
    buffer: &mut SinkBuffer,
    source: &mut S,
    sink: &mut K,
    enough: usize,
) -> Result<Option<LineSpan>, LoopExit>
    requires sound { reader.old.ended ≡ true → IsAtEnd (S.left source.old) }
    requires at_least { 1 ≤ enough }
    requires in_range { enough ≤ 32769 }
    ensures filled { Filled (S.left source.old) (S.left source.new) (S.last source.old) (S.last source.new) reader.old reader.new
        (K.stands sink.old) (K.stands sink.new) buffer.old.pending buffer.new.pending }
    ensures end { reader.new.ended ≡ true → IsAtEnd (S.left source.new) }
    ensures value { Fetched reader.new enough buffer.new.pending result }
    ensures source { ReportsSource (result ≡ Err LoopExit.Read) (S.faults source.old) (S.faults source.new) }
    ensures sink { ReportsSink (result ≡ Err LoopExit.Write) (K.faults sink.old) (K.faults sink.new) (K.failed sink.new) }
    ensures swap { IfErr result (λ halt. halt ≢ LoopExit.Swap) }
{
    if let Some(found) = reader.find_line(0, enough) {
        return Ok(Some(found));
    }
    match buffer.flush(sink) {
        Ok(()) => {}
        Err(_) => return Err(LoopExit::Write),
    }
    match reader.next(source, enough) {
        Ok(next) => Ok(next),
        Err(_) => Err(LoopExit::Read),
    }
}

/// Finds the next line, and then judges it. More bytes are taken only if neither the line nor enough of it is buffered, as `next_line` says. A
/// command is written to `command`.
#[inline(never)]
fn find_and_judge<S: Source, K: Sink>(
    place: &mut JudgedInput,
    command: &mut Request,
    reader: &mut LineReader,
    buffer: &mut SinkBuffer,
    source: &mut S,
    sink: &mut K,
) -> Result<Option<JudgedLine>, RunStop>
    requires sound { IsPlace place.old }
    requires ended { reader.old.ended ≡ true → IsAtEnd (S.left source.old) }
    ensures filled { Filled (S.left source.old) (S.left source.new) (S.last source.old) (S.last source.new) reader.old reader.new
        (K.stands sink.old) (K.stands sink.new) buffer.old.pending buffer.new.pending }
    ensures end { reader.new.ended ≡ true → IsAtEnd (S.left source.new) }
    ensures judged { JudgedNext place.old place.new reader.new buffer.new.pending command.new result }
    ensures stays_sound { OnOk result (IsPlace place.new) }
    ensures allowed { IfOk result (λ next. IfSome next (λ line. MayDo place.new.judge.builder.world (event_of line.effect command.new))) }
    ensures source { ReportsSource (result ≡ Err (RunStop.Tell RunError.Read)) (S.faults source.old) (S.faults source.new) }
    ensures sink { ReportsSink (result ≡ Err RunStop.Write) (K.faults sink.old) (K.faults sink.new) (K.failed sink.new) }
    ensures swap { IfErr result (λ stop. stop ≢ RunStop.Tell RunError.Swap) }
{
    let enough = place.bytes_to_decide(place.judge.ended);
    let found = match next_line(reader, buffer, source, sink, enough) {
        Ok(Some(found)) => found,
        Ok(None) => return Ok(None),
        Err(halt) => return Err(halt.stop()),
    };
    let text = &reader.bytes()[..found.length];
    match judge_line(place, text, found.size, command) {
        Ok(effect) => Ok(Some(JudgedLine { effect, found })),
        Err(fault) => Err(RunStop::Tell(run_error_of(place, fault))),
    }
}

/// How a run stops when the input ends here.
pub(crate) fn close(place: &JudgedInput) -> Result<(), RunStop>
    requires { place.now.lines < 2 ^ 50 }
    ensures { result ≡ closed (ending_at place.now) }
{
    if place.judge.is_ended() {
        return Ok(());
    }
    Err(RunStop::Tell(early_end(place.lines, Reason::NotAWorld)))
}

/// Answers one line after another, until the run has to stop.
pub fn run_trace<S: Source, K: Sink, E: Engine>(
    alloc: Global,
    reader: &mut LineReader,
    buffer: &mut SinkBuffer,
    source: &mut S,
    sink: &mut K,
    engine: &mut E,
) -> Result<(), RunStop>
    requires bytes { reader.old.bytes ≡ [] }
    requires ended { reader.old.ended ≡ false }
    requires empty { buffer.old.pending ≡ [] }
    requires idle { E.is_idle engine.old }
    ensures ran { (i b w : List ℕ) × RanTo (S.left source.old) (S.left source.new) (K.stands sink.old) (K.stands sink.new)
        (record { input = i; taken = b; last = S.last source.new; written = w; stands = E.stands engine.new; loaded = E.loaded engine.new; source_rose = Rose (S.faults source.old) (S.faults source.new); swap_rose = E.faults engine.new - E.faults engine.old })
        buffer.new.pending result }
    ensures source { ReportsSource (result ≡ Err (RunStop.Tell RunError.Read)) (S.faults source.old) (S.faults source.new) }
    ensures sink { ReportsSink (result ≡ Err RunStop.Write) (K.faults sink.old) (K.faults sink.new) (K.failed sink.new) }
    ensures swap { ReportsSwap (result ≡ Err (RunStop.Tell RunError.Swap)) (E.faults engine.old) (E.faults engine.new) }
    ensures unopened { IfNoWorld (S.left source.old) (engine.new ≡ engine.old) }
    ensures unread { IfNoWorldYet (S.left source.old) (S.left source.new) (result ≡ Err (RunStop.Tell RunError.Read) → engine.new ≡ engine.old) }
{
    engine.idle_has_no_world();
    let mut place = InputReader::start(InputJudge::new(alloc));
    // Each command is written here.
    let mut command = Request::new();
    loop {
        pass_conses(&mut place, reader);
        if let Some(found) = judge_buffered(&mut place, reader, &mut command) {
            match serve(alloc, buffer, sink, engine, place.judge.world(), &command) {
                Ok(()) => reader.pass(found.size),
                Err(halt) => return Err(halt.stop()),
            }
            continue;
        }
        let next = match find_and_judge(&mut place, &mut command, reader, buffer, source, sink) {
            Ok(Some(next)) => next,
            Ok(None) => return close(&place),
            Err(stop) => return Err(stop),
        };
        match act(
            alloc,
            buffer,
            sink,
            engine,
            place.judge.world(),
            next.effect,
            &command,
        ) {
            Ok(()) => reader.pass(next.found.size),
            Err(halt) => return Err(halt.stop()),
        }
    }
}
