//! One line: judging it, and doing what it requests.
ghost use Rattle.std.specs.Prelude.{◌≡◌, ◌≢◌, ◌⊎◌, ◌≤◌, ◌<◌, ◌+◌, ◌-◌, ◌^◌, length, false, Some, None, Err, IfErr, OnOk};
ghost use Rattle.lisp_graph.specs.declared.command.Command.{Command as OneCommand};
ghost use Rattle.lisp_graph.specs.declared.world.World.{World as OneWorld};
ghost use Rattle.lisp_graph.specs.Commands.{IsRunnable};
ghost use Rattle.input_verdict.specs.Events.{Does, Nothing, Opens, event_of};
ghost use Rattle.input_verdict.specs.Places.{IsPlace, MayDo};
ghost use Rattle.input_verdict.specs.Verdict.{world_of};
ghost use Rattle.replay_run.specs.Reports.{ReportsSink, ReportsSwap};
ghost use Rattle.replay_run.specs.Steps.{Acted, FailsInDump, HasRoom, IsIn, TakesAfter};
ghost use Rattle.replay_run.specs.OneLine.{LineDone, LineHalted, LineRefused};

use crate::halt::LoopExit;
use crate::serve::serve;
use input_verdict::{JudgedInput, LineEffect, judge_line, run_error_of};
use line_input::{RunError, RunStop};
use lisp_graph::{Request, World};
use outer_ports::{Sink, SinkBuffer};
use paged_machine::{Engine, LoadFault};
use std::alloc::Global;

/// Does what a line requests.
#[inline(always)]
pub(crate) fn act<K: Sink, E: Engine>(
    alloc: Global,
    buffer: &mut SinkBuffer,
    sink: &mut K,
    engine: &mut E,
    world: &World,
    step: LineEffect,
    command: &Request,
) -> Result<(), LoopExit>
    requires allowed { MayDo world.now (event_of step command.now) }
    requires can { step ≡ LineEffect.Does → E.takes engine.old command.now }
    requires stands { step ≡ LineEffect.Does → IsIn world.now (E.stands engine.old) }
    requires idle { step ≡ LineEffect.Opens → E.is_idle engine.old }
    ensures did { Acted (event_of step command.now) world.now (E.stands engine.old) (E.stands engine.new) (E.faults engine.old) (E.faults engine.new)
        (K.stands sink.old) (K.stands sink.new) buffer.old.pending buffer.new.pending result }
    ensures fits { result ≡ Err LoopExit.Write → HasRoom buffer.old (K.faults sink.old)
        → (event_of step command.now ≡ Does command.now) × FailsInDump command.now (E.stands engine.old) (E.stands engine.new) (E.faults engine.old) (E.faults engine.new) }
    ensures err { IfErr result (λ _. event_of step command.now ≡ Opens → E.loaded engine.new ≡ false) }
    ensures room { buffer.new.room ≡ buffer.old.room }
    ensures unchanged { event_of step command.now ≡ Nothing → engine.new ≡ engine.old }
    ensures takes { OnOk result (TakesAfter (event_of step command.now) world.now (E.takes engine.old) (E.takes engine.new) (E.is_idle engine.old) (E.is_idle engine.new)) }
    ensures read { IfErr result (λ halt. halt ≢ LoopExit.Read) }
    ensures sink { ReportsSink (result ≡ Err LoopExit.Write) (K.faults sink.old) (K.faults sink.new) (K.failed sink.new) }
    ensures swap { ReportsSwap (result ≡ Err LoopExit.Swap) (E.faults engine.old) (E.faults engine.new) }
{
    match step {
        LineEffect::Nothing => Ok(()),
        LineEffect::Opens => match engine.open(alloc, world) {
            Ok(()) => Ok(()),
            Err(LoadFault::NoMemory) => Err(LoopExit::Memory),
            Err(LoadFault::Swap(_)) => Err(LoopExit::Swap),
        },
        LineEffect::Does => serve(alloc, buffer, sink, engine, world, command),
    }
}

/// Answers the next line, which has this text and, including its line feed if it has one, this many bytes: judges it in its place, and does what
/// it requests. A command is written to `command`. If the line is refused, or memory runs out while it is judged, nothing else
/// has changed.
#[inline(always)]
pub(crate) fn answer_line<K: Sink, E: Engine>(
    alloc: Global,
    place: &mut JudgedInput,
    command: &mut Request,
    buffer: &mut SinkBuffer,
    sink: &mut K,
    engine: &mut E,
    text: &[u8],
    size: usize,
) -> Result<(), RunStop>
    requires sound { IsPlace place.old }
    requires at_least { 1 ≤ size }
    requires at_most { size ≤ length text.now + 1 }
    requires can { (world : OneWorld) → world_of place.old ≡ Some world → (other : OneCommand) → IsRunnable world other → E.takes engine.old other }
    requires stands { (world : OneWorld) → world_of place.old ≡ Some world → IsIn world (E.stands engine.old) }
    requires idle { world_of place.old ≡ None → E.is_idle engine.old }
    ensures done { OnOk result (LineDone place.old place.new text.now size (engine.new ≡ engine.old) (E.stands engine.old) (E.stands engine.new)
        (E.takes engine.old) (E.takes engine.new) (E.is_idle engine.old) (E.is_idle engine.new) (E.faults engine.old) (E.faults engine.new)
        (K.stands sink.old) (K.stands sink.new) buffer.old.pending buffer.new.pending) }
    ensures stays_sound { OnOk result (IsPlace place.new) }
    ensures err { IfErr result (λ stop.
        LineRefused place.old text.now size stop ((engine.new ≡ engine.old) × (sink.new ≡ sink.old) × (buffer.new ≡ buffer.old))
        ⊎ LineHalted place.old place.new text.now size stop (HasRoom buffer.old (K.faults sink.old)) (E.stands engine.old) (E.stands engine.new) (E.loaded engine.new)
        (E.faults engine.old) (E.faults engine.new) (K.stands sink.old) (K.stands sink.new) buffer.old.pending buffer.new.pending) }
    ensures read { IfErr result (λ stop. stop ≢ RunStop.Tell RunError.Read) }
    ensures sink { ReportsSink (result ≡ Err RunStop.Write) (K.faults sink.old) (K.faults sink.new) (K.failed sink.new) }
    ensures swap { ReportsSwap (result ≡ Err (RunStop.Tell RunError.Swap)) (E.faults engine.old) (E.faults engine.new) }
    ensures room { buffer.new.room ≡ buffer.old.room }
{
    let step = match judge_line(place, text, size, command) {
        Ok(step) => step,
        Err(fault) => return Err(RunStop::Tell(run_error_of(place, fault))),
    };
    match act(
        alloc,
        buffer,
        sink,
        engine,
        place.judge.world(),
        step,
        command,
    ) {
        Ok(()) => Ok(()),
        Err(halt) => Err(halt.stop()),
    }
}
