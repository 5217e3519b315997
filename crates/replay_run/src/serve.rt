//! Running commands, and writing the texts of their answers.
ghost use Rattle.std.specs.Prelude.{◌≡◌, ◌≢◌, ◌≤◌, ◌<◌, ◌+◌, ◌-◌, ◌^◌, length, take, Err, Ok, IfErr};
ghost use Rattle.outer_ports.specs.Buffers.{Gathers};
ghost use Rattle.lisp_graph.specs.declared.command.Command.{Command as OneCommand};
ghost use Rattle.paged_machine.specs.lisp_meaning.State.{State};
ghost use Rattle.paged_machine.specs.lisp_meaning.Step.{Accounts, area_lines};
ghost use Rattle.replay_run.specs.Replies.{answer_text};
ghost use Rattle.replay_run.specs.Reports.{ReportsSink};
ghost use Rattle.replay_run.specs.Steps.{FailsInDump, HasRoom, IfItFits, IsIn, IsReached, Served};
ghost use Rattle.trace_text.specs.Replies.{reply_text};

use crate::halt::LoopExit;
use lisp_graph::{Areas, CommandHead, Reply, Request, World};
use outer_ports::{Sink, SinkBuffer};
use paged_machine::{DumpFault, Engine};
use std::alloc::Global;
use trace_text::{account_text, padded_text, reply_text};

/// Gathers a text after what is pending. It can't fail if the buffer has room for the text.
#[inline(always)]
fn gather<K: Sink>(buffer: &mut SinkBuffer, sink: &mut K, text: &[u8]) -> Result<(), LoopExit>
    ensures gathers { Gathers (K.stands sink.old) (K.stands sink.new) buffer.old.pending buffer.new.pending text.now result }
    ensures fits { IfItFits buffer.old (length text.now) (K.faults sink.old) (result ≡ Ok tt) }
    ensures room { buffer.new.room ≡ buffer.old.room }
    ensures write { IfErr result (λ halt. halt ≡ LoopExit.Write) }
    ensures sink { ReportsSink (result ≡ Err LoopExit.Write) (K.faults sink.old) (K.faults sink.new) (K.failed sink.new) }
{
    match buffer.gather(sink, text) {
        Ok(()) => Ok(()),
        Err(_) => Err(LoopExit::Write),
    }
}

/// Gathers the first `size` bytes of an array after what is pending, by a copy of the whole array. It can't fail if the buffer has room for them.
#[inline(always)]
fn gather_short<K: Sink, const N: usize>(
    buffer: &mut SinkBuffer,
    sink: &mut K,
    text: &[u8; N],
    size: usize,
) -> Result<(), LoopExit>
    requires at_most { N ≤ 64 }
    requires in_range { size ≤ N }
    ensures gathers { Gathers (K.stands sink.old) (K.stands sink.new) buffer.old.pending buffer.new.pending (take size text.now) result }
    ensures fits { IfItFits buffer.old size (K.faults sink.old) (result ≡ Ok tt) }
    ensures room { buffer.new.room ≡ buffer.old.room }
    ensures write { IfErr result (λ halt. halt ≡ LoopExit.Write) }
    ensures sink { ReportsSink (result ≡ Err LoopExit.Write) (K.faults sink.old) (K.faults sink.new) (K.failed sink.new) }
{
    match buffer.gather_short(sink, text, size) {
        Ok(()) => Ok(()),
        Err(_) => Err(LoopExit::Write),
    }
}

/// Gathers the line of a reply, which is composed in a buffer of its own. A line has at most 64 bytes.
#[inline(never)]
fn give_composed<K: Sink>(
    buffer: &mut SinkBuffer,
    sink: &mut K,
    reply: &Reply,
    areas: &Areas,
) -> Result<(), LoopExit>
    ensures gathers { Gathers (K.stands sink.old) (K.stands sink.new) buffer.old.pending buffer.new.pending (reply_text reply.now areas.now) result }
    ensures fits { IfItFits buffer.old 64 (K.faults sink.old) (result ≡ Ok tt) }
    ensures room { buffer.new.room ≡ buffer.old.room }
    ensures write { IfErr result (λ halt. halt ≡ LoopExit.Write) }
    ensures sink { ReportsSink (result ≡ Err LoopExit.Write) (K.faults sink.old) (K.faults sink.new) (K.failed sink.new) }
{
    let line = reply_text(reply, areas);
    let (text, size) = line.padded();
    gather_short(buffer, sink, text, size)
}

/// Gathers the line of a reply. Most lines are constants, and aren't composed. A line has at most 64 bytes.
#[inline(always)]
fn give_reply<K: Sink>(
    buffer: &mut SinkBuffer,
    sink: &mut K,
    reply: &Reply,
    areas: &Areas,
) -> Result<(), LoopExit>
    ensures gathers { Gathers (K.stands sink.old) (K.stands sink.new) buffer.old.pending buffer.new.pending (reply_text reply.now areas.now) result }
    ensures fits { IfItFits buffer.old 64 (K.faults sink.old) (result ≡ Ok tt) }
    ensures room { buffer.new.room ≡ buffer.old.room }
    ensures write { IfErr result (λ halt. halt ≡ LoopExit.Write) }
    ensures sink { ReportsSink (result ≡ Err LoopExit.Write) (K.faults sink.old) (K.faults sink.new) (K.failed sink.new) }
{
    match padded_text(reply) {
        Some((text, size)) => gather_short(buffer, sink, text, size),
        None => give_composed(buffer, sink, reply, areas),
    }
}

/// Gathers a line for each area: at most 16 lines of 64 bytes each.
fn give_accounts<K: Sink, E: Engine>(
    buffer: &mut SinkBuffer,
    sink: &mut K,
    engine: &E,
    world: &World,
) -> Result<(), LoopExit>
    requires { IsIn world.now (E.stands engine.now) }
    ensures gathers { (s : State) → E.stands engine.now s → IsReached world.now s
        → Gathers (K.stands sink.old) (K.stands sink.new) buffer.old.pending buffer.new.pending (answer_text world.now.areas (Accounts (area_lines s 0 s.areas))) result }
    ensures fits { HasRoom buffer.old (K.faults sink.old) → result ≡ Ok tt }
    ensures room { buffer.new.room ≡ buffer.old.room }
    ensures write { IfErr result (λ halt. halt ≡ LoopExit.Write) }
    ensures sink { ReportsSink (result ≡ Err LoopExit.Write) (K.faults sink.old) (K.faults sink.new) (K.failed sink.new) }
{
    let areas = world.areas.as_slice();
    for area in 0..areas.len() {
        let line = account_text(&areas[area], engine.account(area as u8));
        gather(buffer, sink, line.as_bytes())?;
    }
    Ok(())
}

/// Runs a command and gathers what is written for it. If the buffer has room for 1,024 bytes, the sink can fail only in a dump, which leaves the
/// machine unchanged.
#[inline(always)]
pub(crate) fn serve<K: Sink, E: Engine>(
    alloc: Global,
    buffer: &mut SinkBuffer,
    sink: &mut K,
    engine: &mut E,
    world: &World,
    command: &Request,
) -> Result<(), LoopExit>
    requires can { E.takes engine.old command.now }
    requires stands { IsIn world.now (E.stands engine.old) }
    ensures did { Served world.now command.now (E.stands engine.old) (E.stands engine.new) (E.faults engine.old) (E.faults engine.new)
        (K.stands sink.old) (K.stands sink.new) buffer.old.pending buffer.new.pending result }
    ensures fits { result ≡ Err LoopExit.Write → HasRoom buffer.old (K.faults sink.old)
        → FailsInDump command.now (E.stands engine.old) (E.stands engine.new) (E.faults engine.old) (E.faults engine.new) }
    ensures room { buffer.new.room ≡ buffer.old.room }
    ensures takes { (other : OneCommand) → E.takes engine.old other → E.takes engine.new other }
    ensures read { IfErr result (λ halt. halt ≢ LoopExit.Read) }
    ensures swap { IfErr result (λ halt. halt ≢ LoopExit.Swap) }
    ensures sink { ReportsSink (result ≡ Err LoopExit.Write) (K.faults sink.old) (K.faults sink.new) (K.failed sink.new) }
    ensures never_falls { E.faults engine.old ≤ E.faults engine.new }
{
    match command.parts().0 {
        CommandHead::Stats => give_accounts(buffer, sink, engine, world),
        CommandHead::Dump => match engine.dump(alloc, world) {
            Ok(text) => gather(buffer, sink, text.as_slice()),
            Err(DumpFault::NoMemory) => Err(LoopExit::Memory),
            Err(DumpFault::Swap(_)) => give_reply(buffer, sink, &Reply::Fault, &world.areas),
        },
        _ => {
            let reply = engine.answer(command);
            give_reply(buffer, sink, &reply, &world.areas)
        }
    }
}
