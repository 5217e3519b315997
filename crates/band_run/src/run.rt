//! The loop over the commands.
ghost use Rattle.std.specs.Prelude.{◌≡◌, ◌≢◌, ◌≤◌, [], Err, IfErr, OnOk};
ghost use Rattle.outer_ports.specs.Ports.{FailedLast, Rose};
ghost use Rattle.band_store.specs.Store.{closed};
ghost use Rattle.band_run.specs.Answers.{Answers};
ghost use Rattle.band_run.specs.Steps.{Acted, IsUsable, RanTo};

use crate::answers::answer;
use crate::reading::BandCommand;
use crate::reply::gather_reply;
use band_store::{BandDisk, BandStore};
use line_input::{RunError, RunStop};
use outer_ports::{Sink, SinkBuffer};
use std::alloc::Global;

/// Runs a command, and gathers its reply.
fn act<K: Sink, D: BandDisk>(
    alloc: Global,
    store: &mut BandStore,
    buffer: &mut SinkBuffer,
    sink: &mut K,
    disk: &mut D,
    command: &BandCommand,
) -> Result<(), RunStop>
    requires { IsUsable store.old (D.bytes disk.old) (D.images disk.old) }
    ensures did { Acted D.bytes D.space D.images D.clock D.images_since D.faults D.changes command.now store.old store.new disk.old disk.new
        (K.stands sink.old) (K.stands sink.new) buffer.old.pending buffer.new.pending result }
    ensures sound { OnOk result (IsUsable store.new (D.bytes disk.new) (D.images disk.new)) }
    ensures write { IfErr result (λ stop. stop ≡ RunStop.Write → Rose (K.faults sink.old) (K.faults sink.new)) }
    ensures last { IfErr result (λ stop. stop ≡ RunStop.Write → FailedLast (K.faults sink.old) (K.faults sink.new) (K.failed sink.new)) }
    ensures never_falls { K.faults sink.old ≤ K.faults sink.new }
    ensures no_fault { result ≢ Err RunStop.Write → K.faults sink.new ≡ K.faults sink.old }
    ensures device_never_falls { D.faults disk.old ≤ D.faults disk.new }
{
    let reply = match answer(alloc, store, disk, command) {
        Ok(reply) => reply,
        Err(_) => return Err(RunStop::Tell(RunError::Memory)),
    };
    match gather_reply(buffer, sink, &reply) {
        Ok(()) => Ok(()),
        Err(_) => Err(RunStop::Write),
    }
}

/// Answers one command after another, until the run has to stop.
pub fn run<K: Sink, D: BandDisk>(
    alloc: Global,
    commands: &[BandCommand],
    store: &mut BandStore,
    buffer: &mut SinkBuffer,
    sink: &mut K,
    disk: &mut D,
) -> Result<(), RunStop>
    requires fresh { store.old ≡ closed }
    requires empty { buffer.old.pending ≡ [] }
    ensures ran { RanTo (Answers D.bytes D.space D.images D.clock D.images_since D.faults D.changes disk.old disk.new) commands.now
        (K.stands sink.old) (K.stands sink.new) buffer.new.pending result }
    ensures write { IfErr result (λ stop. stop ≡ RunStop.Write → Rose (K.faults sink.old) (K.faults sink.new)) }
    ensures last { IfErr result (λ stop. stop ≡ RunStop.Write → FailedLast (K.faults sink.old) (K.faults sink.new) (K.failed sink.new)) }
    ensures never_falls { K.faults sink.old ≤ K.faults sink.new }
    ensures no_fault { result ≢ Err RunStop.Write → K.faults sink.new ≡ K.faults sink.old }
{
    for command in commands {
        act(alloc, store, buffer, sink, disk, command)?;
    }
    Ok(())
}
