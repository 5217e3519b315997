//! Memory that runs out at a dump.
ghost use Rattle.std.specs.Prelude.{◌≡◌, is_some, true};
ghost use Rattle.paged_machine.specs.Holding.{StandsFor, Takes};

use super::run::bytes_of;
use line_input::Status;
use lisp_graph::{Reply, Request, Text, World};
use outer_ports::{SinkBytes, SourceBytes, SwapMemory};
use paged_machine::{DumpFault, Engine, LoadFault};
use replay_run::{Machine, answer_input};
use std::alloc::Global;
use std::process::Abort;
use std::test::Fail;

/// A machine that has no memory for a dump.
#[derive(Drop)]
struct NoRoom {
    machine: Machine<SwapMemory>,
}

impl Engine for NoRoom {
    ghost stands = { λ e. StandsFor e.machine.heap };

    ghost takes = { λ e. Takes e.machine.heap };

    ghost is_idle = { λ e. e.machine.idle ≡ true };

    ghost loaded = { λ e. is_some e.machine.heap };

    ghost faults = { λ e. e.machine.faults };

    fn open(&mut self, alloc: Global, world: &World) -> Result<(), LoadFault> {
        self.machine.open(alloc, world)
    }

    fn answer(&mut self, command: &Request) -> Reply {
        self.machine.answer(command)
    }

    fn account(&self, area: u8) -> u32 {
        self.machine.account(area)
    }

    fn dump(&mut self, _alloc: Global, _world: &World) -> Result<Text, DumpFault> {
        Err(DumpFault::NoMemory)
    }

    fn idle_has_no_world(&self) {
        self.machine.idle_has_no_world();
    }
}

/// Inputs, and what is written.
const ENDED: [(&str, &str); 2] = [
    (
        "lispm-world 1;space 16 32 8 1 2;area work dynamic 100;trace;dump;set 0 5;end;",
        "error: no memory;",
    ),
    (
        "lispm-world 1;space 16 32 8 1 2;area work dynamic 100;trace;set 0 5;stats;dump;set 0 6;end;",
        "ok;area work 0 100;error: no memory;",
    ),
];

/// Answers an input on such a machine.
fn answered(alloc: Global, source: &mut SourceBytes, sink: &mut SinkBytes) -> Status {
    let machine = Machine::idle(SwapMemory::new(alloc, 0));
    let mut engine = NoRoom { machine };
    answer_input(alloc, source, sink, &mut engine)
}

/// Compares how such a run of an input ends.
fn ends(rt: &impl Abort, alloc: Global, input: &str, want: &str) -> Result<(), Fail> {
    let mut source = SourceBytes::new(bytes_of(alloc, input)?, 10, Vec::new(alloc));
    let mut sink = SinkBytes::new(alloc, 1000, 10, Vec::new(alloc))?;
    let status = answered(alloc, &mut source, &mut sink);
    let want = bytes_of(alloc, want)?;
    assert!(rt;
        status == Status::NoMemory && sink.bytes() == want.as_slice(),
        "{input}"
    );
    Ok(())
}

/// If memory runs out at a dump the run ends, after the replies of the commands before it.
#[test]
fn no_room_for_a_dump(rt: HostRuntime) -> Result<(), Fail> {
    for (input, want) in ENDED {
        ends(&rt, rt.alloc(), input, want)?;
    }
    Ok(())
}
