//! Does what its arguments request, from standard input to standard output: it replays commands, runs a generated input, or answers about a
//! file. The swap device is in memory. An argument that isn't UTF-8 is a usage error; if memory runs out while the arguments are read, it is
//! reported as in a run.
#![tactic(auto)]

use line_input::{read_arguments, report};
use outer_ports::{SinkWrite, SourceRead, SwapMemory};
use replay_run::{Machine, run_lispm};
use std::io;
use std::process::ExitCode;

fn main(rt: HostRuntime) -> ExitCode {
    let mut source = SourceRead::new(rt.reader());
    let mut sink = SinkWrite::new(io::writer(&rt));
    let words = match read_arguments(&rt) {
        Ok(words) => words,
        Err(trouble) => return ExitCode::from(report(&mut sink, &trouble).code()),
    };
    let mut machine = Machine::idle(SwapMemory::new(rt.alloc(), 0));
    let status = run_lispm(rt.alloc(), &words, &mut source, &mut sink, &mut machine);
    ExitCode::from(status)
}
