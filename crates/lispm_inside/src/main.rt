//! Answers an input as `lispm replay` does, from standard input to standard output, and writes the machine after the replies. The swap device is
//! in memory. An argument that isn't UTF-8 is a usage error; if memory runs out while the arguments are read, it is reported as in a run.
#![tactic(auto)]

use inside_run::{fail_number, run_inside};
use line_input::{read_arguments, report};
use outer_ports::{SinkWrite, SourceRead, SwapMemory};
use std::io;
use std::process::ExitCode;

fn main(rt: HostRuntime) -> ExitCode {
    let mut source = SourceRead::new(rt.reader());
    let mut sink = SinkWrite::new(io::writer(&rt));
    let words = match read_arguments(&rt) {
        Ok(words) => words,
        Err(trouble) => return ExitCode::from(report(&mut sink, &trouble).code()),
    };
    let fail = fail_number(&words).unwrap_or(0);
    let device = SwapMemory::new(rt.alloc(), fail);
    let ended = run_inside(rt.alloc(), &words, &mut source, &mut sink, device);
    ExitCode::from(ended.status)
}
