//! Runs over saved bands, from standard input to standard output, on a disk in memory that has no bands at first. An argument that isn't UTF-8
//! is a usage error, as any other argument is; if memory runs out while the arguments are read, it is reported as in a run.
#![tactic(auto)]

use band_run::{new_disk, run_bands};
use line_input::{RunError, read_arguments, report};
use outer_ports::{SinkWrite, SourceRead};
use std::io;
use std::process::ExitCode;

fn main(rt: HostRuntime) -> ExitCode {
    let mut source = SourceRead::new(rt.reader());
    let mut sink = SinkWrite::new(io::writer(&rt));
    let mut disk = match new_disk(rt.alloc()) {
        Ok(disk) => disk,
        Err(_) => return ExitCode::from(report(&mut sink, &RunError::Memory).code()),
    };
    let words = match read_arguments(&rt) {
        Ok(words) => words,
        Err(trouble) => return ExitCode::from(report(&mut sink, &trouble).code()),
    };
    let status = run_bands(rt.alloc(), &words, &mut source, &mut sink, &mut disk);
    ExitCode::from(status)
}
