//! Whole inputs.
ghost use Rattle.std.specs.Prelude.{◌≡◌, ◌≢◌, ◌⊎◌, []};
ghost use Rattle.line_input.specs.Statuses.{code};
ghost use Rattle.command_words.specs.Words.{mode_of};
ghost use Rattle.inside_run.specs.Outcome.{fail_of};
ghost use Rattle.byte_run.specs.Answered.{Does, IsAnswer, IsShown, RanOut, ShowsFor};

use crate::source::SourceSlice;
use argument_bytes::arguments_of;
use inside_run::{fail_number, run_inside};
use line_input::{RunError, Status, report};
use outer_ports::{SinkVec, SwapMemory};
use replay_run::{Machine, run_lispm};
use std::alloc::Global;

/// The status with which a run ended, and everything that it wrote.
#[derive(Drop)]
pub struct Written {
    /// The status of the program.
    pub status: u8,
    /// What it wrote.
    pub bytes: Vec<u8>,
}

/// What was written, or nothing and status 5 if there was no memory for it.
fn answer_of(alloc: Global, status: u8, sink: SinkVec) -> Written
    ensures { ((result.status ≡ 5) × (result.bytes.items ≡ [])) ⊎ ((result.status ≡ status) × (result.bytes ≡ sink.bytes) × (status ≢ 1)) }
{
    if status == 1 {
        return Written {
            status: 5,
            bytes: Vec::new(alloc),
        };
    }
    Written {
        status,
        bytes: sink.bytes,
    }
}

/// Runs `lispm` with these arguments over the input, into an empty sink, and returns the status.
fn run_words(alloc: Global, words: &[String], input: &[u8], sink: &mut SinkVec) -> u8
    requires { sink.old.bytes.items ≡ [] }
    ensures { (status : Status) × (result ≡ code status) × Does (mode_of words.now) input.now sink.new.bytes.items status }
{
    let mut source = SourceSlice {
        left: input,
        last: 0,
    };
    let mut machine = Machine::idle(SwapMemory::new(alloc, 0));
    run_lispm(alloc, words, &mut source, sink, &mut machine)
}

/// Runs `lispm_inside` in the same way.
fn run_inside_words(alloc: Global, words: &[String], input: &[u8], sink: &mut SinkVec) -> u8
    requires { sink.old.bytes.items ≡ [] }
    ensures { (status : Status) × (result ≡ code status) × ShowsFor (fail_of words.now) input.now sink.new.bytes.items status }
{
    let mut source = SourceSlice {
        left: input,
        last: 0,
    };
    let fail = fail_number(words).unwrap_or(0);
    let device = SwapMemory::new(alloc, fail);
    run_inside(alloc, words, &mut source, sink, device).status
}

/// Does everything that the program `lispm` does: returns its status and what it writes. The arguments are those after the program's name, each
/// followed by a NUL byte. If there is no memory for the answer, the status is 5.
pub fn run_lispm_bytes(alloc: Global, arguments: &[u8], input: &[u8]) -> Written
    ensures { RanOut result.bytes.items result.status ⊎ IsAnswer arguments.now input.now result.bytes.items result.status }
{
    let mut sink = SinkVec::new(alloc);
    let status = match arguments_of(alloc, arguments) {
        Ok(Some(words)) => run_words(alloc, words.as_slice(), input, &mut sink),
        Ok(None) => report(&mut sink, &RunError::Usage).code(),
        Err(_) => report(&mut sink, &RunError::Memory).code(),
    };
    answer_of(alloc, status, sink)
}

/// Does everything that the program `lispm_inside` does; the page call with the number in the arguments fails.
pub fn run_inside_bytes(alloc: Global, arguments: &[u8], input: &[u8]) -> Written
    ensures { RanOut result.bytes.items result.status ⊎ IsShown arguments.now input.now result.bytes.items result.status }
{
    let mut sink = SinkVec::new(alloc);
    let status = match arguments_of(alloc, arguments) {
        Ok(Some(words)) => run_inside_words(alloc, words.as_slice(), input, &mut sink),
        Ok(None) => report(&mut sink, &RunError::Usage).code(),
        Err(_) => report(&mut sink, &RunError::Memory).code(),
    };
    answer_of(alloc, status, sink)
}
