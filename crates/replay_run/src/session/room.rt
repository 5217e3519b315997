//! Room for the part of an answer that isn't in the session's buffer.
ghost use Rattle.std.specs.Prelude.{◌≡◌, ◌<◌, ◌≤◌, [], length, take, vec_capacity, decimal, is_err, IfOk, OnErr};
ghost use Rattle.outer_ports.specs.Ports.{Gained, HasCause, next_count};
ghost use Rattle.line_input.specs.Statuses.{reason_words, status_of, trouble_line};

use line_input::{RunError, Status, report};
use outer_ports::{NoMemory, Sink, SinkFault};
use std::alloc::Global;
use world_text::Reason;

/// The number of bytes that always fit: more than an error line has.
const ROOM: usize = 256;

/// A sink in memory. Up to 256 bytes always fit, so an error line does; more bytes, which a dump may have, allocate memory.
#[derive(Drop)]
pub(crate) struct AnswerRoom {
    pub bytes: Vec<u8>,
    pub faults: u64,
    pub failed: bool,
    pub ghost room: { 256 ≤ vec_capacity bytes },
    pub ghost full: { 0 < faults → 256 ≤ length bytes.items },
}

/// A number has at most 20 digits.
fn numbers_are_short(number: u64)
    ensures { length (decimal number) ≤ 20 }
{}

/// The words of a reason have at most 40 bytes.
fn reasons_are_short(reason: Reason)
    ensures { length (reason_words reason) ≤ 40 }
{
    match reason {
        Reason::NoObject { object } => numbers_are_short(u64::from(object)),
        _ => {}
    }
}

/// An error line has at most 200 bytes.
fn error_lines_are_short(trouble: &RunError)
    ensures { length (trouble_line trouble.now) ≤ 200 }
{
    match trouble {
        RunError::Line(line, reason) => {
            numbers_are_short(*line);
            reasons_are_short(*reason);
        }
        RunError::TooSmall(line) => numbers_are_short(*line),
        RunError::Exhausted {
            line,
            area,
            charged,
            wanted,
            quota,
        } => {
            numbers_are_short(*line);
            numbers_are_short(u64::from(*charged));
            numbers_are_short(u64::from(*wanted));
            numbers_are_short(u64::from(*quota));
            let _area = area.as_bytes();
        }
        RunError::NoObject(object) => numbers_are_short(u64::from(*object)),
        RunError::Read | RunError::Memory | RunError::Swap | RunError::Usage => {}
    }
}

impl AnswerRoom {
    /// A room without bytes.
    pub fn new(alloc: Global) -> Result<AnswerRoom, NoMemory>
        ensures bytes { IfOk result (λ room. room.bytes.items ≡ []) }
        ensures no_fault { IfOk result (λ room. room.faults ≡ 0) }
    {
        let bytes = Vec::with_capacity(alloc, ROOM)?;
        Ok(AnswerRoom {
            bytes,
            faults: 0,
            failed: false,
        })
    }

    /// Drops its bytes, and resets its count of failed calls.
    pub fn clear(&mut self)
        ensures bytes { self.new.bytes.items ≡ [] }
        ensures no_fault { self.new.faults ≡ 0 }
    {
        self.bytes.clear();
        self.faults = 0;
        self.failed = false;
    }

    /// Writes the error line of a trouble into the empty room, and returns its status.
    pub fn tell(&mut self, trouble: RunError) -> Status
        requires empty { self.old.bytes.items ≡ [] }
        requires no_fault { self.old.faults ≡ 0 }
        ensures value { result ≡ status_of trouble }
        ensures bytes { self.new.bytes.items ≡ trouble_line trouble }
    {
        error_lines_are_short(&trouble);
        report(self, &trouble)
    }
}

impl Sink for AnswerRoom {
    ghost stands = { λ s had. s.bytes.items ≡ had };

    ghost faults = { λ s. s.faults };

    ghost failed = { λ s. s.failed };

    fn give(&mut self, piece: &[u8]) -> Result<usize, SinkFault>
        requires { 0 < length piece.now }
        ensures some { IfOk result (λ n. 0 < n) }
        ensures fits { IfOk result (λ n. n ≤ length piece.now) }
        ensures written { IfOk result (λ n. Gained (λ had. self.old.bytes.items ≡ had) (λ had. self.new.bytes.items ≡ had) (take n piece.now)) }
        ensures err { OnErr result (Gained (λ had. self.old.bytes.items ≡ had) (λ had. self.new.bytes.items ≡ had) []) }
        ensures cause { HasCause self.old.faults self.new.faults result }
        ensures failed { self.new.failed ≡ is_err result }
        ensures once { OnErr result (self.new.faults ≡ next_count self.old.faults) }
    {
        let mut count = piece.len();
        if self.bytes.len() < ROOM {
            count = count.min(ROOM - self.bytes.len());
        }
        match self.bytes.extend_from_slice(&piece[..count]) {
            Ok(()) => {
                self.failed = false;
                Ok(count)
            }
            Err(_) => {
                self.faults = self.faults.saturating_add(1);
                self.failed = true;
                Err(SinkFault)
            }
        }
    }
}
