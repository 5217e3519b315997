//! Why a file gets no answer, and the error line for that.
ghost use Rattle.std.specs.Prelude.{◌≡◌, ◌≢◌, ◌≤◌, OnErr};
ghost use Rattle.outer_ports.specs.Ports.{FailedLast, HasCause, Rose, Wrote};
ghost use Rattle.line_input.specs.Statuses.{Closed, error_line};
ghost use Rattle.file_modes.specs.FileError.{fault_line, fault_status, fixed_words, label_words, reason_line, status_of, trouble_line};

use itoa::Buffer;
use line_input::{RunError, Status, tell_line};
use outer_ports::{Sink, SinkFault, give_parts};
use sexpr_text::{SexprFault, SexprReason};

/// Why a file gets no answer.
#[derive(Debug, Drop)]
pub enum FileError {
    /// A trouble that an input of lines can have, too: a line of a world file is refused, the world has no object with the
    /// requested number, the source failed, or memory ran out.
    Input(RunError),
    /// A text of S-expressions gives no world.
    Text(SexprFault),
}

/// The words of a reason that only a text of S-expressions has, without a number.
fn fixed_words(reason: SexprReason) -> &'static [u8]
    ensures { result.now ≡ fixed_words reason }
{
    match reason {
        SexprReason::Header(_) => b"",
        SexprReason::BadToken => b"bad token",
        SexprReason::BadForm => b"bad form",
        SexprReason::NoRegister => b"no register",
        SexprReason::RegisterTwice => b"register twice",
        SexprReason::NoArea => b"no area",
        SexprReason::BadNumber => b"bad number",
        SexprReason::TooManyFields => b"too many fields",
        SexprReason::LabelTwice => b"label twice",
        SexprReason::NoLabel { .. } => b"no label",
        SexprReason::NoEnd => b"no end",
        SexprReason::TextAfterEnd => b"text after end",
        SexprReason::InputTooLong => b"input too long",
    }
}

/// Writes the error line for a line that names a label that doesn't exist.
fn write_no_label<K: Sink>(sink: &mut K, line: u64, label: u32) -> Result<(), SinkFault>
    ensures written { Wrote (K.stands sink.old) (K.stands sink.new) (error_line line (label_words label)) result }
    ensures cause { HasCause (K.faults sink.old) (K.faults sink.new) result }
    ensures last { OnErr result (FailedLast (K.faults sink.old) (K.faults sink.new) (K.failed sink.new)) }
{
    let mut digits = Buffer::new();
    let number = digits.format(line).as_bytes();
    let mut more_digits = Buffer::new();
    let missing = more_digits.format(label).as_bytes();
    give_parts(
        sink,
        &[b"error line ", number, b": no label ", missing, b"\n"],
    )
}

/// Writes the error line for a line that names a label that doesn't exist, and returns `Refused`, or `WriteFailed` if the sink failed.
fn tell_label<K: Sink>(sink: &mut K, line: u64, label: u32) -> Status
    ensures written { Closed (K.stands sink.old) (K.stands sink.new) (error_line line (label_words label)) Status.Refused result }
    ensures write { result ≡ Status.WriteFailed → Rose (K.faults sink.old) (K.faults sink.new) }
    ensures last { result ≡ Status.WriteFailed → FailedLast (K.faults sink.old) (K.faults sink.new) (K.failed sink.new) }
    ensures never_falls { K.faults sink.old ≤ K.faults sink.new }
    ensures no_fault { result ≢ Status.WriteFailed → K.faults sink.new ≡ K.faults sink.old }
{
    match write_no_label(sink, line, label) {
        Ok(()) => Status::Refused,
        Err(_) => Status::WriteFailed,
    }
}

/// Writes the error line with this reason for the line of this number, and returns `Refused`, or `WriteFailed` if the sink failed.
fn tell_reason<K: Sink>(sink: &mut K, line: u64, reason: SexprReason) -> Status
    ensures written { Closed (K.stands sink.old) (K.stands sink.new) (reason_line line reason) Status.Refused result }
    ensures write { result ≡ Status.WriteFailed → Rose (K.faults sink.old) (K.faults sink.new) }
    ensures last { result ≡ Status.WriteFailed → FailedLast (K.faults sink.old) (K.faults sink.new) (K.failed sink.new) }
    ensures never_falls { K.faults sink.old ≤ K.faults sink.new }
    ensures no_fault { result ≢ Status.WriteFailed → K.faults sink.new ≡ K.faults sink.old }
{
    match reason {
        SexprReason::Header(reason) => line_input::report(sink, &RunError::Line(line, reason)),
        SexprReason::NoLabel { label } => tell_label(sink, line, label),
        _ => tell_line(sink, line, fixed_words(reason)),
    }
}

/// Writes the error line of a text that gives no world, and returns its status, or `WriteFailed` if the sink failed.
fn tell_fault<K: Sink>(sink: &mut K, fault: SexprFault) -> Status
    ensures written { Closed (K.stands sink.old) (K.stands sink.new) (fault_line fault) (fault_status fault) result }
    ensures write { result ≡ Status.WriteFailed → Rose (K.faults sink.old) (K.faults sink.new) }
    ensures last { result ≡ Status.WriteFailed → FailedLast (K.faults sink.old) (K.faults sink.new) (K.failed sink.new) }
    ensures never_falls { K.faults sink.old ≤ K.faults sink.new }
    ensures no_fault { result ≢ Status.WriteFailed → K.faults sink.new ≡ K.faults sink.old }
{
    match fault {
        SexprFault::Bad { line, reason } => tell_reason(sink, line, reason),
        SexprFault::TooSmall { line } => line_input::report(sink, &RunError::TooSmall(line)),
        SexprFault::NoMemory => line_input::report(sink, &RunError::Memory),
    }
}

/// Writes the error line of a trouble, and returns its status, or `WriteFailed` if the sink failed.
pub fn report_file_error<K: Sink>(sink: &mut K, trouble: &FileError) -> Status
    ensures written { Closed (K.stands sink.old) (K.stands sink.new) (trouble_line trouble.now) (status_of trouble.now) result }
    ensures write { result ≡ Status.WriteFailed → Rose (K.faults sink.old) (K.faults sink.new) }
    ensures last { result ≡ Status.WriteFailed → FailedLast (K.faults sink.old) (K.faults sink.new) (K.failed sink.new) }
    ensures never_falls { K.faults sink.old ≤ K.faults sink.new }
    ensures no_fault { result ≢ Status.WriteFailed → K.faults sink.new ≡ K.faults sink.old }
{
    match trouble {
        FileError::Input(trouble) => line_input::report(sink, trouble),
        FileError::Text(fault) => tell_fault(sink, *fault),
    }
}
