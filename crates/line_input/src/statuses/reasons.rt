//! Error lines.
ghost use Rattle.std.specs.Prelude.{◌≡◌, OnErr};
ghost use Rattle.outer_ports.specs.Ports.{FailedLast, HasCause, Wrote};
ghost use Rattle.line_input.specs.Statuses.{error_line, exhausted_words, fixed_words, reason_words, trouble_line};

use crate::statuses::status::RunError;
use itoa::Buffer;
use outer_ports::{Sink, SinkFault, give_all, give_parts};
use world_text::Reason;

/// The words of a reason, without a number.
fn fixed_words(reason: Reason) -> &'static [u8]
    ensures { result.now ≡ fixed_words reason }
{
    match reason {
        Reason::TextAfterEnd => b"text after end",
        Reason::InputTooLong => b"input too long",
        Reason::LineTooLong => b"line too long",
        Reason::NoEnd => b"no end",
        Reason::NotAWorld => b"not a world",
        Reason::BadLine => b"bad line",
        Reason::SpaceExpected => b"space expected",
        Reason::AreaExpected => b"area expected",
        Reason::CapacityExpected => b"capacity expected",
        Reason::UnexpectedLine => b"unexpected line",
        Reason::UnknownCommand => b"unknown command",
        Reason::NoObject { .. } => b"no object",
        Reason::TooManyAreas => b"too many areas",
        Reason::TooManyFields => b"too many fields",
        Reason::TooManyItems => b"too many items",
        Reason::WrongCount => b"wrong count",
        Reason::BadNumber => b"bad number",
        Reason::BadName => b"bad name",
        Reason::AreaTwice => b"area twice",
        Reason::BadKind => b"bad kind",
        Reason::NoArea => b"no area",
        Reason::NoRegister => b"no register",
        Reason::RegisterTwice => b"register twice",
        Reason::BadValue => b"bad value",
        Reason::BadLevels => b"bad levels",
    }
}

/// Writes the error line with these words for the line of this number.
pub fn write_error<K: Sink>(sink: &mut K, line: u64, words: &[u8]) -> Result<(), SinkFault>
    ensures written { Wrote (K.stands sink.old) (K.stands sink.new) (error_line line words.now) result }
    ensures cause { HasCause (K.faults sink.old) (K.faults sink.new) result }
    ensures last { OnErr result (FailedLast (K.faults sink.old) (K.faults sink.new) (K.failed sink.new)) }
{
    let mut digits = Buffer::new();
    let number = digits.format(line).as_bytes();
    give_parts(sink, &[b"error line ", number, b": ", words, b"\n"])
}

/// Writes the error line for a line that names an object that doesn't exist.
fn write_no_object<K: Sink>(sink: &mut K, line: u64, object: u32) -> Result<(), SinkFault>
    ensures written { Wrote (K.stands sink.old) (K.stands sink.new) (error_line line (reason_words (Reason.NoObject object))) result }
    ensures cause { HasCause (K.faults sink.old) (K.faults sink.new) result }
    ensures last { OnErr result (FailedLast (K.faults sink.old) (K.faults sink.new) (K.failed sink.new)) }
{
    let mut digits = Buffer::new();
    let number = digits.format(line).as_bytes();
    let mut more_digits = Buffer::new();
    let missing = more_digits.format(object).as_bytes();
    give_parts(
        sink,
        &[b"error line ", number, b": no object ", missing, b"\n"],
    )
}

/// Writes the error line with this reason for the line of this number.
fn write_reason<K: Sink>(sink: &mut K, line: u64, reason: Reason) -> Result<(), SinkFault>
    ensures written { Wrote (K.stands sink.old) (K.stands sink.new) (error_line line (reason_words reason)) result }
    ensures cause { HasCause (K.faults sink.old) (K.faults sink.new) result }
    ensures last { OnErr result (FailedLast (K.faults sink.old) (K.faults sink.new) (K.failed sink.new)) }
{
    match reason {
        Reason::NoObject { object } => write_no_object(sink, line, object),
        _ => write_error(sink, line, fixed_words(reason)),
    }
}

/// Writes the error line for a line whose objects exceed a quota.
fn write_exhausted<K: Sink>(
    sink: &mut K,
    line: u64,
    area: &[u8],
    charged: u32,
    wanted: u32,
    quota: u32,
) -> Result<(), SinkFault>
    ensures written { Wrote (K.stands sink.old) (K.stands sink.new) (error_line line (exhausted_words area.now charged wanted quota)) result }
    ensures cause { HasCause (K.faults sink.old) (K.faults sink.new) result }
    ensures last { OnErr result (FailedLast (K.faults sink.old) (K.faults sink.new) (K.failed sink.new)) }
{
    let mut first = Buffer::new();
    let mut second = Buffer::new();
    let mut third = Buffer::new();
    let mut fourth = Buffer::new();
    give_parts(
        sink,
        &[
            b"error line ",
            first.format(line).as_bytes(),
            b": exhausted ",
            area,
            b" ",
            second.format(charged).as_bytes(),
            b" ",
            third.format(wanted).as_bytes(),
            b" ",
            fourth.format(quota).as_bytes(),
            b"\n",
        ],
    )
}

/// Writes the error line for a requested object that doesn't exist.
fn write_missing<K: Sink>(sink: &mut K, object: u32) -> Result<(), SinkFault>
    ensures written { Wrote (K.stands sink.old) (K.stands sink.new) (trouble_line (RunError.NoObject object)) result }
    ensures cause { HasCause (K.faults sink.old) (K.faults sink.new) result }
    ensures last { OnErr result (FailedLast (K.faults sink.old) (K.faults sink.new) (K.failed sink.new)) }
{
    let mut digits = Buffer::new();
    give_parts(
        sink,
        &[
            b"error: no object ",
            digits.format(object).as_bytes(),
            b"\n",
        ],
    )
}

/// Writes the error line of a trouble.
pub fn write_trouble<K: Sink>(sink: &mut K, trouble: &RunError) -> Result<(), SinkFault>
    ensures written { Wrote (K.stands sink.old) (K.stands sink.new) (trouble_line trouble.now) result }
    ensures cause { HasCause (K.faults sink.old) (K.faults sink.new) result }
    ensures last { OnErr result (FailedLast (K.faults sink.old) (K.faults sink.new) (K.failed sink.new)) }
{
    match trouble {
        RunError::Line(line, reason) => write_reason(sink, *line, *reason),
        RunError::TooSmall(line) => write_error(sink, *line, b"space too small"),
        RunError::Exhausted {
            line,
            area,
            charged,
            wanted,
            quota,
        } => write_exhausted(sink, *line, area.as_bytes(), *charged, *wanted, *quota),
        RunError::Read => give_all(sink, b"error: read failed\n"),
        RunError::Memory => give_all(sink, b"error: no memory\n"),
        RunError::Swap => give_all(sink, b"error: swap failed\n"),
        RunError::Usage => give_all(sink, b"error: usage\n"),
        RunError::NoObject(object) => write_missing(sink, *object),
    }
}
