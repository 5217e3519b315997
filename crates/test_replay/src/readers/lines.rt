//! Lines over pieces of an input, and error lines.
ghost use Rattle.std.specs.Prelude.{◌≡◌, ◌≤◌, ◌^◌, [], true};

use line_input::{InputReader, LineReader, LineSpan, RunError, RunStop, Status, finish};
use lisp_graph::Name;
use outer_ports::{SinkBuffer, SinkBytes, SourceBytes};
use std::alloc::Global;
use std::process::Abort;
use std::test::Fail;
use world_text::Reason;

/// An input has at most this many bytes.
const LONGEST_INPUT: u64 = 1 << 40;

/// Compares the next line.
fn next_is(
    rt: &impl Abort,
    reader: &mut LineReader,
    source: &mut SourceBytes,
    line: &[u8],
) -> Result<(), Fail>
    requires { reader.old.ended ≡ true → source.old.left ≡ [] }
    ensures { reader.new.ended ≡ true → source.new.left ≡ [] }
{
    if let Ok(Some(found)) = reader.next(source, 32_769) {
        assert_eq!(rt; &reader.bytes()[..found.length], line);
        reader.pass(found.size);
    }
    Ok(())
}

/// The lines of an input, whatever the pieces in which it arrives.
#[test]
fn lines(rt: HostRuntime) -> Result<(), Fail> {
    let alloc = rt.alloc();
    for piece in [1, 2, 100] {
        let bytes = Vec::from_slice(alloc, b"one\n\ntwo")?;
        let mut source = SourceBytes::new(bytes, piece, Vec::new(alloc));
        let mut reader = LineReader::new(alloc)?;
        next_is(&rt, &mut reader, &mut source, b"one")?;
        next_is(&rt, &mut reader, &mut source, b"")?;
        next_is(&rt, &mut reader, &mut source, b"two")?;
        assert!(rt; reader.is_ended());
    }
    Ok(())
}

/// The next line of an input that arrives byte by byte, if this many bytes are enough.
fn front_is(
    rt: &impl Abort,
    alloc: Global,
    input: &[u8],
    enough: usize,
    front: Option<LineSpan>,
) -> Result<(), Fail>
    requires at_least { 1 ≤ enough }
    requires in_range { enough ≤ 32769 }
{
    let bytes = Vec::from_slice(alloc, input)?;
    let mut source = SourceBytes::new(bytes, 1, Vec::new(alloc));
    let mut reader = LineReader::new(alloc)?;
    if let Ok(found) = reader.next(&mut source, enough) {
        assert!(rt; found == front);
    }
    Ok(())
}

/// A line ends at its line feed, at the end of the input, or when a prefix of it is enough.
#[test]
fn fronts(rt: HostRuntime) -> Result<(), Fail> {
    let alloc = rt.alloc();
    for (input, enough, length, size) in [
        (b"abcd\n".as_slice(), 3, 3, 3),
        (b"ab\ncd".as_slice(), 3, 2, 3),
        (b"ab".as_slice(), 3, 2, 2),
        (b"\nab".as_slice(), 1, 0, 1),
    ] {
        front_is(&rt, alloc, input, enough, Some(LineSpan { length, size }))?;
    }
    front_is(&rt, alloc, b"", 1, None)
}

/// What is pending, and the error line after it.
fn told(
    rt: &impl Abort,
    alloc: Global,
    stop: RunStop,
    status: Status,
    line: &[u8],
) -> Result<(), Fail> {
    let mut sink = SinkBytes::new(alloc, 100, 7, Vec::new(alloc))?;
    let mut buffer = SinkBuffer::new(alloc, 10)?;
    let answer = finish(&mut buffer, &mut sink, Err(stop));
    assert_eq!(rt; answer, status);
    assert_eq!(rt; sink.bytes(), line);
    Ok(())
}

#[test]
fn error_lines(rt: HostRuntime) -> Result<(), Fail> {
    let alloc = rt.alloc();
    told(
        &rt,
        alloc,
        RunStop::Tell(RunError::Line(4, Reason::NoObject { object: 7 })),
        Status::Refused,
        b"error line 4: no object 7\n",
    )?;
    told(
        &rt,
        alloc,
        RunStop::Tell(RunError::TooSmall(3)),
        Status::NoSpace,
        b"error line 3: space too small\n",
    )?;
    told(
        &rt,
        alloc,
        RunStop::Tell(RunError::NoObject(9)),
        Status::NoObject,
        b"error: no object 9\n",
    )?;
    if let Some(area) = Name::read(b"work") {
        let trouble = RunError::Exhausted {
            line: 5,
            area,
            charged: 2,
            wanted: 2,
            quota: 3,
        };
        told(
            &rt,
            alloc,
            RunStop::Tell(trouble),
            Status::NoSpace,
            b"error line 5: exhausted work 2 2 3\n",
        )?;
    }
    Ok(())
}

/// A place with this much room: that number of bytes may follow before the input is too long.
fn place_before(left: u64) -> InputReader<()>
    ensures { result.bytes ≤ 2 ^ 40 }
{
    InputReader {
        judge: (),
        lines: 0,
        bytes: LONGEST_INPUT.saturating_sub(left),
    }
}

/// The limits: whether the lines before are whole, how many bytes of the input remain, and the line's length and size.
#[test]
fn limits(rt: HostRuntime) -> Result<(), Fail> {
    for (whole, left, length, size, reason) in [
        (true, 100_000, 0, 1, Some(Reason::TextAfterEnd)),
        (false, 1, 0, 1, None),
        (false, 0, 0, 1, Some(Reason::InputTooLong)),
        (false, 32_769, 32_768, 32_769, None),
        (false, 32_768, 32_768, 32_769, Some(Reason::InputTooLong)),
        (false, 32_769, 60_000, 60_000, Some(Reason::LineTooLong)),
        (false, 100_000, 32_769, 32_769, Some(Reason::LineTooLong)),
    ] {
        assert_eq!(rt;
            place_before(left).broken_limit(whole, length, size),
            reason
        );
    }
    Ok(())
}

/// How many bytes of a line are enough: whether the lines before are whole, and how many bytes of the input remain.
#[test]
fn enough(rt: HostRuntime) -> Result<(), Fail> {
    for (whole, left, bytes) in [
        (true, 100_000, 1),
        (false, 100_000, 32_769),
        (false, 32_768, 32_769),
        (false, 32_767, 32_768),
        (false, 1, 2),
        (false, 0, 1),
    ] {
        assert!(rt; place_before(left).bytes_to_decide(whole) == bytes);
    }
    Ok(())
}
