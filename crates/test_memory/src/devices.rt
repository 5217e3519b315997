//! The devices in memory and the adapters, as tables of pieces, planned failures and rooms.
ghost use Rattle.std.specs.Prelude.{◌≡◌, ◌+◌, ◌*◌, ◌<◌, ◌≤◌, length};

use outer_ports::{
    Sink, SinkBuffer, SinkBytes, SinkFault, SinkTally, SinkWrite, Source, SourceBytes, SourceFault,
    SourceRead, Swap, SwapMemory, give_parts,
};
use std::alloc::{AllocError, Global};
use std::io;
use std::io::{Error, ErrorKind, Read, Write};
use std::test::Fail;
use store_word::{NoMemory, SwapFault, Word};

// What a source gives into a slice, up to its end: each piece after a bar, and `!` for an I/O error.
fn log_of<S: Source>(alloc: Global, source: &mut S, into: &mut [u8]) -> Result<Vec<u8>, AllocError>
    requires { 0 < length into.old }
{
    let mut log = Vec::new(alloc);
    for _ in 0..20 {
        match source.take(into) {
            Ok(0) => {
                log.push(b'.')?;
                return Ok(log);
            }
            Ok(count) => {
                log.push(b'|')?;
                log.extend_from_slice(&into[..count])?;
            }
            Err(SourceFault) => log.push(b'!')?,
        }
    }
    Ok(log)
}

// Bytes, the greatest piece, the calls that fail, the size of the slice, and the log.
const SOURCES: [(&[u8], usize, &[u64], usize, &[u8]); 5] = [
    (b"", 1, &[2], 4, b"."),
    (b"abcdefg", 3, &[], 8, b"|abc|def|g."),
    (b"abcdefg", 9, &[1, 3], 2, b"!|ab!|cd|ef|g."),
    (b"abc", 1, &[4], 8, b"|a|b|c!."),
    (b"abc", 1, &[2, 3, 5, 6], 1, b"|a!!|b!!|c."),
];

fn source(alloc: Global, bytes: &[u8], piece: usize, fails: &[u64]) -> Result<SourceBytes, Fail>
    requires { 0 < piece }
{
    let bytes = bytes.to_vec(alloc)?;
    Ok(SourceBytes::new(bytes, piece, fails.to_vec(alloc)?))
}

#[test]
fn sources_in_memory(rt: HostRuntime) -> Result<(), Fail> {
    for (bytes, piece, fails, size, want) in SOURCES {
        assert!(rt; 0 < piece && 0 < size && size <= 8);
        let mut source = source(rt.alloc(), bytes, piece, fails)?;
        let log = log_of(rt.alloc(), &mut source, &mut [0; 8][..size])?;
        assert!(rt; log.as_slice() == want);
    }
    Ok(())
}

// A room, the greatest piece, the calls that fail, the bytes that arrived, and whether all did.
const SINKS: [(usize, usize, &[u64], &[u8], bool); 7] = [
    (20, 20, &[], b"hello world", true),
    (20, 3, &[], b"hello world", true),
    (20, 3, &[3], b"hello", false),
    (20, 1, &[1], b"", false),
    (5, 2, &[], b"hello", false),
    (0, 1, &[], b"", false),
    (11, 4, &[5], b"hello world", true),
];

fn sink(alloc: Global, room: usize, piece: usize, fails: &[u64]) -> Result<SinkBytes, Fail>
    requires { 0 < piece }
{
    Ok(SinkBytes::new(alloc, room, piece, fails.to_vec(alloc)?)?)
}

#[test]
fn sinks_in_memory(rt: HostRuntime) -> Result<(), Fail> {
    for (room, piece, fails, want, is_whole) in SINKS {
        assert!(rt; 0 < piece);
        let mut sink = sink(rt.alloc(), room, piece, fails)?;
        let outcome = give_parts(&mut sink, &[b"hello", b"", b" world"]);
        assert!(rt; sink.bytes() == want && outcome.is_ok() == is_whole);
    }
    Ok(())
}

// A reader and a writer of at most `most` bytes a call, whose call number `fail` fails, counted from 1.
// Calls are noted: `!` for one that fails, and else `|` and the bytes.
#[derive(Drop)]
struct Fake {
    bytes: Vec<u8>,
    at: usize,
    most: usize,
    fail: u32,
    calls: u32,
}

impl Fake {
    fn new(bytes: Vec<u8>, most: usize, fail: u32) -> Fake {
        Fake {
            bytes,
            at: 0,
            most,
            fail,
            calls: 0,
        }
    }

    fn call(&mut self) -> io::Result<()> {
        self.calls = self.calls.saturating_add(1);
        if self.calls == self.fail {
            return Err(Error::from(ErrorKind::Other));
        }
        Ok(())
    }
}

impl Read for Fake {
    fn read(&mut self, buf: &mut [u8]) -> io::Result<usize> {
        self.call()?;
        let rest = self.bytes.get(self.at..).unwrap_or(&[]);
        let count = rest.len().min(buf.len()).min(self.most);
        buf[..count].copy_from_slice(&rest[..count]);
        self.at = self.at.saturating_add(count);
        Ok(count)
    }
}

impl Write for Fake {
    fn write(&mut self, buf: &[u8]) -> io::Result<usize> {
        self.call()?;
        let count = buf.len().min(self.most);
        self.bytes.push(b'|')?;
        self.bytes.extend_from_slice(&buf[..count])?;
        Ok(count)
    }

    fn flush(&mut self) -> io::Result<()> {
        Ok(())
    }
}

// How many bytes a call reads at most, the call that fails, and the log.
const READERS: [(usize, u32, &[u8]); 4] = [
    (1, 0, b"|a|b|c."),
    (1, 2, b"|a!|b|c."),
    (9, 1, b"!|abc."),
    (9, 2, b"|abc!."),
];

// What a reader gives through the adapter.
fn log_of_reader(alloc: Global, most: usize, fail: u32) -> Result<Vec<u8>, AllocError> {
    let mut source = SourceRead::new(Fake::new(b"abc".to_vec(alloc)?, most, fail));
    log_of(alloc, &mut source, &mut [0; 8])
}

#[test]
fn readers(rt: HostRuntime) -> Result<(), Fail> {
    for (most, fail, want) in READERS {
        assert!(rt; log_of_reader(rt.alloc(), most, fail)?.as_slice() == want);
    }
    Ok(())
}

// A writer's text after some replies were gathered in a buffer of this size, and flushed.
fn written(
    alloc: Global,
    room: usize,
    most: usize,
    fail: u32,
) -> Result<(Vec<u8>, bool), NoMemory> {
    let mut writer = Fake::new(Vec::new(alloc), most, fail);
    let mut buffer = SinkBuffer::new(alloc, room)?;
    let is_whole = {
        let mut sink = SinkWrite::new(&mut writer);
        gather_all(&mut buffer, &mut sink).is_ok()
    };
    Ok((writer.bytes, is_whole))
}

fn gather_all<K: Sink>(buffer: &mut SinkBuffer, sink: &mut K) -> Result<(), SinkFault> {
    for reply in [b"ok\n".as_slice(), b"5\n", b"cons\n"] {
        buffer.gather(sink, reply)?;
    }
    buffer.flush(sink)
}

// The size of the buffer, how many bytes a call writes at most, the call that fails, the calls, and whether all succeeded.
const WRITERS: [(usize, usize, u32, &[u8], bool); 7] = [
    (100, 100, 0, b"|ok\n5\ncons\n", true),
    (10, 100, 0, b"|ok\n5\ncons\n", true),
    (9, 100, 0, b"|ok\n5\n|cons\n", true),
    (0, 100, 0, b"|ok\n|5\n|cons\n", true),
    (100, 4, 3, b"|ok\n5|\ncon", false),
    (5, 2, 2, b"|ok", false),
    (100, 0, 0, b"|", false),
];

#[test]
fn writers_behind_a_buffer(rt: HostRuntime) -> Result<(), Fail> {
    for (room, most, fail, want, is_whole) in WRITERS {
        let (bytes, outcome) = written(rt.alloc(), room, most, fail)?;
        assert!(rt; bytes.as_slice() == want);
        assert!(rt; outcome == is_whole);
    }
    Ok(())
}

// Replies, and how many there are: all, and those of `exhausted`, `wrong-type`, `reclaimed` and `fault`.
const TALLIES: [(&[u8], [u64; 5]); 5] = [
    (b"", [0, 0, 0, 0, 0]),
    (b"ok\n\nfault", [2, 0, 0, 0, 0]),
    (
        b"fault\nfault a\n fault\nfaults\nan fault\n",
        [5, 0, 0, 0, 2],
    ),
    (
        b"exhausted work 3 2 1\nexhausted\nexhausteds\n",
        [3, 2, 0, 0, 0],
    ),
    (
        b"wrong-type\nwrong-types\nwrong-type \nreclaimed\nreclaim\n",
        [5, 0, 2, 1, 0],
    ),
];

// The counts of a text that is given in two pieces, cut at this place or at its end.
fn counts(text: &[u8], cut: usize) -> [u64; 5] {
    let cut = text.len().min(cut);
    let mut sink = SinkTally::new();
    if give_parts(&mut sink, &[&text[..cut], &text[cut..]]).is_err() {
        return [0; 5];
    }
    let tally = sink.tally();
    [
        tally.replies,
        tally.exhausted,
        tally.wrong_type,
        tally.reclaimed,
        tally.fault,
    ]
}

#[test]
fn tallies(rt: HostRuntime) {
    for (text, want) in TALLIES {
        for cut in [0, 1, 7, 100] {
            assert!(rt; counts(text, cut) == want);
        }
    }
}

// The digit of the number in a page's words, `n` for a page without numbers, and `!` for a swap error.
fn page_of<D: Swap>(device: &mut D, page: u32) -> u8
    requires { 256 * page + 256 ≤ length (D.stored device.old) }
    ensures { D.stored device.new ≡ D.stored device.old }
{
    let mut words = [Word::fixnum(0); 256];
    match device.read_page(page, &mut words) {
        Ok(()) => match words[255].number() {
            Some(7) => b'7',
            Some(8) => b'8',
            _ => b'n',
        },
        Err(SwapFault) => b'!',
    }
}

// Writes a page of this number: `w`, or `!` for a swap error.
fn wrote<D: Swap>(device: &mut D, page: u32, number: i32) -> u8
    requires { 256 * page + 256 ≤ length (D.stored device.old) }
    ensures { length (D.stored device.new) ≡ length (D.stored device.old) }
{
    match device.write_page(page, &[Word::fixnum(number); 256]) {
        Ok(()) => b'w',
        Err(SwapFault) => b'!',
    }
}

// The call that fails, and the log.
const SWAPS: [(u32, &[u8]); 7] = [
    (0, b"w7w87"),
    (1, b"!nw8n"),
    (2, b"w!w87"),
    (3, b"w7!n7"),
    (4, b"w7w!7"),
    (5, b"w7w8!"),
    (6, b"w7w87"),
];

// The results of five page calls, at pages 1 and 0.
fn log_of_swap<D: Swap>(device: &mut D) -> [u8; 5]
    requires { length (D.stored device.old) ≡ 512 }
{
    [
        wrote(device, 1, 7),
        page_of(device, 1),
        wrote(device, 0, 8),
        page_of(device, 0),
        page_of(device, 1),
    ]
}

#[test]
fn swaps_in_memory(rt: HostRuntime) -> Result<(), Fail> {
    for (fail, want) in SWAPS {
        let mut device = SwapMemory::new(rt.alloc(), fail);
        device.prepare(rt.alloc(), 2).ok().ok_or("no memory")?;
        assert!(rt; log_of_swap(&mut device).as_slice() == want);
    }
    Ok(())
}
