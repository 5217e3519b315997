//! One run over devices in memory, and what is compared of it.
use outer_ports::{SinkBytes, Source, SourceBytes, SwapMemory};
use replay_run::{Machine, run_lispm};
use std::alloc::Global;
use std::process::Abort;
use std::test::Fail;

/// How the devices behave: the greatest pieces that they take a call, the numbers of the calls that fail, or 0, and the sink's room.
#[derive(Clone, Copy)]
pub struct Devices {
    pub source_piece: usize,
    pub source_fail: u64,
    pub sink_piece: usize,
    pub sink_fail: u64,
    pub room: usize,
    pub swap_fail: u32,
}

/// Devices that never fail.
pub const SOUND: Devices = Devices {
    source_piece: 10_000,
    source_fail: 0,
    sink_piece: 10_000,
    sink_fail: 0,
    room: 200_000,
    swap_fail: 0,
};

/// How a run ended.
#[derive(Drop)]
pub struct Ended {
    pub status: u8,
    pub idle: bool,
    /// The byte of the input that the source gives next.
    pub next: Option<u8>,
    pub sink: SinkBytes,
}

/// The arguments in a line; an empty line has none.
pub fn words_of(alloc: Global, line: &str) -> Result<Vec<String>, Fail> {
    let mut words = Vec::new(alloc);
    if !line.is_empty() {
        for word in line.split(' ') {
            words.push(String::from_str(alloc, word)?)?;
        }
    }
    Ok(words)
}

/// The bytes of a text in which semicolons represent line feeds.
pub fn bytes_of(alloc: Global, text: &str) -> Result<Vec<u8>, Fail> {
    let mut bytes = Vec::from_slice(alloc, text.as_bytes())?;
    for byte in bytes.iter_mut() {
        if *byte == b';' {
            *byte = b'\n';
        }
    }
    Ok(bytes)
}

/// The source of an input.
fn source(alloc: Global, input: &[u8], devices: &Devices) -> Result<SourceBytes, Fail> {
    let bytes = Vec::from_slice(alloc, input)?;
    let fails = vec![in alloc; devices.source_fail]?;
    Ok(SourceBytes::new(bytes, devices.source_piece.max(1), fails))
}

/// A sink.
fn sink(alloc: Global, devices: &Devices) -> Result<SinkBytes, Fail> {
    let fails = vec![in alloc; devices.sink_fail]?;
    let piece = devices.sink_piece.max(1);
    Ok(SinkBytes::new(alloc, devices.room, piece, fails)?)
}

/// Runs the program with the arguments in a line over an input.
pub fn run(alloc: Global, line: &str, input: &[u8], devices: &Devices) -> Result<Ended, Fail> {
    let words = words_of(alloc, line)?;
    let mut source = source(alloc, input, devices)?;
    let mut sink = sink(alloc, devices)?;
    let mut machine = Machine::idle(SwapMemory::new(alloc, devices.swap_fail));
    let status = run_lispm(alloc, &words, &mut source, &mut sink, &mut machine);
    let idle = machine.is_idle();
    let next = next_byte(&mut source);
    Ok(Ended {
        status,
        idle,
        next,
        sink,
    })
}

/// Compares a status and what was written.
pub fn same(rt: &impl Abort, ended: &Ended, status: u8, bytes: &[u8], row: &str) {
    assert!(rt;
        ended.status == status && ended.sink.bytes() == bytes,
        "{row}"
    );
}

/// Compares how a run ended with the words of a table: the status, and the text that was written.
pub fn compare(rt: &impl Abort, alloc: Global, ended: &Ended, want: &str) -> Result<(), Fail> {
    let (status, text) = want.split_once(' ').unwrap_or((want, ""));
    let status = status.parse::<u8>().ok().ok_or("no status")?;
    same(rt, ended, status, &bytes_of(alloc, text)?, want);
    Ok(())
}

/// Runs an input, whose line feeds are semicolons, and compares how that ended.
pub fn replay(
    rt: &impl Abort,
    alloc: Global,
    input: &str,
    devices: &Devices,
    want: &str,
) -> Result<(), Fail> {
    let ended = run(alloc, "replay", &bytes_of(alloc, input)?, devices)?;
    compare(rt, alloc, &ended, want)
}

/// The next byte of a source, if it gives one.
fn next_byte(source: &mut SourceBytes) -> Option<u8> {
    let mut byte = [0u8; 1];
    match source.take(&mut byte) {
        Ok(1) => Some(byte[0]),
        _ => None,
    }
}

/// A text in which one word is repeated this often, followed by an end.
pub fn long_text(
    alloc: Global,
    head: &str,
    word: &str,
    count: u32,
    end: &str,
) -> Result<String, Fail> {
    let mut text = String::from_str(alloc, head)?;
    for _ in 0..count {
        text.push_str(word)?;
    }
    text.push_str(end)?;
    Ok(text)
}
