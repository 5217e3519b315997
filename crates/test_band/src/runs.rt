//! Whole runs over disks in memory, whose calls fail as planned.
use band_run::{BandMemory, run_bands};
use outer_ports::{SinkBytes, SourceBytes};
use std::alloc::Global;
use std::process::Abort;
use std::test::Fail;

/// The lines of a world file, without the last line feed; in the tables `F`.
const FILE: &[u8] =
    b"lispm-world 2\nspace 16 32 8 1 2\narea work dynamic 100\ncapacity 0\nend-world";

/// Those of another one of the same length; in the tables `G`.
const OTHER: &[u8] =
    b"lispm-world 2\nspace 16 32 8 1 2\narea work dynamic 200\ncapacity 0\nend-world";

/// The bytes of a store without bands.
const EMPTY: &[u8] = b"LISPBND1\0";

/// A disk: its bytes, its room, the number of the write or sync that fails, and what a restart makes of what wasn't synced.
type Disk = (&'static [u8], u32, u32, u8);

/// An empty store with room for 10,000 bytes, whose calls don't fail.
const SOUND: Disk = (EMPTY, 10_000, 0, 0);

/// The bytes for an abbreviation of a table: `;` represents a line feed.
fn expanded(alloc: Global, short: &str) -> Result<Vec<u8>, Fail> {
    let mut bytes = Vec::new(alloc);
    for byte in short.as_bytes() {
        match *byte {
            b';' => bytes.push(b'\n')?,
            b'F' => bytes.extend_from_slice(FILE)?,
            b'G' => bytes.extend_from_slice(OTHER)?,
            byte => bytes.push(byte)?,
        }
    }
    Ok(bytes)
}

/// How the source and the sink behave: the greatest piece that they take a call, and for each the number of the call that fails,
/// or 0.
type Ports = (usize, u64, u64);

/// Ports that never fail.
const WHOLE: Ports = (100_000, 0, 0);

/// The arguments in a line; an empty line has none.
fn words_of(alloc: Global, word: &str) -> Result<Vec<String>, Fail> {
    let mut words = Vec::new(alloc);
    if !word.is_empty() {
        words.push(String::from_str(alloc, word)?)?;
    }
    Ok(words)
}

/// The source of an input.
fn source(alloc: Global, input: &str, ports: Ports) -> Result<SourceBytes, Fail> {
    let (piece, fail, _) = ports;
    if piece == 0 {
        return Err(Fail::from("no piece"));
    }
    let fails = vec![in alloc; fail]?;
    Ok(SourceBytes::new(expanded(alloc, input)?, piece, fails))
}

/// A sink with room for 10,000 bytes.
fn sink(alloc: Global, ports: Ports) -> Result<SinkBytes, Fail> {
    let (piece, _, fail) = ports;
    if piece == 0 {
        return Err(Fail::from("no piece"));
    }
    let fails = vec![in alloc; fail]?;
    Ok(SinkBytes::new(alloc, 10_000, piece, fails)?)
}

/// The disk that is described so.
fn disk_of(alloc: Global, disk: Disk) -> Result<BandMemory, Fail> {
    let (bytes, room, stop, tear) = disk;
    if bytes.len() > room as usize {
        return Err(Fail::from("no room"));
    }
    match BandMemory::new(alloc, bytes, room, stop, tear) {
        Ok(disk) => Ok(disk),
        Err(_) => Err(Fail::from("no memory")),
    }
}

/// The status of a run over an input, and what it wrote.
fn outcome(
    alloc: Global,
    word: &str,
    input: &str,
    ports: Ports,
    disk: Disk,
) -> Result<(u8, SinkBytes), Fail> {
    let words = words_of(alloc, word)?;
    let mut source = source(alloc, input, ports)?;
    let mut sink = sink(alloc, ports)?;
    let mut disk = disk_of(alloc, disk)?;
    let status = run_bands(alloc, &words, &mut source, &mut sink, &mut disk);
    Ok((status, sink))
}

/// A run: its argument, its input, its ports, its disk, its status and what it writes.
type Run<'a> = (&'a str, &'a str, Ports, Disk, u8, &'a str);

/// Compares the status of a run and what was written.
fn wants(rt: &impl Abort, alloc: Global, run: Run) -> Result<(), Fail> {
    let (word, input, ports, disk, status, output) = run;
    let (answer, sink) = outcome(alloc, word, input, ports, disk)?;
    let bytes = expanded(alloc, output)?;
    assert!(rt;
        answer == status && sink.bytes() == bytes.as_slice(),
        "{input} {output}"
    );
    Ok(())
}

/// One save and a look at the list.
const ROW: &str = "open;save a;F;list;load b;end;";

/// One save, and a look at the list after another opening.
const SAVE: &str = "open;save a;F;list;open;list;end;";

/// Two saves of one name, and a load after another opening.
const SAVES: &str = "open;save a;F;save a;G;open;load a;end;";

/// Every kind of reply.
const REPLIES: [Run; 11] = [
    ("", "end;", WHOLE, SOUND, 0, ""),
    ("", "list;end;", WHOLE, SOUND, 0, "closed;"),
    (
        "",
        "save a;F;load a;end;",
        WHOLE,
        SOUND,
        0,
        "closed;closed;",
    ),
    (
        "",
        "open;list;load a;end;",
        WHOLE,
        SOUND,
        0,
        "opened 0;no-band a;",
    ),
    (
        "",
        ROW,
        WHOLE,
        SOUND,
        0,
        "opened 0;saved a;band a 75;no-band b;",
    ),
    (
        "",
        "open;save b;F;save a-1;G;save b;G;list;load b;load a-1;open;list;end",
        WHOLE,
        SOUND,
        0,
        "opened 0;saved b;saved a-1;saved b;band a-1 75;band b 75;G;G;opened 2;band a-1 75;band b 75;",
    ),
    (
        "",
        "open;end;",
        WHOLE,
        (b"", 10_000, 0, 0),
        0,
        "not-a-store;",
    ),
    (
        "",
        "open;save a;F;load a;list;open;end;",
        WHOLE,
        (b"LISPBND2\0", 10_000, 0, 0),
        0,
        "not-a-store;closed;closed;closed;not-a-store;",
    ),
    (
        "",
        "open;end;",
        WHOLE,
        (b"LISPBND1\x01", 10_000, 0, 0),
        0,
        "damaged 8;",
    ),
    (
        "",
        "open;save a;F;end;",
        WHOLE,
        (EMPTY, 90, 0, 0),
        0,
        "opened 0;full 91;",
    ),
    (
        "",
        "open;save a;F;save a;F;end;",
        WHOLE,
        (EMPTY, 91, 0, 0),
        0,
        "opened 0;saved a;full 173;",
    ),
];

/// A disk that crashes at the last call of a save, or before it.
const STOPS: [Run; 4] = [
    (
        "",
        SAVE,
        WHOLE,
        (EMPTY, 10_000, 4, 1),
        0,
        "opened 0;fault;closed;opened 1;band a 75;",
    ),
    (
        "",
        SAVE,
        WHOLE,
        (EMPTY, 10_000, 4, 0),
        0,
        "opened 0;fault;closed;opened 0;",
    ),
    (
        "",
        SAVE,
        WHOLE,
        (EMPTY, 10_000, 4, 2),
        0,
        "opened 0;fault;closed;opened 0;",
    ),
    (
        "",
        SAVE,
        WHOLE,
        (EMPTY, 10_000, 2, 1),
        0,
        "opened 0;fault;closed;opened 0;",
    ),
];

/// Each status except 5.
const STATUSES: [Run; 11] = [
    (
        "",
        ROW,
        (7, 0, 0),
        SOUND,
        0,
        "opened 0;saved a;band a 75;no-band b;",
    ),
    ("", ROW, (7, 0, 1), SOUND, 1, ""),
    ("", ROW, (7, 0, 3), SOUND, 1, "opened 0;saved"),
    ("", ROW, (7, 3, 0), SOUND, 3, "error: read failed;"),
    ("", ROW, (100_000, 2, 0), SOUND, 3, "error: read failed;"),
    ("", "open;list", WHOLE, SOUND, 2, "error line 3: no end;"),
    (
        "",
        "open;save a;F;end;end;",
        WHOLE,
        SOUND,
        2,
        "error line 9: text after end;",
    ),
    ("", "", WHOLE, SOUND, 2, "error line 1: bad line;"),
    ("", "open;x;", (7, 0, 2), SOUND, 1, "error l"),
    (
        "",
        "open;save a;lispm-world 1;space 5 32 8 1 2;area work dynamic 100;area more dynamic 1024;end-world;end;",
        WHOLE,
        SOUND,
        4,
        "error line 6: space too small;",
    ),
    ("replay", ROW, WHOLE, SOUND, 7, "error: usage;"),
];

#[test]
fn replies(rt: HostRuntime) -> Result<(), Fail> {
    for run in REPLIES {
        wants(&rt, rt.alloc(), run)?;
    }
    Ok(())
}

#[test]
fn stops(rt: HostRuntime) -> Result<(), Fail> {
    for run in STOPS {
        wants(&rt, rt.alloc(), run)?;
    }
    Ok(())
}

#[test]
fn statuses(rt: HostRuntime) -> Result<(), Fail> {
    for run in STATUSES {
        wants(&rt, rt.alloc(), run)?;
    }
    Ok(())
}

/// What has to be written if a disk crashes at a call of two saves, of four calls each: after the second opening the text that
/// was acknowledged last, or that of the save that replied `fault`, if its gate was opened and is kept.
fn demanded(stop: u32, tear: u8) -> &'static str {
    let kept = tear == 1 && stop % 4 == 0;
    match (stop <= 4, kept) {
        (true, false) => "opened 0;fault;closed;opened 0;no-band a;",
        (true, true) => "opened 0;fault;closed;opened 1;F;",
        (false, false) => "opened 0;saved a;fault;opened 1;F;",
        (false, true) => "opened 0;saved a;fault;opened 1;G;",
    }
}

/// A disk that crashes at each call of two saves of one name, and tears what wasn't synced in each way.
#[test]
fn stops_of_two_saves(rt: HostRuntime) -> Result<(), Fail> {
    for stop in 1..9 {
        for tear in 0..3 {
            let disk = (EMPTY, 10_000, stop, tear);
            let run = ("", SAVES, WHOLE, disk, 0, demanded(stop, tear));
            wants(&rt, rt.alloc(), run)?;
        }
    }
    Ok(())
}

/// The last value of a long text, and the reply to its save: for the longest text, and for one that is a byte longer.
const LONG: [(&str, &str); 2] = [
    ("2222222", "opened 0;saved a;band a 1048576;"),
    ("22222222", "opened 0;too-large 1048577;"),
];

/// The save of a text whose last value is written so.
fn long_save(alloc: Global, digits: &str) -> Result<String, Fail> {
    let front = "open;save a;lispm-world 1;space 512 32 8 1 2;area work dynamic 500000;";
    let mut input = String::from_str(alloc, front)?;
    for _ in 0..74_892 {
        input.push_str("cons work 1 2;")?;
    }
    input.push_str("cons work 1 ")?;
    input.push_str(digits)?;
    input.push_str(";end-world;list;end;")?;
    Ok(input)
}

#[test]
fn long_texts(rt: HostRuntime) -> Result<(), Fail> {
    for (digits, output) in LONG {
        let input = long_save(rt.alloc(), digits)?;
        let disk = (EMPTY, 2_000_000, 0, 0);
        wants(&rt, rt.alloc(), ("", &input, WHOLE, disk, 0, output))?;
    }
    Ok(())
}
