//! Whole inputs by a table, which an independent program has judged.
use band_run::{BandCommand, Commands, RunError, read_bands, report};
use lisp_graph::{Name, Text};
use outer_ports::{SinkBytes, SourceBytes};
use std::alloc::Global;
use std::process::Abort;
use std::test::Fail;

/// The lines of a world file, without the last line feed; in the table `F`.
const FILE: &[u8] =
    b"lispm-world 2\nspace 16 32 8 1 2\narea work dynamic 100\ncapacity 0\nend-world";

/// The first lines of a world in format 1; in the table `G`.
const FIRST: &[u8] = b"lispm-world 1\nspace 16 32 8 1 2\narea work dynamic 100\n";

/// Inputs with their outcomes, one a line: the commands, with the length of each text, or the error line. `;` represents a
/// line feed.
const INPUTS: &str = "\
end = accepted
 = error line 1: bad line
end; = accepted
open;save a;F;list;load b;end; = accepted open save a 75 list load b
save b;F;save a;Gend-world;save b;F;end = accepted save b 75 save a 64 save b 75
list;list;open;load a-1;end; = accepted list list open load a-1
save a;Gcons work 1 #0;root 0 #0;end-world;end; = accepted save a 89
end;; = error line 2: text after end
end;  = error line 2: text after end
end;end = error line 2: text after end
open;end;x = error line 3: text after end
;end; = error line 1: bad line
open; = error line 2: no end
open = error line 2: no end
save a; = error line 2: no end
save a;G = error line 5: no end
save a;G;end; = error line 5: bad line
save a;F = error line 7: no end
save a;F; = error line 7: no end
 open;end; = error line 1: bad line
open ;end; = error line 1: bad line
open\t;end; = error line 1: bad line
open\r;end; = error line 1: bad line
load  a;end; = error line 1: bad line
load a\r;end; = error line 1: bad line
trace;end; = error line 1: unknown command
Open;end; = error line 1: unknown command
opened;end; = error line 1: unknown command
end-world;end; = error line 1: unknown command
lispm-world 1;end; = error line 1: unknown command
open x;end; = error line 1: wrong count
save;F;end; = error line 1: wrong count
save a b;F;end; = error line 1: wrong count
load;end; = error line 1: wrong count
load a b;end; = error line 1: wrong count
list x;end; = error line 1: wrong count
end x = error line 1: wrong count
load A;end; = error line 1: bad name
load 1a;end; = error line 1: bad name
load -a;end; = error line 1: bad name
load a_b;end; = error line 1: bad name
load a234567890123456;end; = accepted load a234567890123456
load a2345678901234567;end; = error line 1: bad name
save A;end; = error line 1: bad name
save a.b;F;end; = error line 1: bad name
load a=b;end; = error line 1: bad name
save a;end; = error line 2: not a world
save a;open;end; = error line 2: not a world
save a;;end; = error line 2: not a world
save a;lispm-world 3;end; = error line 2: not a world
save a;lispm-world 1\r;end; = error line 2: not a world
save a;F;open;save b;Gload a;end-world;end; = error line 12: unexpected line
save a;Gsave b;end; = error line 5: unexpected line
save a;Gtrace;end; = error line 5: unexpected line
save a;Gend; = error line 5: unexpected line
save a;Gend-world x;end; = error line 5: wrong count
save a;Gcons work nil nil;root 9 nil;end-world;end; = error line 6: no register
open;save a;Gcons work nil #1;end-world;end; = error line 7: no object 1
open;save a;lispm-world 1;space 5 32 8 1 2;area work dynamic 100;area more dynamic 1024;end-world;end; = error line 6: space too small
save a;F;save b;Gblock work 0 1 2;cons work nil nil;area more dynamic 1;end; = error line 13: unexpected line
open;save a;lispm-world 1;space 16 32 8 1 2;area work dynamic 3;cons work 1 2;cons work 3 4;end-world;end; = error line 7: exhausted work 2 2 3
save a;F;end-world;end; = error line 7: unknown command";

/// The input for an abbreviation of the table.
fn input_of(alloc: Global, short: &str) -> Result<Vec<u8>, Fail> {
    let mut input = Vec::new(alloc);
    for byte in short.as_bytes() {
        match *byte {
            b';' => input.push(b'\n')?,
            b'F' => input.extend_from_slice(FILE)?,
            b'G' => input.extend_from_slice(FIRST)?,
            byte => input.push(byte)?,
        }
    }
    Ok(input)
}

/// Adds a word and a name to a line.
fn named(alloc: Global, line: &str, word: &str, name: &Name) -> Result<String, Fail> {
    let name = std::str::from_utf8(name.as_bytes()).ok().ok_or("no name")?;
    Ok(format!(in alloc; "{line} {word} {name}")?)
}

/// Adds a command to a line, as the table does.
fn shown(alloc: Global, line: &str, command: &BandCommand) -> Result<String, Fail> {
    match command {
        BandCommand::Open => Ok(format!(in alloc; "{line} open")?),
        BandCommand::Save { name, text } => {
            let size = text.len();
            let line = named(alloc, line, "save", name)?;
            Ok(format!(in alloc; "{line} {size}")?)
        }
        BandCommand::Load { name } => named(alloc, line, "load", name),
        BandCommand::List => Ok(format!(in alloc; "{line} list")?),
    }
}

/// The commands of an accepted input, as the table writes them.
fn accepted(alloc: Global, commands: &Commands) -> Result<String, Fail> {
    let mut line = String::from_str(alloc, "accepted")?;
    for command in commands.as_slice() {
        line = shown(alloc, &line, command)?;
    }
    Ok(line)
}

/// The error line of a trouble.
fn refused(alloc: Global, trouble: &RunError) -> Result<String, Fail> {
    let mut sink = SinkBytes::new(alloc, 100, 100, Vec::new(alloc))?;
    report(&mut sink, trouble);
    let line = std::str::from_utf8(sink.bytes()).ok().ok_or("no text")?;
    Ok(String::from_str(alloc, line.trim_end())?)
}

/// The outcome of an input that arrives in pieces of this length, and of whose source this call fails, or none at 0.
fn outcome(alloc: Global, input: Vec<u8>, piece: usize, fail: u64) -> Result<String, Fail> {
    let mut source = SourceBytes::new(input, piece.max(1), vec![in alloc; fail]?);
    match read_bands(alloc, &mut source) {
        Ok(commands) => accepted(alloc, &commands),
        Err(trouble) => refused(alloc, &trouble),
    }
}

/// Compares the outcome of an input with the one after its equals sign.
fn compare(
    rt: &impl Abort,
    alloc: Global,
    case: &str,
    piece: usize,
    fail: u64,
) -> Result<(), Fail> {
    let (short, want) = case.split_once(" = ").ok_or("no outcome")?;
    let answer = outcome(alloc, input_of(alloc, short)?, piece, fail)?;
    assert!(rt; answer.as_str() == want, "{short}");
    Ok(())
}

#[test]
fn each_reason_has_its_line(rt: HostRuntime) -> Result<(), Fail> {
    for case in INPUTS.lines() {
        compare(&rt, rt.alloc(), case, 7, 0)?;
        compare(&rt, rt.alloc(), case, 100_000, 0)?;
    }
    Ok(())
}

/// The start of an input, the length of a line after it, which lies between two commands or in a file, and the outcome.
const LONG: [(&str, u32, &str); 5] = [
    ("open;", 32_768, "error line 2: unknown command"),
    ("open;", 32_769, "error line 2: line too long"),
    ("save a;G", 32_768, "error line 5: unexpected line"),
    ("save a;G", 32_769, "error line 5: line too long"),
    ("end;", 32_769, "error line 2: text after end"),
];

/// An input with a line of this length at its end.
fn long_input(alloc: Global, front: &str, length: u32) -> Result<Vec<u8>, Fail> {
    let mut input = input_of(alloc, front)?;
    for _ in 0..length {
        input.push(b'x')?;
    }
    Ok(input)
}

#[test]
fn long_lines_are_refused(rt: HostRuntime) -> Result<(), Fail> {
    for (front, length, want) in LONG {
        let input = long_input(rt.alloc(), front, length)?;
        let answer = outcome(rt.alloc(), input, 1_000, 0)?;
        assert!(rt; answer.as_str() == want, "{front} {length}");
    }
    Ok(())
}

/// A source that fails ends the reading, unless a line was already refused.
const FAULTS: &str = "\
open;list;end; = error: read failed
open;x;list;end; = error line 2: unknown command";

#[test]
fn a_source_fails(rt: HostRuntime) -> Result<(), Fail> {
    for case in FAULTS.lines() {
        compare(&rt, rt.alloc(), case, 4, 3)?;
    }
    Ok(())
}

/// The text of the one command, which is a save.
fn text_of(alloc: Global, short: &str) -> Result<Text, Fail> {
    let mut source = SourceBytes::new(input_of(alloc, short)?, 9, Vec::new(alloc));
    let Ok(commands) = read_bands(alloc, &mut source) else {
        return Err(Fail::from("refused"));
    };
    match commands.as_slice() {
        [BandCommand::Save { text, .. }] => Ok(Text::from_slice(alloc, text.as_slice())?),
        _ => Err(Fail::from("other commands")),
    }
}

/// The text of a save is the lines of its file.
#[test]
fn a_text_is_its_lines(rt: HostRuntime) -> Result<(), Fail> {
    let text = text_of(rt.alloc(), "save a;F;end")?;
    let want = input_of(rt.alloc(), "F;")?;
    assert!(rt; text.as_slice() == want.as_slice());
    Ok(())
}
