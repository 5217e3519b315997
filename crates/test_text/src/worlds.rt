//! Whole worlds by tables, which an independent program has judged.
mod cases;

ghost use Rattle.std.specs.Prelude.{IfOk};
ghost use Rattle.world_text.specs.Limits.{IsAccepted};

use super::same::same;
use cases::{DUMPS, FILES, FIRST, FRONTS, INPUTS, SECOND, SIXTEEN};
use lisp_graph::{GraphWalk, SwapFault, Text, World};
use std::alloc::Global;
use std::process::Abort;
use std::test::Fail;
use world_text::{DumpFault, Reason, WorldBuilder, WorldFault, WorldStep, dump_text};

/// The lines that this abbreviation represents.
fn lines_of(piece: &str) -> &str {
    match piece {
        "1" => FIRST,
        "2" => SECOND,
        "16" => SIXTEEN,
        line => line,
    }
}

/// Takes lines up to the first that is refused, and returns its number and why.
fn take_lines(builder: &mut WorldBuilder, text: &str) -> Option<(u32, WorldFault)> {
    let mut number = 0u32;
    for piece in text.split(';') {
        for line in lines_of(piece).split('\n') {
            number = number.saturating_add(1);
            if let Err(fault) = builder.line(line.as_bytes()) {
                return Some((number, fault));
            }
        }
    }
    None
}

/// The outcome of these lines, as the tables write it.
fn outcome(alloc: Global, builder: &mut WorldBuilder, text: &str) -> Result<String, Fail> {
    match take_lines(builder, text) {
        Some((number, fault)) => Ok(format!(in alloc; "{number} {fault:?}")?),
        None => Ok(String::from_str(alloc, "accepted")?),
    }
}

/// Compares the outcome of the lines of a case, on either side of an equals sign.
fn compare_case(
    rt: &impl Abort,
    alloc: Global,
    builder: &mut WorldBuilder,
    case: &str,
) -> Result<(), Fail> {
    let (text, want) = case.split_once(" = ").ok_or("no outcome")?;
    same(
        rt,
        outcome(alloc, builder, text)?.as_bytes(),
        want.as_bytes(),
        text,
    );
    Ok(())
}

#[test]
fn each_reason_has_its_place(rt: HostRuntime) -> Result<(), Fail> {
    for case in INPUTS.lines() {
        compare_case(&rt, rt.alloc(), &mut WorldBuilder::new(rt.alloc()), case)?;
    }
    Ok(())
}

#[test]
fn files_have_reasons_too(rt: HostRuntime) -> Result<(), Fail> {
    for case in FILES.lines() {
        compare_case(
            &rt,
            rt.alloc(),
            &mut WorldBuilder::for_file(rt.alloc()),
            case,
        )?;
    }
    Ok(())
}

/// The letter of the outcome of a line.
fn letter(answer: Result<WorldStep, WorldFault>) -> char {
    match answer {
        Ok(_) => '.',
        Err(WorldFault::Bad(reason)) => match reason {
            Reason::NotAWorld => 'w',
            Reason::BadLine => 'b',
            Reason::SpaceExpected => 's',
            Reason::AreaExpected => 'a',
            Reason::CapacityExpected => 'p',
            Reason::UnexpectedLine => 'u',
            Reason::WrongCount => 'c',
            Reason::BadValue => 'v',
            _ => '?',
        },
        Err(_) => '!',
    }
}

/// The outcome of a prefix of a line after these lines.
fn front_letter(alloc: Global, before: &[&str], front: &[u8]) -> char {
    let mut builder = WorldBuilder::new(alloc);
    for earlier in before {
        if builder.line(earlier.as_bytes()).is_err() {
            return '!';
        }
    }
    letter(builder.line(front))
}

/// The outcome of each prefix of a line after these lines.
fn fronts_of(alloc: Global, before: &[&str], line: &str) -> Result<String, Fail> {
    let mut letters = String::new(alloc);
    for length in 1..line.len() + 1 {
        let front = line.as_bytes().get(..length).ok_or("short")?;
        letters.push(front_letter(alloc, before, front))?;
    }
    Ok(letters)
}

#[test]
fn each_front_of_a_line_is_judged(rt: HostRuntime) -> Result<(), Fail> {
    let alloc = rt.alloc();
    let mut before = Vec::new(alloc);
    let mut lines = FRONTS.lines();
    while let Some(line) = lines.next() {
        let want = lines.next().ok_or("no letters")?;
        same(
            &rt,
            fronts_of(alloc, &before, line)?.as_bytes(),
            want.as_bytes(),
            line,
        );
        before.push(line)?;
    }
    Ok(())
}

/// The start of a line, a word that is repeated after it, how often, and the outcome after the lines that precede the objects.
const LONG: [(&str, &str, u32, &str); 8] = [
    (
        "block work 0",
        " nil",
        2_047,
        "5 Exhausted { area: 0, charged: 0, wanted: 2048, quota: 100 }",
    ),
    ("block x y", " z", 2_048, "5 Bad(TooManyFields)"),
    (
        "run work",
        " 1",
        1_024,
        "5 Exhausted { area: 0, charged: 0, wanted: 3072, quota: 100 }",
    ),
    ("run x", " y", 1_025, "5 Bad(TooManyItems)"),
    ("root 0 ", "9", 32_761, "5 Bad(BadValue)"),
    ("root 0 ", "9", 32_762, "5 Bad(BadValue)"),
    ("", "x", 32_768, "5 Bad(UnexpectedLine)"),
    ("", " ", 32_769, "5 Bad(BadLine)"),
];

/// A world in whose last line one word is repeated this often.
fn long_text(alloc: Global, head: &str, word: &str, count: u32) -> Result<String, Fail> {
    let mut text = format!(in alloc; "2;{head}")?;
    for _ in 0..count {
        text.push_str(word)?;
    }
    Ok(text)
}

#[test]
fn long_lines_are_judged(rt: HostRuntime) -> Result<(), Fail> {
    for (head, word, count, want) in LONG {
        let text = long_text(rt.alloc(), head, word, count)?;
        let answer = outcome(rt.alloc(), &mut WorldBuilder::new(rt.alloc()), &text)?;
        same(&rt, answer.as_bytes(), want.as_bytes(), want);
    }
    Ok(())
}

/// The world of a world file's lines.
fn world_of(alloc: Global, text: &str) -> Result<World, Fail>
    ensures { IfOk result IsAccepted }
{
    let mut builder = WorldBuilder::for_file(alloc);
    if take_lines(&mut builder, text).is_some() {
        return Err(Fail::from("refused"));
    }
    match builder.line(b"end-world") {
        Ok(WorldStep::WorldEnds) => Ok(builder.finish()),
        _ => Err(Fail::from("not closed")),
    }
}

/// The text of a file of these lines in format 2.
fn file_of(alloc: Global, text: &str) -> Result<String, Fail> {
    let mut file = format!(in alloc; "{SECOND}\n")?;
    for line in text.split(';') {
        if !line.is_empty() {
            file.push_str(line)?;
            file.push('\n')?;
        }
    }
    file.push_str("end-world\n")?;
    Ok(file)
}

#[test]
fn dump_faults_say_what_failed(rt: HostRuntime) -> Result<(), Fail> {
    for (fault, want) in [
        (DumpFault::NoMemory, "no memory"),
        (DumpFault::Swap(SwapFault), "swap failed"),
    ] {
        let message = format!(in rt.alloc(); "{fault}")?;
        same(&rt, message.as_bytes(), want.as_bytes(), want);
    }
    Ok(())
}

/// The dump of the world of these lines.
fn dump_of(alloc: Global, text: &str) -> Result<Text, Fail> {
    let world = world_of(alloc, text)?;
    let rules = world_of(alloc, text)?.areas;
    let space = world.space;
    match dump_text(alloc, &mut GraphWalk::new(world), &space, rules.as_slice()) {
        Ok(dump) => Ok(dump),
        Err(_) => Err(Fail::from("no dump")),
    }
}

/// Compares the dump of a case, whose lines are on either side of an equals sign.
fn compare_dump(rt: &impl Abort, alloc: Global, case: &str) -> Result<(), Fail> {
    let (text, want) = case.split_once(" = ").ok_or("no dump")?;
    let dump = dump_of(alloc, text)?;
    same(rt, dump.as_slice(), file_of(alloc, want)?.as_bytes(), text);
    Ok(())
}

#[test]
fn worlds_are_dumped(rt: HostRuntime) -> Result<(), Fail> {
    for case in DUMPS.lines() {
        compare_dump(&rt, rt.alloc(), case)?;
    }
    Ok(())
}
