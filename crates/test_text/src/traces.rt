//! Lines, replies and the generated input by tables.
mod cases;

ghost use Rattle.std.specs.Prelude.{◌<◌, length, IfOk};
ghost use Rattle.world_text.specs.Limits.{IsAccepted};

use super::same::same;
use cases::{FRONTS, LINES, WORLD};
use lisp_graph::{Command, Reply, World};
use outer_ports::{Sink, SinkTally, Source};
use std::alloc::Global;
use std::process::Abort;
use std::test::Fail;
use trace_text::{LineKind, Maker, account_text, read_command, reply_text, summary_text};
use world_text::{Reason, WorldBuilder, WorldStep};

/// The world of these lines, the last of which is `trace`.
fn world(alloc: Global) -> Result<World, Fail>
    ensures { IfOk result IsAccepted }
{
    let mut builder = WorldBuilder::new(alloc);
    for line in WORLD.lines() {
        match builder.line(line.as_bytes()) {
            Ok(WorldStep::TraceBegins) => return Ok(builder.finish()),
            Ok(_) => (),
            Err(_) => return Err(Fail::from("refused")),
        }
    }
    Err(Fail::from("not closed"))
}

/// The outcome of a line, as the table writes it.
fn outcome(
    alloc: Global,
    answer: Result<LineKind, Reason>,
    command: &Command,
) -> Result<String, Fail> {
    match answer {
        Ok(LineKind::Command) => match command {
            Command::List { to, area, items } => {
                Ok(format!(in alloc; "list {to} {area} {:?}", items.as_slice())?)
            }
            _ => Ok(format!(in alloc; "{command:?}")?),
        },
        Ok(LineKind::End) => Ok(String::from_str(alloc, "End")?),
        Err(reason) => Ok(format!(in alloc; "{reason:?}")?),
    }
}

fn compare_lines(rt: &impl Abort, alloc: Global, world: &World) -> Result<(), Fail>
    requires { IsAccepted world.now }
{
    let mut command = Command::Stats;
    for case in LINES.lines() {
        let (line, want) = case.split_once(" = ").ok_or("no outcome")?;
        let answer = read_command(line.as_bytes(), &world.space, &world.areas, &mut command);
        same(
            rt,
            outcome(alloc, answer, &command)?.as_bytes(),
            want.as_bytes(),
            line,
        );
    }
    Ok(())
}

#[test]
fn each_line_says_its_command(rt: HostRuntime) -> Result<(), Fail> {
    compare_lines(&rt, rt.alloc(), &world(rt.alloc())?)
}

/// The letter of the outcome of a line.
fn letter(answer: Result<LineKind, Reason>) -> char {
    match answer {
        Ok(_) => '.',
        Err(Reason::UnknownCommand) => 'u',
        Err(Reason::BadLine) => 'b',
        Err(Reason::WrongCount) => 'c',
        Err(Reason::NoRegister) => 'r',
        Err(Reason::NoArea) => 'a',
        Err(Reason::BadNumber) => 'n',
        Err(Reason::BadValue) => 'v',
        Err(Reason::BadLevels) => 'l',
        Err(Reason::TooManyItems) => 'i',
        Err(_) => '?',
    }
}

/// The outcome of each prefix of a line.
fn fronts_of(alloc: Global, world: &World, line: &str) -> Result<String, Fail>
    requires { IsAccepted world.now }
{
    let mut letters = String::new(alloc);
    let mut command = Command::Stats;
    for length in 1..line.len() + 1 {
        let front = line.as_bytes().get(..length).ok_or("short")?;
        let answer = read_command(front, &world.space, &world.areas, &mut command);
        letters.push(letter(answer))?;
    }
    Ok(letters)
}

fn compare_fronts(rt: &impl Abort, alloc: Global, world: &World) -> Result<(), Fail>
    requires { IsAccepted world.now }
{
    let mut lines = FRONTS.lines();
    while let Some(line) = lines.next() {
        let want = lines.next().ok_or("no letters")?;
        same(
            rt,
            fronts_of(alloc, world, line)?.as_bytes(),
            want.as_bytes(),
            line,
        );
    }
    Ok(())
}

#[test]
fn each_front_of_a_line_is_judged(rt: HostRuntime) -> Result<(), Fail> {
    compare_fronts(&rt, rt.alloc(), &world(rt.alloc())?)
}

/// The start of a line, a word that is repeated after it, how often, and the letter of the outcome.
const LONG: [(&str, &str, u32, char); 4] = [
    ("list 0 work", " 1", 1_024, '.'),
    ("list x y", " z", 1_025, 'i'),
    ("scavenge ", "9", 32_759, 'n'),
    ("scavenge ", "9", 32_760, 'n'),
];

/// A line in which one word is repeated this often.
fn long_line(alloc: Global, head: &str, word: &str, count: u32) -> Result<String, Fail> {
    let mut line = String::from_str(alloc, head)?;
    for _ in 0..count {
        line.push_str(word)?;
    }
    Ok(line)
}

fn compare_long_lines(rt: &impl Abort, alloc: Global, world: &World) -> Result<(), Fail>
    requires { IsAccepted world.now }
{
    let mut command = Command::Stats;
    for (head, word, count, want) in LONG {
        let line = long_line(alloc, head, word, count)?;
        let answer = read_command(line.as_bytes(), &world.space, &world.areas, &mut command);
        assert!(rt; letter(answer) == want);
    }
    Ok(())
}

#[test]
fn long_lines_are_judged(rt: HostRuntime) -> Result<(), Fail> {
    compare_long_lines(&rt, rt.alloc(), &world(rt.alloc())?)
}

/// A reply, and its line.
const REPLIES: [(Reply, &str); 17] = [
    (Reply::Fine, "ok"),
    (Reply::Nil, "nil"),
    (Reply::Number(i32::MIN), "-2147483648"),
    (Reply::Cons, "cons"),
    (
        Reply::Block {
            code: 65_535,
            length: 2_047,
        },
        "block 65535 2047",
    ),
    (Reply::True, "t"),
    (Reply::WrongType, "wrong-type"),
    (Reply::NoField { length: 2 }, "no-field 2"),
    (
        Reply::Exhausted {
            area: 1,
            charged: 6,
            wanted: 2,
            quota: 7,
        },
        "exhausted pool 6 2 7",
    ),
    (Reply::Fault, "fault"),
    (Reply::Flipped { pages: 16_384 }, "flipped 16384"),
    (Reply::Busy, "busy"),
    (Reply::More, "more"),
    (Reply::Done, "done"),
    (Reply::NotFlipped, "not-flipped"),
    (Reply::NotDone, "not-done"),
    (Reply::Reclaimed, "reclaimed"),
];

fn compare_replies(rt: &impl Abort, world: &World) -> Result<(), Fail>
    requires { IsAccepted world.now }
{
    for (reply, want) in REPLIES {
        let text = reply_text(&reply, &world.areas);
        let line = text.as_bytes().strip_suffix(b"\n").ok_or("no line feed")?;
        same(rt, line, want.as_bytes(), want);
    }
    Ok(())
}

#[test]
fn each_reply_has_its_line(rt: HostRuntime) -> Result<(), Fail> {
    compare_replies(&rt, &world(rt.alloc())?)
}

/// The bytes of a generated input: how many they are, and a hash of them.
fn made(number: u32, count: u32) -> Result<(u64, u64), Fail> {
    let mut maker = Maker::new(number, count);
    let mut piece = [0; 7];
    let mut bytes = 0u64;
    let mut mixed = 0xcbf2_9ce4_8422_2325u64;
    for _ in 0..100_000 {
        let taken = maker.take(&mut piece).map_err(|_| "fault")?;
        if taken == 0 {
            return Ok((bytes, mixed));
        }
        for byte in piece.iter().take(taken) {
            bytes = bytes.wrapping_add(1);
            mixed = (mixed ^ u64::from(*byte)).wrapping_mul(0x0100_0000_01b3);
        }
    }
    Err(Fail::from("too long"))
}

/// The number of a generated input, how many commands it has, and the length and hash of its bytes.
const MADE: [(u32, u32, u64, u64); 3] = [
    (1, 0, 121, 4_472_940_917_261_663_128),
    (1, 20, 393, 13_966_482_480_648_815_182),
    (7, 4_000, 54_419, 7_647_869_973_020_655_864),
];

#[test]
fn inputs_are_made(rt: HostRuntime) -> Result<(), Fail> {
    for (number, count, bytes, mixed) in MADE {
        assert!(rt; made(number, count)? == (bytes, mixed));
    }
    Ok(())
}

fn compare_accounts(rt: &impl Abort, world: &World) -> Result<(), Fail>
    requires { IsAccepted world.now }
{
    let rule = world.areas.as_slice().get(0).ok_or("no area")?;
    let line = account_text(rule, 6);
    same(rt, line.as_bytes(), b"area work 6 100\n", "an account");
    Ok(())
}

#[test]
fn accounts_are_told(rt: HostRuntime) -> Result<(), Fail> {
    compare_accounts(&rt, &world(rt.alloc())?)
}

#[test]
fn summaries_are_told(rt: HostRuntime) {
    let mut sink = SinkTally::new();
    let told = sink.give(b"ok\nfault\nexhausted work 4 2 4\nreclaimed\nfa");
    assert!(rt; told == Ok(42));
    let text = summary_text(4, &sink.tally());
    let want =
        b"commands 4\nreplies 4\nexhausted 1\nwrong-type 0\nreclaimed 1\nfault 1\n".as_slice();
    same(&rt, text.as_bytes(), want, "a summary");
}
