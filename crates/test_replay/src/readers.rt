//! The modes that command lines request, and what the lines of an input cause.
ghost use Rattle.std.specs.Prelude.{◌<◌, OnOk};
ghost use Rattle.input_verdict.specs.Places.{IsPlace};

mod lines;

use super::run::words_of;
use command_words::read_words;
use input_verdict::{InputJudge, JudgedInput, LineEffect, judge_line};
use line_input::InputReader;
use lisp_graph::Request;
use std::alloc::Global;
use std::process::Abort;
use std::test::Fail;

/// Each command line with single spaces between its arguments, and the mode that it requests.
const LINES: &str = "replay: Some(Replay)
print: Some(OfFile(Print))
compile: Some(OfFile(Compile))
census: Some(OfFile(Census))
why --object 7: Some(OfFile(Why { object: 7 }))
--object 7 why: Some(OfFile(Why { object: 7 }))
why --object=0: Some(OfFile(Why { object: 0 }))
why --object=4294967295: Some(OfFile(Why { object: 4294967295 }))
replay --: Some(Replay)
-- replay: Some(Replay)
--object=5 -- why: Some(OfFile(Why { object: 5 }))
--object 5 -- why: Some(OfFile(Why { object: 5 }))
why --object 5 --: Some(OfFile(Why { object: 5 }))
: None
--: None
why: None
why --object: None
why --object=: None
why --object --: None
why --object=4294967296: None
why --object=07: None
why --object=00: None
why --object=+7: None
why --object=-7: None
why --object=7=8: None
why --object==7: None
why --object 7 --object=7: None
replay --object=7: None
replay --count 3: None
why --Object=7: None
why --obj=7: None
why --object --object=7: None
why --object -- 7: None
--object: None
--: None
why --help: None
--help: None
-h: None
--version: None
-V: None
help: None
-- --: None
-- -- why: None
why --=7: None
why -- --object=7: None
replay replay: None
replay -- --: None
-- -- replay: None
-object 7 why: None
Replay: None
exercise --number 1 --count 20000: Some(Exercise { number: 1, count: 20000 })
--count=0 exercise --number 4294967295: Some(Exercise { number: 4294967295, count: 0 })
--count 1000000 --number=0 -- exercise: Some(Exercise { number: 0, count: 1000000 })
exercise: None
exercise --number 1: None
exercise --count 1: None
exercise --number 1 --count 1 --number 1: None
exercise --number 1 --count 1 --object 1: None
exercise --number 4294967296 --count 1: None
exercise --number 1 --count 1000001: None
exercise --number -- --count 1: None
exercise --number 01 --count 1: None
exercise --number 1 --number 1: None
exercise --object 1 --count 1: None
exercise exercise --number 1 --count 1: None
replay --number 1 --count 1: None
why --number 1 --count 1: None
why --number 1: None
why --object 1 --count 1: None
--number 1 --count 1: None
Exercise --number 1 --count 1: None";

/// Compares the mode that the arguments of a case request with the one after its colon.
fn asks(rt: &impl Abort, alloc: Global, case: &str) -> Result<(), Fail> {
    let (line, want) = case.split_once(": ").ok_or("no outcome")?;
    let words = words_of(alloc, line)?;
    let mode = read_words(alloc, &words)?;
    let mode = format!(in alloc; "{mode:?}")?;
    assert!(rt; mode.as_str() == want, "{line}");
    Ok(())
}

#[test]
fn each_line_asks_for_its_mode(rt: HostRuntime) -> Result<(), Fail> {
    for case in LINES.lines() {
        asks(&rt, rt.alloc(), case)?;
    }
    Ok(())
}

/// The letter of what a line causes that ends in a line feed: `.` for nothing, `o` if the trace begins, `d` for a command.
fn letter(place: &mut JudgedInput, line: &[u8]) -> Result<char, Fail>
    requires { IsPlace place.old }
    ensures { OnOk result (IsPlace place.new) }
{
    let mut command = Request::new();
    match judge_line(place, line, line.len().saturating_add(1), &mut command) {
        Ok(LineEffect::Opens) => Ok('o'),
        Ok(LineEffect::Does) => Ok('d'),
        Ok(_) => Ok('.'),
        Err(_) => Err(Fail::from("refused")),
    }
}

/// The letters of lines.
fn letters(alloc: Global, place: &mut JudgedInput, lines: &[&str]) -> Result<String, Fail>
    requires { IsPlace place.old }
{
    let mut letters = String::new(alloc);
    for line in lines {
        letters.push(letter(place, line.as_bytes())?)?;
    }
    Ok(letters)
}

/// A whole input.
const WHOLE: [&str; 6] = [
    "lispm-world 1",
    "space 16 32 8 1 2",
    "area work dynamic 100",
    "trace",
    "cons 1 work 0 0",
    "end",
];

#[test]
fn lines_bring_about_steps(rt: HostRuntime) -> Result<(), Fail> {
    let mut place = InputReader::start(InputJudge::new(rt.alloc()));
    let letters = letters(rt.alloc(), &mut place, WHOLE.as_slice())?;
    assert!(rt; letters.as_str() == "...od.");
    assert!(rt; place.judge.is_ended() && place.bytes == 80);
    Ok(())
}
