//! Command lines, refused and answered.
use super::run::{SOUND, bytes_of, compare, run};
use std::alloc::Global;
use std::process::Abort;
use std::test::Fail;

/// Command lines with single spaces between their arguments, all of which are refused; the first has no arguments.
const REFUSED: &str = "
--
replay replay
replay census
replay -- --
-- -- replay
exercise
exercise --number 1
exercise --number 1 --count 1000001
Replay
help
--help
-h
--version
replay --count 3
replay --object 3
replay --object=3
print --object 3
compile --object=3
census --object 3
why
--object 3
why --object
why --object=
why --object --
why --object -- 3
why --object 3 --object 4
why --object=3 --object=3
why --object 3 why
why --object 3 4
why --object x
why --object -3
why --object=+3
why --object=03
why --object=4294967296
why --object=3=3
why --objects=3
why -o 3
why -- --object 3";

/// Command lines, their inputs, and how they end.
const ANSWERED: &str = "\
replay = lispm-world 1;space 16 32 8 1 2;area work dynamic 100;trace;set 0 5;cons 1 work 0 0;car 2 1;end; = 0 ok;ok;5;
replay -- = lispm-world 1;space 16 32 8 1 2;area work dynamic 100;trace;set 0 5;cons 1 work 0 0;car 2 1;end; = 0 ok;ok;5;
-- replay = lispm-world 1;space 16 32 8 1 2;area work dynamic 100;trace;set 0 5;cons 1 work 0 0;car 2 1;end; = 0 ok;ok;5;
exercise --count=0 --number 7 = lispm = 0 commands 0;replies 3;exhausted 0;wrong-type 0;reclaimed 0;fault 0;
exercise --number 1 --count 30 = lispm = 0 commands 30;replies 33;exhausted 0;wrong-type 12;reclaimed 0;fault 0;
print = lispm-world 2;space 16 32 8 1 2;area work dynamic 9;capacity 0;cons work 5 nil;root 0 #0;end-world; = 0 sexpr-world 1;space 16 32 8 1 2;area work dynamic 9;capacity 0;root 0 work(5);end-sexpr;
compile = sexpr-world 1;space 16 32 8 1 2;area work dynamic 9;capacity 0;root 0 work(5);end-sexpr; = 0 lispm-world 2;space 16 32 8 1 2;area work dynamic 9;capacity 0;cons work 5 nil;root 0 #0;end-world;
census = lispm-world 2;space 16 32 8 1 2;area work dynamic 9;capacity 0;cons work 5 nil;root 0 #0;end-world; = 0 work cons 1 2 0 0;end-census;
why --object=0 = lispm-world 2;space 16 32 8 1 2;area work dynamic 9;capacity 0;cons work 5 nil;root 0 #0;end-world; = 0 held 0;root 0 #0;level 0 0;end-why;
--object 0 -- why = lispm-world 2;space 16 32 8 1 2;area work dynamic 9;capacity 0;cons work 5 nil;root 0 #0;end-world; = 0 held 0;root 0 #0;level 0 0;end-why;
why --object 4294967295 = lispm-world 2;space 16 32 8 1 2;area work dynamic 9;capacity 0;cons work 5 nil;root 0 #0;end-world; = 8 error: no object 4294967295;
print = sexpr-world 1;space 16 32 8 1 2;area work dynamic 9;capacity 0;root 0 work(5);end-sexpr; = 2 error line 1: not a world;
compile = lispm-world 2;space 16 32 8 1 2;area work dynamic 9;capacity 0;cons work 5 nil;root 0 #0;end-world; = 2 error line 1: not a world;
exercise --number 1 --count 0 =  = 0 commands 0;replies 3;exhausted 0;wrong-type 0;reclaimed 0;fault 0;
print = lispm-world 2;space 16 32 8 1 2;area work dynamic 100;capacity 0;cons work 1 #0;root 0 #0;end-world; = 0 sexpr-world 1;space 16 32 8 1 2;area work dynamic 100;capacity 0;root 0 #0=work(1 . #0#);end-sexpr;
compile = sexpr-world 1;space 16 32 8 1 2;area work dynamic 100;capacity 0;root 0 #0=work(1 . #0#);end-sexpr; = 0 lispm-world 2;space 16 32 8 1 2;area work dynamic 100;capacity 0;cons work 1 #0;root 0 #0;end-world;
print = lispm-world 2;space 16 32 8 1 2;area work dynamic 100;capacity 0;run work 1 2 3;block work 9 #0 nil;root 0 #3;root 1 #1;end-world; = 0 sexpr-world 1;space 16 32 8 1 2;area work dynamic 100;capacity 0;root 0 work{9 work[1 . #0=work[2 3]] nil};root 1 #0#;end-sexpr;
compile = sexpr-world 1;space 16 32 8 1 2;area work dynamic 100;capacity 0;root 0 work{9 work[1 . #0=work[2 3]] nil};root 1 #0#;end-sexpr; = 0 lispm-world 2;space 16 32 8 1 2;area work dynamic 100;capacity 0;block work 9 #3 nil;run work 2 3;cons work 1 #1;root 0 #0;root 1 #1;end-world;
compile = sexpr-world 1;space 16 32 8 1 2;area work dynamic 100;capacity 0;root 0 work(1 #4#);end-sexpr; = 2 error line 5: no label 4;
why --object 2 = lispm-world 2;space 16 32 8 1 2;area work dynamic 100;capacity 0;cons work 1 #1;cons work 2 #2;cons work 3 nil;cons work 4 nil;root 0 #0;root 1 #1;end-world; = 0 held 1;root 1 #1;cdr #2;level 0 0;level 1 0;level 2 1;end-why;
why --object 3 = lispm-world 2;space 16 32 8 1 2;area work dynamic 100;capacity 0;cons work 1 #1;cons work 2 #2;cons work 3 nil;cons work 4 nil;root 0 #0;root 1 #1;end-world; = 0 free;level 0 0;level 1 0;level 2 1;end-why;
why --object 4 = lispm-world 2;space 16 32 8 1 2;area work dynamic 100;capacity 0;cons work 1 #1;cons work 2 #2;cons work 3 nil;cons work 4 nil;root 0 #0;root 1 #1;end-world; = 8 error: no object 4;
census = lispm-world 2;space 16 32 8 1 2;area work dynamic 100;capacity 0;cons work 1 #1;cons work 2 #2;cons work 3 nil;cons work 4 nil;root 0 #0;root 1 #1;end-world; = 0 work cons 3 6 1 2;end-census;
census = lispm-world 2;space 16 32 8 1 2;area work dynamic 100;capacity 0;run work 1 2 3;block work 9 #0 nil;root 0 #3;root 1 #1;end-world; = 0 work cons 3 9 0 0;work block 9 1 3 0 0;end-census;";

/// Only a run of commands leaves the machine open. An exercise reads no byte, and neither does a refused command line.
fn answered(
    rt: &impl Abort,
    alloc: Global,
    line: &str,
    input: &str,
    want: &str,
) -> Result<(), Fail> {
    let ended = run(alloc, line, &bytes_of(alloc, input)?, &SOUND)?;
    compare(rt, alloc, &ended, want)?;
    let refused = ended.status == 7;
    let exercises = line.contains("exercise");
    assert!(rt;
        ended.idle == (refused || !(exercises || line.contains("replay"))),
        "{line}"
    );
    let whole = input.as_bytes().first().copied();
    let next = if refused || exercises { whole } else { None };
    assert!(rt; ended.next == next, "{line}");
    Ok(())
}

#[test]
fn refused_lines(rt: HostRuntime) -> Result<(), Fail> {
    for line in REFUSED.lines() {
        answered(&rt, rt.alloc(), line, "lispm", "7 error: usage;")?;
    }
    Ok(())
}

#[test]
fn answered_lines(rt: HostRuntime) -> Result<(), Fail> {
    for case in ANSWERED.lines() {
        let (line, case) = case.split_once(" = ").ok_or("no input")?;
        let (input, want) = case.split_once(" = ").ok_or("no outcome")?;
        answered(&rt, rt.alloc(), line, input, want)?;
    }
    Ok(())
}
