//! Each page call fails in turn, and the command that replies `fault` is repeated.
use super::devices::{Change, each};
use super::run::{Devices, Ended, SOUND, bytes_of, long_text, run, same};
use std::alloc::Global;
use std::process::Abort;
use std::test::Fail;

/// A command, and what is written for it if no call fails.
#[derive(Drop)]
struct Call {
    command: Vec<u8>,
    reply: Vec<u8>,
}

/// The calls of a text, which has a call a line.
fn calls_of(alloc: Global, text: &str) -> Result<Vec<Call>, Fail> {
    let mut calls = Vec::new(alloc);
    for line in text.lines() {
        let (command, reply) = line.split_once(" = ").ok_or("no reply")?;
        calls.push(Call {
            command: bytes_of(alloc, command)?,
            reply: bytes_of(alloc, reply)?,
        })?;
    }
    Ok(calls)
}

/// The input of a world and calls; the one with this number occurs twice.
fn input_of(alloc: Global, world: &[u8], calls: &[Call], twice: usize) -> Result<Vec<u8>, Fail> {
    let mut input = Vec::from_slice(alloc, world)?;
    for (number, call) in calls.iter().enumerate() {
        if number == twice {
            input.extend_from_slice(&call.command)?;
        }
        input.extend_from_slice(&call.command)?;
    }
    input.extend_from_slice(b"end\n")?;
    Ok(input)
}

/// What is written for the calls if the one with this number first replies `fault`.
fn output_of(alloc: Global, calls: &[Call], fault: usize) -> Result<Vec<u8>, Fail> {
    let mut output = Vec::new(alloc);
    for (number, call) in calls.iter().enumerate() {
        if number == fault {
            output.extend_from_slice(b"fault\n")?;
        }
        output.extend_from_slice(&call.reply)?;
    }
    Ok(output)
}

/// The number of the first call whose reply isn't the expected one; if there is none, the number of calls.
fn first_other(calls: &[Call], output: &[u8]) -> usize {
    let mut at = 0usize;
    for (number, call) in calls.iter().enumerate() {
        let rest = output.get(at..).unwrap_or(b"");
        if !rest.starts_with(&call.reply) {
            return number;
        }
        at = at.saturating_add(call.reply.len());
    }
    calls.len()
}

/// Runs a world and calls while this page call fails; the one with this number occurs twice.
fn over(
    alloc: Global,
    world: &[u8],
    calls: &[Call],
    twice: usize,
    swap_fail: u32,
) -> Result<Ended, Fail> {
    let input = input_of(alloc, world, calls, twice)?;
    run(alloc, "replay", &input, &Devices { swap_fail, ..SOUND })
}

/// A page call fails. The run goes on to its end; and if the command that replied `fault` is repeated, all reply as they do
/// if no call fails. Returns whether a command replied so.
fn given_again(
    rt: &impl Abort,
    alloc: Global,
    world: &[u8],
    calls: &[Call],
    swap_fail: u32,
) -> Result<bool, Fail> {
    let once = over(alloc, world, calls, calls.len(), swap_fail)?;
    assert!(rt; once.status == 0);
    let fault = first_other(calls, once.sink.bytes());
    let again = over(alloc, world, calls, fault, swap_fail)?;
    same(
        rt,
        &again,
        0,
        &output_of(alloc, calls, fault)?,
        "given again",
    );
    Ok(fault < calls.len())
}

/// Does so for each of the first sixty page calls, and returns how often a command replied `fault`.
fn each_fails(rt: &impl Abort, alloc: Global, world: &str, text: &str) -> Result<u32, Fail> {
    let world = bytes_of(alloc, world)?;
    let calls = calls_of(alloc, text)?;
    let mut faults = 0u32;
    for swap_fail in 1..61 {
        if given_again(rt, alloc, &world, &calls, swap_fail)? {
            faults = faults.saturating_add(1);
        }
    }
    Ok(faults)
}

/// Sessions: a world, its calls, and the least number of page calls.
const SESSIONS: [(&str, &str, u32); 3] = [
    (
        "lispm-world 1;space 16 32 8 1 2;area perm static 100;area pool ephemeral 100;trace;",
        "\
set 0 7; = ok;
cons 1 pool 0 0; = ok;
cons 2 perm 1 0; = ok;
set 1 nil; = ok;
page-out 32; = ok;
flip 1; = flipped 1;
scavenge 1000; = done;
reclaim; = reclaimed;
car 3 2; = cons;
car 4 3; = 7;
stats; = area perm 2 100;area pool 2 100;",
        4,
    ),
    (
        "lispm-world 1;space 16 32 8 1 2;area work dynamic 100;trace;",
        "\
set 0 7; = ok;
page-out 32; = ok;
list 1 work 0 0; = ok;
page-out 32; = ok;
cdr 2 1; = cons;
page-out 32; = ok;
flip full; = flipped 0;
page-out 32; = ok;
rplacd 2 0; = ok;
page-out 32; = ok;
cdr 3 1; = cons;
page-out 32; = ok;
eq 3 2; = t;
page-out 32; = ok;
cdr 4 3; = 7;
page-out 32; = ok;",
        10,
    ),
    (
        "lispm-world 1;space 16 32 8 1 2;area work dynamic 100;trace;",
        "\
set 0 5; = ok;
cons 3 work 0 0; = ok;
set 3 nil; = ok;
cons 1 work 0 2; = ok;
set 0 nil; = ok;
page-out 32; = ok;
dump; = lispm-world 2;space 16 32 8 1 2;area work dynamic 100;capacity 0;cons work 5 nil;root 1 #0;end-world;
page-out 32; = ok;
flip full; = flipped 0;
dump; = lispm-world 2;space 16 32 8 1 2;area work dynamic 100;capacity 0;cons work 5 nil;root 1 #0;end-world;
page-out 32; = ok;
scavenge 100; = done;
page-out 32; = ok;
dump; = lispm-world 2;space 16 32 8 1 2;area work dynamic 100;capacity 0;cons work 5 nil;root 1 #0;end-world;
page-out 32; = ok;
reclaim; = reclaimed;
dump; = lispm-world 2;space 16 32 8 1 2;area work dynamic 100;capacity 0;cons work 5 nil;root 1 #0;end-world;",
        8,
    ),
];

#[test]
fn faults_refuse_one_command(rt: HostRuntime) -> Result<(), Fail> {
    for (world, text, least) in SESSIONS {
        assert!(rt; least <= each_fails(&rt, rt.alloc(), world, text)?);
    }
    Ok(())
}

/// Blocks of 2,047 fields in five lines, each of which starts with `head`.
fn blocks(alloc: Global, head: &str, end: &str) -> Result<String, Fail> {
    let line = long_text(alloc, "block work 0", " nil", 2_047, ";")?;
    long_text(alloc, head, &line, 5, end)
}

/// A world of forty pages is loaded into 32 frames. So at least eight pages are evicted, and each of these calls can fail.
#[test]
fn a_load_fails(rt: HostRuntime) -> Result<(), Fail> {
    let head = "lispm-world 1;space 16 32 8 1 2;area work dynamic 12000;";
    let input = blocks(rt.alloc(), head, "trace;stats;end;")?;
    each(&rt, rt.alloc(), Change::Swap, &input, 0, LOADS)
}

/// That load, if this page call fails.
const LOADS: &str = "\
1 = 0 area work 10240 12000;
9 = 6 error: swap failed;";

/// Five blocks on forty pages are made and dumped over 32 frames. So there are at least eighty page calls, and each of them fails in turn.
#[test]
fn a_large_dump_fails(rt: HostRuntime) -> Result<(), Fail> {
    let head = "dump; = lispm-world 2;space 16 32 8 1 2;area work dynamic 12000;capacity 0;";
    let roots = "root 0 #0;root 1 #1;root 2 #2;root 3 #3;root 4 #4;end-world;";
    let dump = blocks(rt.alloc(), head, roots)?;
    let calls = long_text(rt.alloc(), MAKES, &dump, 1, "")?;
    let world = "lispm-world 1;space 16 32 8 1 2;area work dynamic 12000;trace;";
    assert!(rt; each_fails(&rt, rt.alloc(), world, &calls)? == 60);
    Ok(())
}

/// The blocks, and the first and the last field of some.
const MAKES: &str = "\
make 0 work 0 2047; = ok;
make 1 work 0 2047; = ok;
make 2 work 0 2047; = ok;
make 3 work 0 2047; = ok;
make 4 work 0 2047; = ok;
get 5 0 0; = nil;
get 5 0 2046; = nil;
get 5 4 2046; = nil;
";
