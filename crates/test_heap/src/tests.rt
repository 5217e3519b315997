//! Sessions over a flat memory and over a paged one.
ghost use Rattle.world_text.specs.Limits.{IsAccepted};

use crate::cases::{
    BASE_PAGE, BOTH_FORWARDS, CASES, COLLECTIONS, Case, FLIPPED, HUNDRED_WORDS, SWAP_FAULT, WORLDS,
};
use crate::dice::Dice;
use crate::script::{read_commands, read_world};
use crate::session::{Answers, open_flat, open_paged, run};
use crate::trial::Trial;
use crate::yardstick::Yardstick;
use lisp_graph::{Command, Reply, Value, World};
use lisp_heap::LoadFault;
use mem_port::Memory;
use std::alloc::Global;
use std::process::Abort;
use std::test::Fail;
use store_word::SwapFault;
use why_held::CensusRow;

// A session over a flat memory.
fn run_flat(alloc: Global, case: Case) -> Result<Answers, Fail> {
    let world = read_world(alloc, case.world)?;
    let commands = read_commands(alloc, &world, case.commands)?;
    run(
        alloc,
        open_flat(alloc, &world)?,
        &world.areas,
        &commands,
        false,
    )
}

// A session over a paged memory, one of whose page calls fails, or none at 0.
fn run_paged(alloc: Global, case: Case, fail: u32, evicts: bool) -> Result<Answers, Fail> {
    let world = read_world(alloc, case.world)?;
    let commands = read_commands(alloc, &world, case.commands)?;
    run(
        alloc,
        open_paged(alloc, &world, fail)?,
        &world.areas,
        &commands,
        evicts,
    )
}

#[test]
fn sessions(rt: HostRuntime) -> Result<(), Fail> {
    for case in CASES {
        let flat = run_flat(rt.alloc(), case)?;
        assert!(&rt;
            flat.text.as_slice() == case.replies.as_bytes(),
            "{}",
            case.commands
        );
        let paged = run_paged(rt.alloc(), case, 0, false)?;
        assert!(&rt;
            paged.text.as_slice() == case.replies.as_bytes(),
            "{}",
            case.commands
        );
    }
    Ok(())
}

#[test]
fn a_swap_fault_is_answered(rt: HostRuntime) -> Result<(), Fail> {
    let ran = run_paged(rt.alloc(), SWAP_FAULT, 3, false)?;
    assert!(rt; ran.text.as_slice() == SWAP_FAULT.replies.as_bytes());
    Ok(())
}

// Runs a session with each of its page calls failing in turn: a command that is repeated replies what it would have replied.
fn fail_each(rt: &impl Abort, alloc: Global, case: Case) -> Result<(), Fail> {
    let whole = run_paged(alloc, case, 0, true)?;
    assert!(rt; whole.faults == 0);
    let mut faults = 0u32;
    for fail in 1..61 {
        let ran = run_paged(alloc, case, fail, true)?;
        assert!(rt; ran.text == whole.text, "{fail}");
        faults = faults.wrapping_add(ran.faults);
    }
    assert!(rt; faults > 9);
    Ok(())
}

#[test]
fn each_page_call_fails(rt: HostRuntime) -> Result<(), Fail> {
    fail_each(&rt, rt.alloc(), BASE_PAGE)?;
    fail_each(&rt, rt.alloc(), BOTH_FORWARDS)
}

// Whether the reply to a command is that of the graph, unless the area has no room for it. It is never `fault`.
fn agrees<M: Memory>(
    trial: &mut Trial<M>,
    yardstick: &mut Yardstick,
    command: &Command,
) -> Result<bool, Fail> {
    let reply = trial.answer(command).ok_or("not asked")?;
    if matches!(reply, Reply::Exhausted { .. }) {
        return Ok(true);
    }
    match yardstick.answer(command)? {
        Some(wanted) => Ok(reply == wanted),
        None => Ok(reply != Reply::Fault),
    }
}

// A sequence of 200 commands without a pattern, followed by the accounts and a dump.
fn all_agree<M: Memory + Drop>(
    alloc: Global,
    world: &World,
    trial: Trial<M>,
    number: u64,
) -> Result<bool, Fail>
    requires { IsAccepted world.now }
{
    let mut trial = trial;
    let mut yardstick = Yardstick::new(alloc, world)?;
    let mut dice = Dice { state: number };
    for _ in 0..200 {
        if !agrees(&mut trial, &mut yardstick, &dice.command())? {
            return Ok(false);
        }
    }
    let last = [Command::Stats, Command::Dump];
    let ran = run(alloc, trial, &world.areas, last.as_slice(), false)?;
    Ok(!ran.text.is_empty())
}

// A hundred sequences in one world.
fn made_in(rt: &impl Abort, alloc: Global, lines: &str, first: u64) -> Result<(), Fail> {
    let world = read_world(alloc, lines)?;
    for offset in 0..100 {
        let number = first.wrapping_add(offset);
        let flat = open_flat(alloc, &world)?;
        assert!(rt; all_agree(alloc, &world, flat, number)?, "{number}");
        let paged = open_paged(alloc, &world, 0)?;
        assert!(rt; all_agree(alloc, &world, paged, number)?, "{number}");
    }
    Ok(())
}

#[test]
fn made_commands(rt: HostRuntime) -> Result<(), Fail> {
    for (lines, first) in WORLDS {
        made_in(&rt, rt.alloc(), lines, first)?;
    }
    Ok(())
}

// Conses the numbers from 0 on before the list in register 1, until that is refused, and returns how many.
fn fill<M: Memory>(trial: &mut Trial<M>) -> i32 {
    let cons = Command::Cons {
        to: 1,
        area: 0,
        car: 0,
        cdr: 1,
    };
    for number in 0..10000 {
        let value = Value::Fix(number);
        trial.answer(&Command::Set { to: 0, value });
        if trial.answer(&cons) != Some(Reply::Fine) {
            return number;
        }
    }
    10000
}

// Takes the numbers off the list in register 1, from the last one down to 0, and returns whether they all were there.
fn is_full_list<M: Memory>(trial: &mut Trial<M>, count: i32) -> bool {
    let rest = Command::Cdr { to: 1, from: 1 };
    for number in (0..count).rev() {
        if trial.answer(&Command::Car { to: 2, from: 1 }) != Some(Reply::Number(number)) {
            return false;
        }
        trial.answer(&rest);
    }
    trial.answer(&rest) == Some(Reply::WrongType)
}

// An area is filled to its quota, its list is read back, and it is collected twice.
fn is_filled_and_collected<M: Memory + Drop>(
    alloc: Global,
    world: &World,
    trial: Trial<M>,
    commands: &[Command],
) -> Result<bool, Fail> {
    let mut trial = trial;
    let count = fill(&mut trial);
    let filled = count == 4101 && trial.account(0) == Some(8202);
    let listed = is_full_list(&mut trial, count);
    let ran = run(alloc, trial, &world.areas, commands, false)?;
    Ok(filled && listed && ran.text.as_slice() == COLLECTIONS.replies.as_bytes())
}

#[test]
fn a_full_area_is_collected(rt: HostRuntime) -> Result<(), Fail> {
    let alloc = rt.alloc();
    let world = read_world(alloc, COLLECTIONS.world)?;
    let commands = read_commands(alloc, &world, COLLECTIONS.commands)?;
    let flat = open_flat(alloc, &world)?;
    assert!(&rt; is_filled_and_collected(alloc, &world, flat, &commands)?);
    let paged = open_paged(alloc, &world, 0)?;
    assert!(&rt; is_filled_and_collected(alloc, &world, paged, &commands)?);
    Ok(())
}

// Whether a census within a collection counts the one cons that is reached.
fn counts_one<M: Memory + Drop>(
    alloc: Global,
    world: &World,
    trial: Trial<M>,
    commands: &[Command],
) -> Result<bool, Fail> {
    let mut trial = trial;
    for command in commands {
        trial.answer(command).ok_or("not asked")?;
    }
    let rows = trial.census(alloc, &world.areas).ok_or("no census")?;
    let cons = CensusRow {
        area: 0,
        code: None,
        count: 1,
        charge: 2,
    };
    Ok(rows.as_slice() == [cons].as_slice())
}

#[test]
fn a_census_within_a_collection(rt: HostRuntime) -> Result<(), Fail> {
    let alloc = rt.alloc();
    let world = read_world(alloc, HUNDRED_WORDS)?;
    let commands = read_commands(alloc, &world, FLIPPED)?;
    assert!(&rt; counts_one(alloc, &world, open_flat(alloc, &world)?, &commands)?);
    assert!(&rt; counts_one(alloc, &world, open_paged(alloc, &world, 0)?, &commands)?);
    Ok(())
}

#[test]
fn messages(rt: HostRuntime) -> Result<(), Fail> {
    let alloc = rt.alloc();
    let memory = format!(in alloc; "{}", LoadFault::NoMemory)?;
    let swap = format!(in alloc; "{}", LoadFault::Swap(SwapFault))?;
    assert!(&rt; memory.as_str() == "no memory");
    assert!(&rt; swap.as_str() == "swap failed");
    Ok(())
}
