//! Whole collections over a flat memory, and over 32 frames with each page call failing in turn.
ghost use Rattle.std.specs.Prelude.{◌≡◌, ◌<◌};
ghost use Rattle.mem_port.specs.Store.{IsFresh};

use crate::call::Call;
use crate::cases::{END, SESSIONS, calls};
use crate::session::{SPACE, Session};
use lisp_graph::{CommandHead, Condemn};
use mem_port::{Memory, PlainMemory};
use paged_memory::{PagedMemory, SwapMemory};
use std::alloc::Global;
use std::marker::Brand;
use std::process::Abort;
use std::sync::ledger::{Blank, Ledger};
use std::test::Fail;
use store_word::Steps;

// A session has fewer page calls.
const MANY_CALLS: u32 = 200;

// How many sessions without a pattern are run, and how many calls each has.
const RANDOM_SESSIONS: u32 = 6;

const RANDOM_CALLS: u32 = 250;

// Does a session from its first call to its last. Returns whether a page call failed.
fn run<M: Memory + Drop, L: Ledger>(
    rt: &impl Abort,
    alloc: Global,
    mem: M,
    number: u32,
    often: bool,
    blank: Blank,
) -> Result<bool, Fail>
    requires fresh { IsFresh (M.seen mem) 32 2 }
    requires name { blank.name ≡ L.name }
    requires parts { blank.parts ≡ L.parts }
    requires at_least { blank.parts ≡ 1 }
{
    let mut steps = Steps::<L>::new(blank);
    let mut tried = Session::new(alloc, mem, often)?;
    for call in calls(number) {
        tried.step(rt, *call, &mut steps)?;
    }
    if number >= SESSIONS {
        let mut dice = Dice {
            state: number as u64,
        };
        for _ in 0..RANDOM_CALLS {
            tried.step(rt, dice.call(), &mut steps)?;
        }
    }
    for call in END {
        tried.step(rt, call, &mut steps)?;
    }
    Ok(tried.met())
}

// The list of 1,024 cells is compared after its collections only.
fn is_often(number: u32) -> bool {
    number != 6
}

#[test]
fn over_a_flat_memory(rt: HostRuntime) -> Result<(), Fail> {
    for number in 0..SESSIONS + RANDOM_SESSIONS {
        let mem = PlainMemory::new(rt.alloc(), &SPACE)?;
        let often = is_often(number);
        assert!(rt;
            !run::<PlainMemory, Brand>(&rt, rt.alloc(), mem, number, often, Blank::new(1))?
        );
    }
    Ok(())
}

// Does a session over a paged memory, of which one page call fails, or none.
fn run_paged(
    rt: &impl Abort,
    alloc: Global,
    number: u32,
    fail: u32,
    often: bool,
) -> Result<bool, Fail> {
    let swap = SwapMemory::new(alloc, fail);
    let Ok(mem) = PagedMemory::open(alloc, &SPACE, swap) else {
        return Err("no memory".into());
    };
    run::<PagedMemory<SwapMemory>, Brand>(rt, alloc, mem, number, often, Blank::new(1))
}

// Does a session with each of its page calls failing in turn, until none does.
fn fail_each(rt: &impl Abort, alloc: Global, number: u32) -> Result<(), Fail> {
    for fail in 1..MANY_CALLS {
        if !run_paged(rt, alloc, number, fail, false)? {
            return Ok(());
        }
    }
    Err("too many page calls".into())
}

#[test]
fn with_each_page_call_failing(rt: HostRuntime) -> Result<(), Fail> {
    for number in 0..SESSIONS + RANDOM_SESSIONS {
        assert!(rt; !run_paged(&rt, rt.alloc(), number, 0, is_often(number))?);
    }
    for number in 0..SESSIONS - 1 {
        fail_each(&rt, rt.alloc(), number)?;
    }
    Ok(())
}

// Numbers without a pattern.
#[derive(Clone, Copy)]
struct Dice {
    state: u64,
}

impl Dice {
    // A number below a number of sides.
    fn roll(&mut self, sides: u32) -> u32
        requires { 0 < sides }
        ensures { result < sides }
    {
        self.state = self
            .state
            .wrapping_mul(6_364_136_223_846_793_005)
            .wrapping_add(1_442_695_040_888_963_407);
        ((self.state >> 33) % sides as u64) as u32
    }

    // A new object for a register.
    fn new_object(&mut self, to: u8, area: u8) -> Call {
        let item = self.roll(8) as u8;
        let code = self.roll(1000) as u16;
        match self.roll(6) {
            0 => Call::List {
                to,
                area,
                item,
                count: self.roll(6) as u16 + 1,
            },
            1 => Call::Do(CommandHead::Make {
                to,
                area,
                code,
                length: self.roll(5) as u16,
            }),
            2 => Call::Do(CommandHead::Make {
                to,
                area,
                code,
                length: self.roll(300) as u16,
            }),
            _ => Call::Do(CommandHead::Cons {
                to,
                area,
                car: item,
                cdr: self.roll(8) as u8,
            }),
        }
    }

    // Any call.
    fn call(&mut self) -> Call {
        let to = self.roll(7) as u8;
        let from = self.roll(8) as u8;
        let index = self.roll(4);
        let area = self.roll(3) as u8;
        match self.roll(24) {
            0 => Call::Do(CommandHead::Move { to, from }),
            1 => Call::Do(CommandHead::Grow {
                target: to,
                length: self.roll(40) as u16,
            }),
            2 | 3 => Call::Do(CommandHead::Car { to, from }),
            4 | 5 => Call::Do(CommandHead::Cdr { to, from }),
            6 => Call::Do(CommandHead::Rplaca { target: to, from }),
            7 | 8 => Call::Do(CommandHead::Rplacd { target: to, from }),
            9 => Call::Do(CommandHead::Get { to, from, index }),
            10 | 11 => Call::Do(CommandHead::Put {
                target: to,
                index,
                from,
            }),
            12 => Call::Do(CommandHead::Flip {
                what: Condemn::Full,
            }),
            13 => Call::FlipLevels {
                up_to: index as u8 % 2 + 1,
            },
            14 | 15 => Call::Do(CommandHead::Scavenge { count: index + 1 }),
            16 => Call::Do(CommandHead::Scavenge { count: 1_000 }),
            17 => Call::Do(CommandHead::Reclaim),
            18 => Call::Do(CommandHead::PageOut { count: 8 * index }),
            _ => self.new_object(to, area),
        }
    }
}
