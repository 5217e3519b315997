//! The memory beside a flat one, at 32 frames and 128 pages.
ghost use Rattle.std.specs.Prelude.{◌≡◌};
ghost use Rattle.mem_port.specs.Store.{IsFresh};

use mem_port::{Memory, PlainMemory};
use outer_ports::SwapMemory;
use paged_memory::PagedMemory;
use std::marker::Brand;
use std::process::Abort;
use std::sync::ledger::{Blank, Ledger};
use std::test::Fail;
use store_word::{Levels, Space, Steps, SwapFault, Word};

const PAGES: u32 = 128;

const WORDS: u32 = 32_768;

const SPACE: Space = Space {
    regions: 8,
    frames: 32,
    registers: 8,
    levels: 2,
    rate: 0,
    capacity: [0; 6],
};

// Region 4 has level 1 of 2, region 5 level 2, and the others level 0.
fn give_levels<M: Memory>(mem: &mut M)
    requires { IsFresh (M.seen mem.old) 8 2 }
{
    mem.set_level(4, 1);
    mem.set_level(5, 2);
}

// The next number of a fixed sequence.
fn draw(state: &mut u32) -> u32 {
    *state = state.wrapping_mul(1_664_525).wrapping_add(1_013_904_223);
    *state >> 8
}

// A number, or an address in any region.
fn word_of(number: u32) -> Word {
    if number % 2 == 0 {
        Word::list_at(number / 2 % WORDS)
    } else {
        Word::fixnum((number % 1_000) as i32)
    }
}

// Four pages next to one another are held, and then used.
fn hold<M: Memory, L: Ledger>(
    rt: &impl Abort,
    mem: &mut M,
    page: u32,
    steps: &mut Steps<L>,
) -> Result<(), SwapFault> {
    let first = page % (PAGES - 4);
    assert!(rt; mem.pages() == PAGES);
    mem.hold(&[first, first + 1, first + 2, first + 3], steps)?;
    for offset in 0..4u32 {
        assert!(rt; mem.pages() == PAGES);
        assert!(rt; mem.read((first + offset) * 256, steps).is_ok());
    }
    Ok(())
}

// Copies up to 16 words to the place that a number says, while both pages are held.
fn copy<M: Memory, L: Ledger>(
    rt: &impl Abort,
    mem: &mut M,
    at: u32,
    number: u32,
    steps: &mut Steps<L>,
) -> Result<(), SwapFault> {
    let from = at % WORDS / 16 * 16;
    let to = number % WORDS / 16 * 16;
    if from == to {
        return Ok(());
    }
    assert!(rt; mem.pages() == PAGES);
    mem.hold(&[from / 256, to / 256], steps)?;
    mem.copy_on(from, to, number / 16 % 16 + 1, steps);
    Ok(())
}

// Writes the word of a number to up to 64 addresses of one page, while the page is held.
fn fill<M: Memory, L: Ledger>(
    rt: &impl Abort,
    mem: &mut M,
    at: u32,
    number: u32,
    steps: &mut Steps<L>,
) -> Result<(), SwapFault> {
    assert!(rt; mem.pages() == PAGES);
    let at = at % WORDS / 64 * 64;
    mem.hold(&[at / 256], steps)?;
    mem.fill_on(at, number % 64 + 1, word_of(number), steps);
    Ok(())
}

// One call of each memory. If the first fails with a swap error, the second isn't called.
fn apply<M: Memory, P: Memory, L: Ledger>(
    rt: &impl Abort,
    mem: &mut M,
    plain: &mut P,
    kind: u32,
    at: u32,
    number: u32,
    steps: &mut Steps<L>,
) -> Result<(), SwapFault> {
    let at = at % WORDS;
    assert!(rt; mem.pages() == PAGES);
    assert!(rt; plain.pages() == PAGES);
    match kind % 18 {
        0..=6 => {
            let word = mem.read(at, steps)?;
            assert!(rt; word.bits() == plain.read(at, steps)?.bits());
        }
        7..=12 => {
            mem.write(at, word_of(number), steps)?;
            plain.write(at, word_of(number), steps)?;
        }
        13 => hold(rt, mem, at / 256, steps)?,
        14 => {
            let _ = mem.evict_oldest(number % 40)?;
        }
        15 => {
            copy(rt, mem, at, number, steps)?;
            copy(rt, plain, at, number, steps)?;
        }
        16 => {
            fill(rt, mem, at, number, steps)?;
            fill(rt, plain, at, number, steps)?;
        }
        _ => {
            mem.remark(at / 256);
            plain.remark(at / 256);
        }
    }
    Ok(())
}

// Every word is the same; a page with an address of level 1 or more is marked in both, and each page marked here is marked there.
fn compare<M: Memory, P: Memory, L: Ledger>(
    rt: &impl Abort,
    mem: &mut M,
    plain: &mut P,
    steps: &mut Steps<L>,
) -> Result<(), SwapFault> {
    for at in 0..WORDS {
        assert!(rt; mem.pages() == PAGES);
        assert!(rt; plain.pages() == PAGES);
        let word = match mem.read(at, steps) {
            Ok(word) => word,
            Err(_) => {
                assert!(rt; mem.pages() == PAGES);
                mem.read(at, steps)?
            }
        };
        assert!(rt; word.bits() == plain.read(at, steps)?.bits());
        assert!(rt; mem.pages() == PAGES);
        assert!(rt; plain.pages() == PAGES);
        let marked = mem.marked(at / 256, Levels::up_to(2));
        let also = plain.marked(at / 256, Levels::up_to(2));
        assert!(rt; also || !marked);
        let ephemeral = word
            .address()
            .is_some_and(|to| to / 4_096 == 4 || to / 4_096 == 5);
        assert!(rt; marked || !ephemeral);
    }
    Ok(())
}

// Makes this many calls of both memories, and returns how many of them failed.
fn run<M: Memory, P: Memory, L: Ledger>(
    rt: &impl Abort,
    mem: &mut M,
    plain: &mut P,
    calls: u32,
    blank: Blank,
) -> Result<u32, SwapFault>
    requires fresh { IsFresh (M.seen mem.old) 8 2 }
    requires flat { IsFresh (P.seen plain.old) 8 2 }
    requires name { blank.name ≡ L.name }
    requires parts { blank.parts ≡ L.parts }
    requires at_least { blank.parts ≡ 1 }
{
    let mut steps = Steps::<L>::new(blank);
    give_levels(mem);
    give_levels(plain);
    let mut state = 7;
    let mut failed = 0u32;
    for _ in 0..calls {
        let kind = draw(&mut state);
        let at = draw(&mut state);
        let number = draw(&mut state);
        if apply(rt, mem, plain, kind, at, number, &mut steps).is_err() {
            failed = failed.saturating_add(1);
        }
    }
    compare(rt, mem, plain, &mut steps)?;
    Ok(failed)
}

#[test]
fn beside_a_flat_memory(rt: HostRuntime) -> Result<(), Fail> {
    let swap = SwapMemory::new(rt.alloc(), 0);
    let Ok(mut mem) = PagedMemory::open(rt.alloc(), &SPACE, swap) else {
        return Err("no memory".into());
    };
    assert!(rt; mem.oldest().is_none());
    let mut plain = PlainMemory::new(rt.alloc(), &SPACE)?;
    let failed = run::<PagedMemory<SwapMemory>, PlainMemory, Brand>(
        &rt,
        &mut mem,
        &mut plain,
        6_000,
        Blank::new(1),
    )?;
    assert!(rt; failed == 0);
    assert!(rt; mem.pages() == PAGES);
    assert!(rt; mem.oldest() == Some(96));
    assert!(rt; mem.resident(96));
    assert!(rt; !mem.resident(95));
    Ok(())
}

#[test]
fn a_fault_changes_no_word(rt: HostRuntime) -> Result<(), Fail> {
    for fail in 1..61u32 {
        let swap = SwapMemory::new(rt.alloc(), fail);
        let Ok(mut mem) = PagedMemory::open(rt.alloc(), &SPACE, swap) else {
            return Err("no memory".into());
        };
        let mut plain = PlainMemory::new(rt.alloc(), &SPACE)?;
        let failed = run::<PagedMemory<SwapMemory>, PlainMemory, Brand>(
            &rt,
            &mut mem,
            &mut plain,
            400,
            Blank::new(1),
        )?;
        assert!(rt; failed == 1);
    }
    Ok(())
}
