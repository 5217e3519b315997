//! Objects of each kind are transported over a flat memory, and over 32 frames with each page call failing in turn.
ghost use Rattle.std.specs.Prelude.{◌≡◌, ◌<◌, ◌≤◌, IfOk, OnOk};
ghost use Rattle.area_space.specs.View.{view};
ghost use Rattle.test_ground.specs.Views.{IsOpen, IsRunning};
ghost use Rattle.lisp_graph.specs.World.{AreAreas};
ghost use Rattle.area_space.specs.Fresh.{RoomRuleFor};
ghost use Rattle.mem_port.specs.Store.{IsFresh};

use crate::transports::trial::{Register, Trial};
use lisp_graph::{AreaKind, AreaRule, Areas, Name};
use mem_port::{Memory, PlainMemory};
use paged_memory::{PagedMemory, SwapMemory};
use std::alloc::Global;
use std::marker::Brand;
use std::process::Abort;
use std::sync::ledger::{Blank, Ledger};
use std::test::Fail;
use store_word::{CdrCode, Space, Steps, SwapFault, Word};

const SPACE: Space = Space {
    regions: 16,
    frames: 32,
    registers: 2,
    levels: 1,
    rate: 0,
    capacity: [0; 6],
};

// What is made, and then transported. The middle register is settled first, except in cases that say
// `front_first`.
#[derive(Clone, Copy)]
enum Case {
    Pair,
    List {
        count: u16,
        index: u16,
    },
    // A list, of which one cell was relocated as a pair.
    Cut {
        count: u16,
        index: u16,
        front_first: bool,
    },
    // A block, alone in its region or after a cell.
    Block {
        fields: u16,
        behind_cell: bool,
    },
    // A block of no fields that grew eleven times.
    Grown,
}

const CASES: [Case; 13] = [
    Case::Pair,
    Case::List { count: 1, index: 0 },
    Case::List { count: 5, index: 2 },
    Case::List {
        count: 1024,
        index: 0,
    },
    Case::List {
        count: 1024,
        index: 1000,
    },
    Case::Cut {
        count: 5,
        index: 2,
        front_first: true,
    },
    Case::Cut {
        count: 5,
        index: 2,
        front_first: false,
    },
    Case::Cut {
        count: 1024,
        index: 1023,
        front_first: true,
    },
    Case::Cut {
        count: 1024,
        index: 1023,
        front_first: false,
    },
    Case::Block {
        fields: 0,
        behind_cell: false,
    },
    Case::Block {
        fields: 2047,
        behind_cell: false,
    },
    Case::Block {
        fields: 2047,
        behind_cell: true,
    },
    Case::Grown,
];

// The places of a block without fields that grows eleven times at the start of a region: each block has
// twice the words of the one before it, and directly follows it.
const PLACES: [u16; 12] = [0, 1, 3, 7, 15, 31, 63, 127, 255, 511, 1023, 2047];

// A case has fewer page calls.
const MANY_CALLS: u32 = 400;

// One dynamic area.
fn areas(alloc: Global) -> Result<Areas, Fail>
    ensures are { IfOk result AreAreas }
    ensures room { IfOk result (RoomRuleFor 16 1) }
{
    let mut areas = Areas::new(alloc);
    areas.push(AreaRule {
        name: Name::read(b"work").ok_or("no name")?,
        kind: AreaKind::Dynamic,
        quota: 8000,
    })?;
    Ok(areas)
}

// Makes the objects of a case.
fn make<M: Memory + Drop, L: Ledger>(
    trial: &mut Trial<M>,
    case: Case,
    steps: &mut Steps<L>,
) -> Result<bool, SwapFault>
    requires { IsOpen (view trial.old.ground) trial.old.front trial.old.middle }
    ensures { OnOk result (IsOpen (view trial.new.ground) trial.new.front trial.new.middle) }
{
    match case {
        Case::Pair => trial.cons(5, steps),
        Case::List { count, index } => make_list(trial, count, index, steps),
        Case::Cut { count, index, .. } => {
            let made = make_list(trial, count, index, steps)?;
            let cut = trial.cut(steps)?;
            Ok(made && cut)
        }
        Case::Block {
            fields,
            behind_cell: false,
        } => make_block(trial, fields, steps),
        Case::Block { fields, .. } => {
            let cell = trial.list(1, 0, steps)?;
            let made = make_block(trial, fields, steps)?;
            Ok(cell && made)
        }
        Case::Grown => make_grown(trial, steps),
    }
}

// A list, if a list may have this many cells.
fn make_list<M: Memory + Drop, L: Ledger>(
    trial: &mut Trial<M>,
    count: u16,
    index: u16,
    steps: &mut Steps<L>,
) -> Result<bool, SwapFault>
    requires { IsOpen (view trial.old.ground) trial.old.front trial.old.middle }
    ensures { OnOk result (IsOpen (view trial.new.ground) trial.new.front trial.new.middle) }
{
    if count > 1024 || index >= count {
        return Ok(false);
    }
    trial.list(count, index, steps)
}

// A block, if a block may have this many fields.
fn make_block<M: Memory + Drop, L: Ledger>(
    trial: &mut Trial<M>,
    fields: u16,
    steps: &mut Steps<L>,
) -> Result<bool, SwapFault>
    requires { IsOpen (view trial.old.ground) trial.old.front trial.old.middle }
    ensures { OnOk result (IsOpen (view trial.new.ground) trial.new.front trial.new.middle) }
{
    if fields > 2047 {
        return Ok(false);
    }
    trial.block(fields, steps)
}

// A block of no fields, which grows eleven times.
fn make_grown<M: Memory + Drop, L: Ledger>(
    trial: &mut Trial<M>,
    steps: &mut Steps<L>,
) -> Result<bool, SwapFault>
    requires { IsOpen (view trial.old.ground) trial.old.front trial.old.middle }
    ensures { OnOk result (IsOpen (view trial.new.ground) trial.new.front trial.new.middle) }
{
    let mut made = trial.block(0, steps)?;
    for _turn in 0..11u32 {
        let grown = trial.grow(steps)?;
        made = made && grown;
    }
    Ok(made)
}

// Compares the word at an address, which is read again if a swap error occurs.
fn expect<M: Memory + Drop, L: Ledger>(
    rt: &impl Abort,
    trial: &mut Trial<M>,
    at: u32,
    word: Word,
    steps: &mut Steps<L>,
    met: &mut bool,
) -> Result<(), SwapFault>
    requires { IsRunning (view trial.old.ground) trial.old.front trial.old.middle }
    ensures { IsRunning (view trial.new.ground) trial.new.front trial.new.middle }
{
    let read = match trial.read(at, steps) {
        Ok(read) => read,
        Err(_) => {
            *met = true;
            trial.read(at, steps)?
        }
    };
    let bits = match read {
        Some(word) => word.bits(),
        None => 0,
    };
    assert!(rt; bits == word.bits());
    Ok(())
}

// Settles a register, again if a swap error occurs.
fn settle<M: Memory + Drop, L: Ledger>(
    trial: &mut Trial<M>,
    register: Register,
    steps: &mut Steps<L>,
    met: &mut bool,
) -> Result<(), SwapFault>
    requires { IsRunning (view trial.old.ground) trial.old.front trial.old.middle }
    ensures { IsRunning (view trial.new.ground) trial.new.front trial.new.middle }
{
    if trial.settle(register, steps).is_err() {
        *met = true;
        trial.settle(register, steps)?;
    }
    Ok(())
}

// Settles both registers, in the order of the case.
fn settle_both<M: Memory + Drop, L: Ledger>(
    trial: &mut Trial<M>,
    case: Case,
    steps: &mut Steps<L>,
    met: &mut bool,
) -> Result<(), SwapFault>
    requires { IsRunning (view trial.old.ground) trial.old.front trial.old.middle }
    ensures { IsRunning (view trial.new.ground) trial.new.front trial.new.middle }
{
    match case {
        Case::Cut {
            front_first: true,
            ..
        } => {
            settle(trial, Register::Front, steps, met)?;
            settle(trial, Register::Middle, steps, met)
        }
        _ => {
            settle(trial, Register::Middle, steps, met)?;
            settle(trial, Register::Front, steps, met)
        }
    }
}

// The address of a reference, in the words of 16 regions.
fn address(rt: &impl Abort, word: Word) -> u32
    ensures { result < 65536 }
{
    match word.address() {
        Some(at) => {
            assert!(rt; at < 65_536);
            at
        }
        None => 0,
    }
}

// A pair of a number and nil that moved. Its second word has a code.
fn check_pair<M: Memory + Drop, L: Ledger>(
    rt: &impl Abort,
    trial: &mut Trial<M>,
    old: u32,
    new: u32,
    number: u16,
    code: CdrCode,
    steps: &mut Steps<L>,
    met: &mut bool,
) -> Result<(), SwapFault>
    requires old { old < 131072 }
    requires new { new < 65536 }
    requires collecting { IsRunning (view trial.old.ground) trial.old.front trial.old.middle }
    ensures { IsRunning (view trial.new.ground) trial.new.front trial.new.middle }
{
    let car = Word::fixnum(number as i32).with_cdr(CdrCode::Normal);
    let cdr = Word::nil().with_cdr(code);
    expect(rt, trial, old, Word::gc_forward(new), steps, met)?;
    expect(rt, trial, new, car, steps, met)?;
    expect(rt, trial, new + 1, cdr, steps, met)
}

// A block of nil fields, of which the last is read.
fn check_block<M: Memory + Drop, L: Ledger>(
    rt: &impl Abort,
    trial: &mut Trial<M>,
    old: u32,
    new: u32,
    fields: u16,
    steps: &mut Steps<L>,
    met: &mut bool,
) -> Result<(), SwapFault>
    requires at_most { fields ≤ 2047 }
    requires old { old < 131072 }
    requires new { new < 65536 }
    requires collecting { IsRunning (view trial.old.ground) trial.old.front trial.old.middle }
{
    expect(rt, trial, old, Word::gc_forward(new), steps, met)?;
    expect(rt, trial, new, Word::header(0, fields), steps, met)?;
    if fields > 0 {
        let last = new + fields as u32;
        expect(rt, trial, last, Word::nil(), steps, met)?;
    }
    Ok(())
}

// How many pages a block has words on.
fn pages(at: u32, fields: u16) -> u32
    requires { at < 65536 }
{
    (at + fields as u32) / 256 + 1 - at / 256
}

// Tests a block after eleven forwards, of which the first is at this address.
fn check_grown<M: Memory + Drop, L: Ledger>(
    rt: &impl Abort,
    trial: &mut Trial<M>,
    old: u32,
    new: u32,
    steps: &mut Steps<L>,
    met: &mut bool,
) -> Result<(), SwapFault>
    requires old { old < 65536 }
    requires new { new < 65536 }
    requires collecting { IsRunning (view trial.old.ground) trial.old.front trial.old.middle }
{
    for i in 0..11usize {
        let here = old + PLACES[i] as u32;
        let next = old + PLACES[i + 1] as u32;
        expect(rt, trial, here, Word::header_forward(next), steps, met)?;
    }
    let last = old + PLACES[11] as u32;
    check_block(rt, trial, last, new, 2047, steps, met)
}

// Cells that moved together, numbered from a number on. The last one is coded nil, or it became a
// pair.
#[derive(Clone, Copy)]
struct Cells {
    old: u32,
    new: u32,
    first: u16,
    count: u16,
    cut: bool,
}

// The cdr code of a cell in its new place.
fn code_of(cells: Cells, i: u16) -> CdrCode
    requires { i < cells.count }
{
    if i + 1 < cells.count {
        CdrCode::Next
    } else if cells.cut {
        CdrCode::Normal
    } else {
        CdrCode::Nil
    }
}

// Tests each of these cells.
fn check_cells<M: Memory + Drop, L: Ledger>(
    rt: &impl Abort,
    trial: &mut Trial<M>,
    cells: Cells,
    steps: &mut Steps<L>,
    met: &mut bool,
) -> Result<(), SwapFault>
    requires old { cells.old < 131072 }
    requires new { cells.new < 65536 }
    requires collecting { IsRunning (view trial.old.ground) trial.old.front trial.old.middle }
    ensures { IsRunning (view trial.new.ground) trial.new.front trial.new.middle }
{
    for i in 0..cells.count {
        let here = cells.old + i as u32;
        let there = cells.new + i as u32;
        let number = Word::fixnum(cells.first as i32 + i as i32);
        let word = number.with_cdr(code_of(cells, i));
        expect(rt, trial, here, Word::gc_forward(there), steps, met)?;
        expect(rt, trial, there, word, steps, met)?;
    }
    Ok(())
}

// A list of numbers in two parts: how many cells it had and how many of them are its first part, its old address, and the new addresses
// of the two parts.
#[derive(Clone, Copy)]
struct Parted {
    count: u16,
    index: u16,
    old: u32,
    front: u32,
    middle: u32,
}

// The cells of the first part. What follows them isn't the next word.
fn front_cells(list: Parted) -> Cells
    ensures old { result.old ≡ list.old }
    ensures new { result.new ≡ list.front }
{
    Cells {
        old: list.old,
        new: list.front,
        first: 0,
        count: list.index,
        cut: true,
    }
}

// A list in two parts: the last cell of the first part became a pair, whose cdr is the second part.
fn check_list<M: Memory + Drop, L: Ledger>(
    rt: &impl Abort,
    trial: &mut Trial<M>,
    list: Parted,
    steps: &mut Steps<L>,
    met: &mut bool,
) -> Result<(), SwapFault>
    requires in_range { list.index < list.count }
    requires old { list.old < 65536 }
    requires order { list.front < 65536 }
    requires middle { list.middle < 65536 }
    requires collecting { IsRunning (view trial.old.ground) trial.old.front trial.old.middle }
{
    let rest = Cells {
        old: list.old + list.index as u32,
        new: list.middle,
        first: list.index,
        count: list.count - list.index,
        cut: false,
    };
    check_cells(rt, trial, rest, steps, met)?;
    if list.index == 0 {
        return Ok(());
    }
    let behind = list.front + list.index as u32;
    check_cells(rt, trial, front_cells(list), steps, met)?;
    expect(rt, trial, behind, Word::list_at(list.middle), steps, met)
}

// Cells before a HEADER-FORWARD to a pair, and that pair. The cdr of the last cell is the address of the pair
// when the cells moved.
fn check_cut<M: Memory + Drop, L: Ledger>(
    rt: &impl Abort,
    trial: &mut Trial<M>,
    list: Parted,
    front_first: bool,
    steps: &mut Steps<L>,
    met: &mut bool,
) -> Result<(), SwapFault>
    requires in_range { list.index < list.count }
    requires old { list.old < 65536 }
    requires order { list.front < 65536 }
    requires middle { list.middle < 65536 }
    requires collecting { IsRunning (view trial.old.ground) trial.old.front trial.old.middle }
{
    let cell = list.old + list.index as u32;
    let pair = list.old + list.count as u32;
    let cut = Word::header_forward(pair);
    expect(rt, trial, cell, cut, steps, met)?;
    check_pair(
        rt,
        trial,
        pair,
        list.middle,
        list.index,
        CdrCode::Next,
        steps,
        met,
    )?;
    let behind = list.front + list.index as u32;
    let cdr = cdr_before(pair, list.middle, front_first);
    check_cells(rt, trial, front_cells(list), steps, met)?;
    expect(rt, trial, behind, cdr, steps, met)
}

// The list that is a pair: at its old address, or at its new one.
fn cdr_before(old: u32, new: u32, front_first: bool) -> Word
    requires old { old < 131072 }
    requires new { new < 65536 }
{
    if front_first {
        Word::list_at(old)
    } else {
        Word::list_at(new)
    }
}

// Does a case from its making to its transports. Returns whether a page call failed.
fn run<M: Memory + Drop, L: Ledger>(
    rt: &impl Abort,
    alloc: Global,
    mem: M,
    case: Case,
    blank: Blank,
) -> Result<bool, Fail>
    requires fresh { IsFresh (M.seen mem) 16 1 }
    requires name { blank.name ≡ L.name }
    requires parts { blank.parts ≡ L.parts }
    requires at_least { blank.parts ≡ 1 }
{
    let mut steps = Steps::<L>::new(blank);
    let areas = areas(alloc)?;
    let Ok(mut trial) = Trial::new(alloc, &SPACE, &areas, mem) else {
        return Err("no memory".into());
    };
    match make(&mut trial, case, &mut steps) {
        Ok(made) => assert!(rt; made),
        Err(_) => return Ok(true),
    }
    if trial.page_out(32).is_err() {
        return Ok(true);
    }
    let old = address(rt, trial.front);
    trial.flip();
    let mut met = false;
    if settle_both(&mut trial, case, &mut steps, &mut met).is_err() {
        return Err("two faults".into());
    }
    if check(rt, &mut trial, case, old, &mut steps, &mut met).is_err() {
        return Err("a fault at each reading".into());
    }
    Ok(met)
}

// Compares the words after a case.
fn check<M: Memory + Drop, L: Ledger>(
    rt: &impl Abort,
    trial: &mut Trial<M>,
    case: Case,
    old: u32,
    steps: &mut Steps<L>,
    met: &mut bool,
) -> Result<(), SwapFault>
    requires old { old < 65536 }
    requires collecting { IsRunning (view trial.old.ground) trial.old.front trial.old.middle }
{
    let front = address(rt, trial.front);
    let middle = address(rt, trial.middle);
    match case {
        Case::Pair => check_pair(rt, trial, old, front, 5, CdrCode::Second, steps, met),
        Case::List { count, index } => {
            assert!(rt; index < count);
            let list = Parted {
                count,
                index,
                old,
                front,
                middle,
            };
            check_list(rt, trial, list, steps, met)
        }
        Case::Cut {
            count,
            index,
            front_first,
        } => {
            assert!(rt; index < count);
            let list = Parted {
                count,
                index,
                old,
                front,
                middle,
            };
            check_cut(rt, trial, list, front_first, steps, met)
        }
        Case::Block {
            fields,
            behind_cell,
        } => {
            assert!(rt; fields <= 2047);
            if behind_cell {
                assert!(rt; pages(old, fields) == 9 && pages(front, fields) == 9);
            }
            check_block(rt, trial, old, front, fields, steps, met)
        }
        Case::Grown => check_grown(rt, trial, old, front, steps, met),
    }
}

#[test]
fn over_a_flat_memory(rt: HostRuntime) -> Result<(), Fail> {
    for case in CASES {
        let mem = PlainMemory::new(rt.alloc(), &SPACE)?;
        let failed = run::<PlainMemory, Brand>(&rt, rt.alloc(), mem, case, Blank::new(1))?;
        assert!(rt; !failed);
    }
    Ok(())
}

// Does a case over a paged memory, of which one page call fails, or none. Returns whether one failed.
fn run_paged(rt: &impl Abort, alloc: Global, case: Case, fail: u32) -> Result<bool, Fail> {
    let swap = SwapMemory::new(alloc, fail);
    let Ok(mem) = PagedMemory::open(alloc, &SPACE, swap) else {
        return Err("no memory".into());
    };
    run::<PagedMemory<SwapMemory>, Brand>(rt, alloc, mem, case, Blank::new(1))
}

// Does a case with each of its page calls failing in turn.
fn fail_each(rt: &impl Abort, alloc: Global, case: Case) -> Result<(), Fail> {
    for fail in 1..MANY_CALLS {
        if !run_paged(rt, alloc, case, fail)? {
            return Ok(());
        }
    }
    Err("too many page calls".into())
}

#[test]
fn with_each_page_call_failing(rt: HostRuntime) -> Result<(), Fail> {
    for case in CASES {
        assert!(rt; !run_paged(&rt, rt.alloc(), case, 0)?);
        fail_each(&rt, rt.alloc(), case)?;
    }
    Ok(())
}
