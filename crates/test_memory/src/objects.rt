//! The worked example of `specs/Example.antt`, in a flat memory.
ghost use Rattle.std.specs.Prelude.{◌≡◌, ◌<◌, ◌≤◌, ℕ, length, OnOk};
ghost use Rattle.mem_port.specs.Store.{IsFresh};
ghost use Rattle.obj_layout.specs.Forwards.{word_at};
ghost use Rattle.test_memory.specs.Example.{example_words, IsExample};

use crate::memories::five_regions;
use mem_port::{Memory, PlainMemory};
use obj_layout::{Run, RunEnd, Shape, charge_of, resolve, run_length, shape_at, words_of};
use std::marker::Brand;
use std::process::Abort;
use std::sync::ledger::{Blank, Ledger};
use std::test::Fail;
use store_word::{CdrCode, Steps, SwapFault, Word};

// Objects of each shape, and a compact run with each end.
fn example() -> [Word; 15]
    ensures { result ≡ example_words }
{
    [
        Word::fixnum(1).with_cdr(CdrCode::Normal),
        Word::nil().with_cdr(CdrCode::Second),
        Word::fixnum(2).with_cdr(CdrCode::Normal),
        Word::nil(),
        Word::header(9, 2),
        Word::fixnum(3),
        Word::fixnum(4),
        Word::fixnum(5),
        Word::fixnum(6).with_cdr(CdrCode::Nil),
        Word::fixnum(7),
        Word::fixnum(8).with_cdr(CdrCode::Normal),
        Word::nil().with_cdr(CdrCode::Second),
        Word::fixnum(9),
        Word::header_forward(14),
        Word::gc_forward(2),
    ]
}

// Stores words from address 0 on.
fn store_all<M: Memory, L: Ledger>(
    mem: &mut M,
    words: &[Word],
    steps: &mut Steps<L>,
) -> Result<(), SwapFault>
    requires { length words.now ≤ length (M.seen mem.old).words }
    ensures size { length (M.seen mem.new).words ≡ length (M.seen mem.old).words }
    ensures absent { OnOk result ((at : ℕ) → at < length words.now
        → word_at (M.seen mem.new).words at ≡ word_at words.now at) }
{
    let _pages = mem.pages();
    for (at, word) in words.iter().enumerate() {
        mem.write(at as u32, *word, steps)?;
    }
    Ok(())
}

fn objects<M: Memory, L: Ledger>(
    rt: &impl Abort,
    mem: &mut M,
    steps: &mut Steps<L>,
) -> Result<(), SwapFault>
    requires { IsExample (M.seen mem.old).words }
    ensures { IsExample (M.seen mem.new).words }
{
    assert!(rt; resolve(mem, 13, steps)? == 2);
    assert!(rt; charge_of(mem, 0, steps)? == 2);
    assert!(rt; charge_of(mem, 2, steps)? == 3);
    let shape = shape_at(mem, 4, steps)?;
    assert!(rt; shape == Shape::BlockOf { code: 9, length: 2 });
    assert!(rt; words_of(&shape) == 3);
    Ok(())
}

fn runs<M: Memory, L: Ledger>(
    rt: &impl Abort,
    mem: &mut M,
    steps: &mut Steps<L>,
) -> Result<(), SwapFault>
    requires { IsExample (M.seen mem.old).words }
{
    for (at, cells, ending) in [
        (7, 2, RunEnd::Nil),
        (9, 1, RunEnd::Pair),
        (12, 1, RunEnd::Forwarded(2)),
    ] {
        assert!(rt; run_length(mem, at, steps)? == Run { cells, ending });
    }
    Ok(())
}

fn script<M: Memory, L: Ledger>(rt: &impl Abort, mem: &mut M, blank: Blank) -> Result<(), SwapFault>
    requires fresh { IsFresh (M.seen mem.old) 5 1 }
    requires name { blank.name ≡ L.name }
    requires parts { blank.parts ≡ L.parts }
    requires at_least { blank.parts ≡ 1 }
{
    let mut steps = Steps::<L>::new(blank);
    store_all(mem, &example(), &mut steps)?;
    objects(rt, mem, &mut steps)?;
    runs(rt, mem, &mut steps)
}

#[test]
fn worked_example(rt: HostRuntime) -> Result<(), Fail> {
    let mut mem = five_regions(rt.alloc(), 1)?;
    script::<PlainMemory, Brand>(&rt, &mut mem, Blank::new(1))?;
    Ok(())
}
