//! A flat memory through the trait: words, and the marks that stores and remarks leave.
ghost use Rattle.std.specs.Prelude.{◌≡◌, ◌≤◌, IfOk};
ghost use Rattle.mem_port.specs.Plain.{plain_store};
ghost use Rattle.mem_port.specs.Store.{IsFresh};

use mem_port::{Memory, PlainMemory, Span, hold_spans, levels_on};
use std::alloc::Global;
use std::marker::Brand;
use std::process::Abort;
use std::sync::ledger::{Blank, Ledger};
use std::test::Fail;
use store_word::{Flags, Levels, NoMemory, Space, Steps, SwapFault, Word};

/// A flat memory of five regions, with this greatest level.
pub(crate) fn five_regions(alloc: Global, levels: u8) -> Result<PlainMemory, NoMemory>
    requires { levels ≤ 6 }
    ensures { IfOk result (λ memory. IsFresh (plain_store memory) 5 levels) }
{
    let space = Space {
        regions: 5,
        frames: 32,
        registers: 8,
        levels,
        rate: 0,
        capacity: [0; 6],
    };
    PlainMemory::new(alloc, &space)
}

// Stores a word on page 3, and then NULL in its place: what its marks are meanwhile.
fn store_and_drop<M: Memory, L: Ledger>(
    rt: &impl Abort,
    mem: &mut M,
    word: Word,
    marked: bool,
    steps: &mut Steps<L>,
) -> Result<(), SwapFault> {
    assert!(rt; mem.pages() == 80);
    let span = Span { at: 767, words: 2 };
    hold_spans(mem, span, Span { at: 0, words: 0 }, steps)?;
    mem.write(768, word, steps)?;
    assert!(rt; mem.read(768, steps)?.bits() == word.bits());
    assert!(rt; mem.marked(3, Levels::one(2)) == marked);
    mem.remark(3);
    assert!(rt; mem.next_marked(0, Levels::all()).is_some() == marked);
    mem.write(768, Word::null(), steps)?;
    mem.remark(3);
    assert!(rt; mem.next_marked(0, Levels::all()).is_none());
    Ok(())
}

// Region 4, at addresses 16,384 to 20,479, is given level 1 of 2; the others remain at level 0.
fn script<M: Memory, L: Ledger>(rt: &impl Abort, mem: &mut M, blank: Blank) -> Result<(), SwapFault>
    requires fresh { IsFresh (M.seen mem.old) 5 2 }
    requires name { blank.name ≡ L.name }
    requires parts { blank.parts ≡ L.parts }
    requires at_least { blank.parts ≡ 1 }
{
    let mut steps = Steps::<L>::new(blank);
    mem.set_level(4, 1);
    for (word, marked) in [
        (Word::fixnum(16384), false),
        (Word::nil(), false),
        (Word::header(16384, 2), false),
        (Word::list_at(16383), false),
        (Word::list_at(16384), true),
        (Word::struct_at(20479), true),
        (Word::header_forward(16400), true),
        (Word::gc_forward(16400), true),
        (Word::gc_forward(0), false),
    ] {
        store_and_drop(rt, mem, word, marked, &mut steps)?;
    }
    assert!(rt; mem.pages() == 80);
    mem.write(0, Word::list_at(16384), &mut steps)?;
    mem.clear(0);
    assert!(rt; mem.next_marked(0, Levels::all()).is_none());
    assert!(rt; mem.read(0, &mut steps)?.bits() == 0);
    assert!(rt; mem.level_of(16384) == 1);
    assert!(rt; mem.evict_oldest(7)? == 0);
    Ok(())
}

#[test]
fn flat_memory(rt: HostRuntime) -> Result<(), Fail> {
    let mut mem = five_regions(rt.alloc(), 2)?;
    script::<PlainMemory, Brand>(&rt, &mut mem, Blank::new(1))?;
    let words = [Word::list_at(4096), Word::fixnum(3), Word::struct_at(9000)];
    let levels = levels_on(&words, &[0, 2, 5]);
    assert!(rt; levels == Levels::one(2).union(Levels::one(5)));
    Ok(())
}
