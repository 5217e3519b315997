//! Objects that are relocated: their new words, and what they leave.
ghost use Rattle.std.specs.Prelude.{◌≡◌, ◌⊎◌, ◌+◌, ◌*◌, ◌/◌, ◌<◌, ◌≤◌, IsTrue, IfOk, OnOk, None, length, Contains};
ghost use Rattle.mem_port.specs.Store.{IsMemory, StoresNothing};
ghost use Rattle.area_space.specs.Table.{slot_of, live, chain};
ghost use Rattle.obj_layout.specs.Forwards.{forward_of};
ghost use Rattle.transporter.specs.Writes.{Writes};
ghost use Rattle.test_ground.specs.Written.{field_or_nil, wider_of, husk_of};

use area_space::RegionTable;
use mem_port::Memory;
use std::sync::ledger::Ledger;
use store_word::{CdrCode, Content, Steps, SwapFault, Word};

/// Whether the first word of a cons is a cell's; the word must not be a forward.
pub(crate) fn is_cell(word: Word) -> bool
    ensures here { IsTrue result → forward_of word.content ≡ None }
    ensures cell { IsTrue result → word.cdr ≡ CdrCode.Normal → ⊥ }
{
    match word.content() {
        Content::HeaderForward(_) | Content::GcForward(_) => false,
        _ => word.cdr_code() != CdrCode::Normal,
    }
}

/// Whether an address is in area 0, at level 0, and not old.
pub(crate) fn is_first_class(table: &RegionTable, at: u32) -> bool
    requires { at / 4096 < table.now.regions }
    ensures { IsTrue result → Contains (chain table.now (live (slot_of table.now 0 0))) (at / 4096) }
{
    match table.class_of(at) {
        Some(class) => !class.stale && class.area == 0 && class.level == 0,
        None => false,
    }
}

/// Writes a block of a code with the fields of another, followed by nil: twice as many fields and one.
pub(crate) fn write_wider<M: Memory, L: Ledger>(
    mem: &mut M,
    at: u32,
    code: u16,
    fields: u16,
    to: u32,
    steps: &mut Steps<L>,
) -> Result<(), SwapFault>
    requires at_most { fields ≤ 1023 }
    requires from { at + fields < length (M.seen mem.old).words }
    requires to { to + 2 * fields + 2 ≤ length (M.seen mem.old).words }
    requires apart { (at + fields < to) ⊎ (to + 2 * fields + 2 ≤ at) }
    requires sound { IsMemory (M.seen mem.old) }
    ensures sound { IsMemory (M.seen mem.new) }
    ensures size { length (M.seen mem.new).words ≡ length (M.seen mem.old).words }
    ensures written { OnOk result (Writes (M.seen mem.old) (M.seen mem.new) to (2 * fields + 2) (wider_of (M.seen mem.old).words at code fields)) }
{
    let wide = 2 * fields + 1;
    mem.write(to, Word::header(code, wide), steps)?;
    for i in 0..wide {
        let word = field(mem, at, fields, i, steps)?;
        mem.write(to + 1 + i as u32, word, steps)?;
    }
    Ok(())
}

// A field of a block, or nil after the last.
fn field<M: Memory, L: Ledger>(
    mem: &mut M,
    at: u32,
    fields: u16,
    i: u16,
    steps: &mut Steps<L>,
) -> Result<Word, SwapFault>
    requires in_range { at + fields < length (M.seen mem.old).words }
    requires sound { IsMemory (M.seen mem.old) }
    ensures sound { IsMemory (M.seen mem.new) }
    ensures value { IfOk result (λ word. word ≡ field_or_nil (M.seen mem.old).words at fields i) }
    ensures unchanged { StoresNothing (M.seen mem.old) (M.seen mem.new) }
{
    if i < fields {
        mem.read(at + 1 + i as u32, steps)
    } else {
        Ok(Word::nil())
    }
}

/// Writes a HEADER-FORWARD in place of an object's first word, and NULL in this many words after it.
pub(crate) fn leave_husk<M: Memory, L: Ledger>(
    mem: &mut M,
    at: u32,
    to: u32,
    blank: u16,
    steps: &mut Steps<L>,
) -> Result<(), SwapFault>
    requires in_range { at + blank < length (M.seen mem.old).words }
    requires to { to < length (M.seen mem.old).words }
    requires sound { IsMemory (M.seen mem.old) }
    ensures sound { IsMemory (M.seen mem.new) }
    ensures size { length (M.seen mem.new).words ≡ length (M.seen mem.old).words }
    ensures written { OnOk result (Writes (M.seen mem.old) (M.seen mem.new) at (blank + 1) (husk_of to)) }
{
    mem.write(at, Word::header_forward(to), steps)?;
    for i in 0..blank {
        mem.write(at + 1 + i as u32, Word::null(), steps)?;
    }
    Ok(())
}
