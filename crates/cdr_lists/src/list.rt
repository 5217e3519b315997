//! A new list, as a compact run of cells in its class.
ghost use Rattle.std.specs.Prelude.{◌≡◌, ◌+◌, ◌*◌, ◌<◌, ◌≤◌, length, IsOk, IfOk, OnOk, OnErr};
ghost use Rattle.mem_port.specs.View.{WithoutFault, AccountsForFaults, shown};
ghost use Rattle.area_space.specs.View.{view};
ghost use Rattle.cdr_lists.specs.Opening.{OpensIfNeeded};
ghost use Rattle.cdr_lists.specs.Views.{CanList, ListedOn};
ghost use Rattle.mem_port.specs.Store.{StoresNothing};
ghost use Rattle.mem_port.specs.Spans.{HoldsSpan};
ghost use Rattle.mem_port.specs.declared.spans.Span.{Span};
ghost use Rattle.transporter.specs.Writes.{Writes};
ghost use Rattle.cdr_lists.specs.Lists.{CanLay, cell_code, cell_word};
ghost use Rattle.cdr_lists.specs.Making.{AddsCells, FailsWhole, HasCellsAt, PlacesWords};

use area_space::{Ground, Origin};
use lisp_graph::Items;
use mem_port::{Memory, Span, hold_spans};
use std::sync::ledger::Ledger;
use store_word::{CdrCode, Steps, SwapFault, Word};
use transporter::place_for;

/// The charge of a cell that `list` makes, in words: its word, and two for the pair that it may
/// become.
pub const CELL: u32 = 3;

// The cdr code of a cell in a list of `count` cells.
fn cell_code(count: usize, i: usize) -> CdrCode
    requires { i < count }
    ensures { result ≡ cell_code count i }
{
    if i + 1 == count {
        CdrCode::Nil
    } else {
        CdrCode::Next
    }
}

// Writes a cell for each item. Their pages are held, so no swap error occurs. It takes one memory access a cell.
fn write_cells<M: Memory, L: Ledger>(
    mem: &mut M,
    at: u32,
    registers: &[Word],
    items: &[u8],
    steps: &mut Steps<L>,
) -> Result<(), SwapFault>
    requires can { CanLay (M.seen mem.old).words at registers.now items.now }
    requires held { HoldsSpan (M.held mem.old) (record { at = at; words = length items.now }) }
    ensures succeeds { IsOk result }
    ensures cells { Writes (M.seen mem.old) (M.seen mem.new) at (length items.now) (cell_word registers.now items.now) }
    ensures no_fault { WithoutFault (shown M.Memory mem.old) (shown M.Memory mem.new) steps.old steps.new }
    ensures cost { steps.new ≡ steps.old + length items.now }
{
    for i in 0..items.len() {
        let car = registers[items[i] as usize];
        let code = cell_code(items.len(), i);
        mem.write(at + i as u32, car.with_cdr(code), steps)?;
    }
    Ok(())
}

// Writes the cells of a list, or none: their pages are held first.
fn lay_cells<M: Memory, L: Ledger>(
    mem: &mut M,
    at: u32,
    registers: &[Word],
    items: &[u8],
    steps: &mut Steps<L>,
) -> Result<(), SwapFault>
    requires { CanLay (M.seen mem.old).words at registers.now items.now }
    ensures cells { OnOk result (Writes (M.seen mem.old) (M.seen mem.new) at (length items.now) (cell_word registers.now items.now)) }
    ensures err { OnErr result (StoresNothing (M.seen mem.old) (M.seen mem.new)) }
    ensures accounted { AccountsForFaults (shown M.Memory mem.old) (shown M.Memory mem.new) steps.old steps.new result }
    ensures cost { steps.new ≤ steps.old + length items.now + 5 }
{
    let cells = Span {
        at,
        words: items.len() as u32,
    };
    let no_other = Span { at, words: 0 };
    hold_spans(mem, cells, no_other, steps)?;
    write_cells(mem, at, registers, items, steps)
}

/// Makes a list of 1 to 1,024 registers' words in an area, at a level, and returns the address of its
/// first cons. Its cells are in consecutive words. Its charge, 3 words a cell, has to fit the quota
/// of the area. It takes at most 5 memory accesses and one for each cell. On a swap error nothing is made, though a
/// region may have been opened for the list, and the count of swap errors has risen.
pub fn make_list<M: Memory, L: Ledger>(
    ground: &mut Ground<M>,
    area: u8,
    level: u8,
    registers: &[Word],
    items: &Items,
    steps: &mut Steps<L>,
) -> Result<u32, SwapFault>
    requires { CanList (view ground.old) area level registers.now items.now }

    // What is made, and at which address.
    ensures made { IfOk result (ListedOn (view ground.old) (view ground.new) area level registers.now items.now) }
    ensures words { IfOk result (HasCellsAt (view ground.new) registers.now items.now) }
    ensures placed { IfOk result (PlacesWords (view ground.old) (view ground.new) (record { area = area; level = level; words = length items.now; charge = 3 * length items.now })) }
    ensures needed { OpensIfNeeded ground.old.table ground.new.table area level (length items.now) }

    // What is unchanged in the ground, swap errors and the cost.
    ensures stays_ground { AddsCells (view ground.old) (view ground.new) registers.now items.now }
    ensures fault { FailsWhole (view ground.old) (view ground.new) result steps.old steps.new }
    ensures cost { steps.new ≤ steps.old + length items.now + 5 }
{
    let numbers = items.as_slice();
    let cells = numbers.len() as u32;
    let placed = place_for(ground, area, level, cells);
    lay_cells(&mut ground.mem, placed.at, registers, numbers, steps)?;
    ground.commit(&placed, cells, CELL * cells, Origin::New);
    Ok(placed.at)
}
