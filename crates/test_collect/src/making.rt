//! New objects.
ghost use Rattle.std.specs.Prelude.{◌≡◌, ◌<◌, ◌≤◌, length, IfSome, IfNone, IsTrue};
ghost use Rattle.area_space.specs.View.{view};
ghost use Rattle.heap_state.specs.Views.{RepresentsState};
ghost use Rattle.test_collect.specs.Views.{IsMade};
ghost use Rattle.std.specs.List.{All};
ghost use Rattle.test_collect.specs.Machines.{HasRoomAt};

use crate::acting::reply_of;
use area_space::{Ground, RegionTable};
use heap_commands::NewObject;
use lisp_graph::{Items, Reply};
use mem_port::Memory;
use std::sync::ledger::Ledger;
use store_word::{Steps, Word};

/// What is made: conses of the values of registers, or a block of nil fields.
#[derive(Clone, Copy)]
pub(crate) enum New {
    Pair { car: u8, cdr: u8 },
    List { item: u8, count: u16 },
    Block { code: u16, fields: u16 },
}

// Whether the area and the level exist, and the quota allows this many words, at least one.
fn has_room(table: &RegionTable, area: u8, level: u8, charge: u32) -> bool
    ensures { IsTrue result → HasRoomAt table.now area level charge }
{
    let _regions = table.regions();
    if charge == 0 || area as u32 >= table.areas() || level as u32 >= table.levels() {
        return false;
    }
    charge <= table.quota(area) - table.account(area)
}

// This many of the registers from this one on; register 0 follows the last one.
fn items_from(item: u8, count: u16) -> Items
    requires { count ≤ 1024 }
    ensures many { length result ≡ count }
    ensures in_range { All (λ item. item < 8) result }
{
    let mut items = Items::new();
    for i in 0..count {
        items.push(((item as u32 + i as u32) % 8) as u8);
    }
    items
}

/// Makes an object in an area, at a level; None if the quota doesn't allow its charge,
/// or if a register, the area or a size doesn't exist.
pub(crate) fn make<M: Memory, L: Ledger>(
    ground: &mut Ground<M>,
    registers: &mut [Word],
    to: u8,
    area: u8,
    level: u8,
    what: New,
    steps: &mut Steps<L>,
) -> Option<Reply>
    requires consistent { RepresentsState (view ground.old) registers.old }
    requires size { length registers.old ≡ 8 }
    ensures some { IfSome result (λ reply. IsMade (view ground.old) registers.old (view ground.new) registers.new area level reply) }
    ensures none { IfNone result (((view ground.new).mem.store ≡ (view ground.old).mem.store) × (ground.new.table ≡ ground.old.table) × (registers.new ≡ registers.old)) }
{
    if to >= 8 {
        return None;
    }
    let object = NewObject { to, area, level };
    match what {
        New::Pair { car, cdr } if car < 8 && cdr < 8 && has_room(&ground.table, area, level, 2) =>
            Some(reply_of(heap_commands::cons(ground, registers, object, car, cdr, steps))),
        New::List { item, count }
            if count <= 1024 && has_room(&ground.table, area, level, 3 * count as u32) => {
            let items = items_from(item, count);
            Some(reply_of(heap_commands::list(ground, registers, object, &items, steps)))
        }
        New::Block { code, fields }
            if fields <= 2047 && has_room(&ground.table, area, level, fields as u32 + 1) => Some(
            reply_of(heap_commands::make(ground, registers, object, code, fields, steps)),
        ),
        _ => None,
    }
}
