//! Makes the objects of a world, each with the parts that are known by then.
ghost use Rattle.std.specs.Prelude.{◌≡◌, ◌+◌, ◌<◌, ◌≤◌, Some, length, drop, replicate, IfOk, OnOk, OnErr, [], IsOk};
ghost use Rattle.mem_port.specs.View.{AccountsForFaults};
ghost use Rattle.area_space.specs.View.{view};
ghost use Rattle.heap_load.specs.Views.{Drafted, HoldsSome};
ghost use Rattle.lisp_graph.specs.Graph.{object_at};
ghost use Rattle.lisp_graph.specs.Groups.{to_tail};
ghost use Rattle.heap_load.specs.Loading.{IsLoadable, Laid, group_from};

use crate::groups::{Group, group_from};
use crate::places::{Place, put_cells, word_so_far};
use area_space::Ground;
use block_store::make_block;
use cdr_lists::{NewPair, make_list, make_pair_of};
use lisp_graph::{BodyRef, Items, World};
use mem_port::Memory;
use std::sync::ledger::Ledger;
use store_word::{Steps, SwapFault, Word};

/// Makes all objects of a world, each with the parts that are known by then, and records their places.
#[inline(never)]
pub(crate) fn make_drafts<M: Memory, L: Ledger>(
    ground: &mut Ground<M>,
    world: &World,
    places: &mut [Place],
    steps: &mut Steps<L>,
) -> Result<(), SwapFault>
    requires loadable { IsLoadable world.now }
    requires places { length places.old ≡ length world.now.objects }
    requires none { Drafted (view ground.old) world.now places.old 0 }
    ensures drafted { OnOk result (Drafted (view ground.new) world.now places.new (length world.now.objects)) }
    ensures laid { OnOk result (Laid (view ground.new).mem.store.words places.new world.now.objects (length world.now.objects)) }
    ensures left { OnErr result (HoldsSome (view ground.new) world.now) }
    ensures regions { ground.new.table.regions ≡ ground.old.table.regions }
    ensures succeeds { world.now.objects ≡ [] → IsOk result }
    ensures accounted { AccountsForFaults (view ground.old).mem (view ground.new).mem steps.old steps.new result }
{
    let objects = &world.objects;
    let mut made = 0;
    let mut linked = 0;
    while made < objects.len() as usize {
        let size = group_from(objects, made, &mut linked);
        let group = Group {
            number: made,
            count: size,
        };
        made += make_next(ground, world, places, group, steps)?;
    }
    Ok(())
}

// Makes the conses of a group as one compact run, or the object of its number alone if its count is 0, and returns
// how many objects it made.
fn make_next<M: Memory, L: Ledger>(
    ground: &mut Ground<M>,
    world: &World,
    places: &mut [Place],
    group: Group,
    steps: &mut Steps<L>,
) -> Result<usize, SwapFault>
    requires loadable { IsLoadable world.now }
    requires places { length places.old ≡ length world.now.objects }
    requires in_range { group.number < length world.now.objects }
    requires agrees { group.count ≡ group_from world.now.objects group.number }
    requires made { Drafted (view ground.old) world.now places.old group.number }
    requires laid { Laid (view ground.old).mem.store.words places.old world.now.objects group.number }

    // what is made
    ensures drafted { IfOk result (λ count. Drafted (view ground.new) world.now places.new (group.number + count)) }
    ensures some { IfOk result (λ count. 1 ≤ count) }
    ensures count { IfOk result (λ count. group.number + count ≤ length world.now.objects) }
    ensures stays_laid { IfOk result (λ count. Laid (view ground.new).mem.store.words places.new world.now.objects (group.number + count)) }

    // after a failure, and what is unchanged
    ensures left { OnErr result (HoldsSome (view ground.new) world.now) }
    ensures regions { ground.new.table.regions ≡ ground.old.table.regions }

    // swap errors
    ensures accounted { AccountsForFaults (view ground.old).mem (view ground.new).mem steps.old steps.new result }
{
    let Group { number, count } = group;
    if count == 0 {
        make_alone(ground, world, places, number, steps)?;
        return Ok(1);
    }
    make_group(ground, world, places, group, steps)?;
    Ok(count)
}

// Makes a cons as a pair of its charge, with nil if a part refers to a later object, or a block with
// nil in each field.
fn make_alone<M: Memory, L: Ledger>(
    ground: &mut Ground<M>,
    world: &World,
    places: &mut [Place],
    number: usize,
    steps: &mut Steps<L>,
) -> Result<(), SwapFault>
    requires loadable { IsLoadable world.now }
    requires places { length places.old ≡ length world.now.objects }
    requires in_range { number < length world.now.objects }
    requires made { Drafted (view ground.old) world.now places.old number }
    requires laid { Laid (view ground.old).mem.store.words places.old world.now.objects number }

    // what is made
    ensures drafted { OnOk result (Drafted (view ground.new) world.now places.new (number + 1)) }
    ensures stays_laid { OnOk result (group_from world.now.objects number ≡ 0 → Laid (view ground.new).mem.store.words places.new world.now.objects (number + 1)) }

    // after a failure, and what is unchanged
    ensures left { OnErr result (HoldsSome (view ground.new) world.now) }
    ensures regions { ground.new.table.regions ≡ ground.old.table.regions }

    // swap errors
    ensures accounted { AccountsForFaults (view ground.old).mem (view ground.new).mem steps.old steps.new result }
{
    let object = world.objects.at(number);
    match object.body {
        BodyRef::Cons { car, cdr } => {
            let car = word_so_far(car, number, places);
            let cdr = word_so_far(cdr, number, places);
            let pair = NewPair {
                area: object.area,
                level: 0,
                charge: object.charge,
            };
            let at = make_pair_of(ground, pair, car, cdr, steps)?;
            places[number] = Place::pair(at);
            Ok(())
        }
        BodyRef::Block { code, fields } => {
            let length = fields.len() as u16;
            let at = make_block(ground, object.area, 0, code, length, steps)?;
            places[number] = Place::block(at);
            Ok(())
        }
    }
}

// Makes the conses of a group as the cells of one list with nil in each car.
#[inline(never)]
fn make_group<M: Memory, L: Ledger>(
    ground: &mut Ground<M>,
    world: &World,
    places: &mut [Place],
    group: Group,
    steps: &mut Steps<L>,
) -> Result<(), SwapFault>
    requires loadable { IsLoadable world.now }
    requires places { length places.old ≡ length world.now.objects }
    requires in_range { group.number < length world.now.objects }
    requires at_most { group.count ≤ 1024 }
    requires agrees { to_tail (object_at world.now.objects group.number).area group.number (drop group.number world.now.objects) ≡ Some group.count }
    requires made { Drafted (view ground.old) world.now places.old group.number }
    requires laid { Laid (view ground.old).mem.store.words places.old world.now.objects group.number }

    // what is made
    ensures drafted { OnOk result (Drafted (view ground.new) world.now places.new (group.number + group.count)) }
    ensures stays_laid { OnOk result (Laid (view ground.new).mem.store.words places.new world.now.objects (group.number + group.count)) }

    // after a failure, and what is unchanged
    ensures left { OnErr result (HoldsSome (view ground.new) world.now) }
    ensures regions { ground.new.table.regions ≡ ground.old.table.regions }

    // swap errors
    ensures accounted { AccountsForFaults (view ground.old).mem (view ground.new).mem steps.old steps.new result }
{
    let Group { number, count } = group;
    let area = world.objects.area_of(number);
    let registers = [Word::nil()];
    let items = first_items(count);
    let from = make_list(ground, area, 0, &registers, &items, steps)?;
    put_cells(places, number, count, from);
    Ok(())
}

// A list that has the first register `count` times.
fn first_items(count: usize) -> Items
    requires { count ≤ 1024 }
    ensures { result ≡ replicate count 0 }
{
    let mut items = Items::new();
    for _i in 0..count {
        items.push(0);
    }
    items
}
