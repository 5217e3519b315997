//! The object lines.
ghost use Rattle.std.specs.Prelude.{◌≡◌, ◌<◌, ◌≤◌, ◌+◌, ◌*◌, ◌^◌, List, [], ◌∷◌, ◌++◌, length, if◌then◌else◌, nat_lt, Ok, Err, OnOk, OnErr};
ghost use Rattle.lisp_graph.specs.declared.object.Object.{Object as OneObject};
ghost use Rattle.world_text.specs.reading.Words.{words_of};
ghost use Rattle.world_text.specs.reading.Next.{Gives};
ghost use Rattle.world_text.specs.reading.Reader.{IsReader, Judged};
ghost use Rattle.lisp_graph.specs.Effect.{link, list_from, pair_of};
ghost use Rattle.world_text.specs.reading.Objects.{added, block_line, charge_with, cons_line, quota_of, run_line};

use crate::reading::next::{each_value, next_area, next_number, next_value};
use crate::{LineResult, Reason, Section, WorldFault, WorldReader, WorldStep};
use lisp_graph::{Body, Object, Objects, Value};
use std::alloc::Global;
use store_word::NoMemory;

fn quota_of(place: &WorldReader, area: usize) -> u32
    ensures { result ≡ quota_of place.now area }
{
    match place.world.areas.as_slice().get(area) {
        Some(rule) => rule.quota,
        None => 0,
    }
}

/// What the area is charged after this many more words.
#[tactic(auto, unfolding(crate::specs::reading::Objects::charge_with))]
fn charge_with(place: &WorldReader, area: usize, wanted: u32) -> Result<u32, WorldFault>
    requires { area < 16 }
    ensures { Gives (λ x. x) result (charge_with place.now area wanted) }
{
    let quota = quota_of(place, area);
    let charged = place.charged[area];
    if u64::from(charged) + u64::from(wanted) > u64::from(quota) {
        return Err(WorldFault::Exhausted {
            area: area as u8,
            charged,
            wanted,
            quota,
        });
    }
    Ok(charged + wanted)
}

/// Adds an object, whose charge the area's quota must allow.
#[tactic(auto, unfolding(crate::specs::reading::Objects::added))]
pub fn add_object(place: &mut WorldReader, area: usize, object: Object) -> LineResult
    requires area { area < 16 }
    requires sound { IsReader place.old }
    ensures judged { Judged place.old place.new result (added place.old area object.charge (object ∷ [])) }
    ensures stays_sound { IsReader place.new }
{
    let charged = charge_with(place, area, object.charge)?;
    place.world.objects.push(object)?;
    place.charged[area] = charged;
    place.part = Section::Objects;
    Ok(WorldStep::Next)
}

/// Adds a cons of charge 2, which the area's quota must allow.
#[inline(always)]
#[tactic(auto, unfolding(crate::specs::reading::Objects::added))]
pub fn add_cons(place: &mut WorldReader, area: usize, car: Value, cdr: Value) -> LineResult
    requires area { area < 16 }
    requires sound { IsReader place.old }
    ensures judged { Judged place.old place.new result (added place.old area 2 (pair_of area car cdr ∷ [])) }
    ensures stays_sound { IsReader place.new }
{
    let charged = charge_with(place, area, 2)?;
    place.world.objects.push_cons(area as u8, 2, car, cdr)?;
    place.charged[area] = charged;
    place.part = Section::Objects;
    Ok(WorldStep::Next)
}

/// The cdr of the cons with this name in a compact list, followed by conses with these cars.
fn link(name: u64, cars: &[Value]) -> Value
    requires { name + 1 < 2 ^ 64 }
    ensures { result ≡ link name cars.now }
{
    match cars {
        [] => Value::Nil,
        [_, ..] => Value::Ref(name + 1),
    }
}

/// Adds the conses of a compact list. If memory runs out, only some of them are added.
#[tactic(auto, using(crate::proofs::reading_laws::Runs::run_more), unfolding(lisp_graph::specs::Effect::list_from))]
fn push_run(objects: &mut Objects, area: u8, cars: &[Value]) -> Result<(), NoMemory>
    ensures ok { OnOk result (objects.new ≡ objects.old ++ list_from area (length objects.old) cars.now) }
    ensures err { OnErr result ((part : List OneObject) × (objects.new ≡ objects.old ++ part)) }
{
    let mut rest = cars;
    while let Some((car, others)) = rest.split_first() {
        let name = objects.len();
        if name == u64::MAX {
            return Err(NoMemory);
        }
        objects.push_cons(area, 3, *car, link(name, others))?;
        rest = others;
    }
    Ok(())
}

/// Adds the conses of a compact list, whose charges the area's quota must allow together.
#[tactic(auto, unfolding(crate::specs::reading::Objects::added))]
pub fn add_run(place: &mut WorldReader, area: usize, cars: &[Value]) -> LineResult
    requires area { area < 16 }
    requires at_most { length cars.now ≤ 1024 }
    requires sound { IsReader place.old }
    ensures judged { Judged place.old place.new result
        (added place.old area (3 * length cars.now) (list_from area (length place.old.world.objects) cars.now)) }
    ensures stays_sound { IsReader place.new }
{
    let charged = charge_with(place, area, 3 * cars.len() as u32)?;
    add_conses(&mut place.world.objects, area as u8, cars)?;
    place.charged[area] = charged;
    place.part = Section::Objects;
    Ok(WorldStep::Next)
}

/// Adds the conses of a compact list, or none of them.
fn add_conses(objects: &mut Objects, area: u8, cars: &[Value]) -> Result<(), NoMemory>
    ensures ok { OnOk result (objects.new ≡ objects.old ++ list_from area (length objects.old) cars.now) }
    ensures err { OnErr result (objects.new ≡ objects.old) }
{
    let before = objects.len();
    match push_run(objects, area, cars) {
        Ok(()) => Ok(()),
        Err(error) => {
            objects.truncate(before as usize);
            Err(error)
        }
    }
}

#[tactic(auto, unfolding(crate::specs::reading::Objects::cons_line))]
pub fn cons_line(place: &mut WorldReader, count: usize, text: &[u8]) -> LineResult
    requires { IsReader place.old }
    ensures judged { Judged place.old place.new result (cons_line place.old count (words_of text.now)) }
    ensures stays_sound { IsReader place.new }
{
    if count != 4 {
        return Err(WorldFault::Bad(Reason::WrongCount));
    }
    let (area, rest) = next_area(&place.world.areas, text)?;
    let (car, rest) = next_value(rest)?;
    let (cdr, _) = next_value(rest)?;
    add_cons(place, area, car, cdr)
}

/// Whether a line of this many words has at least three, and at most `most`; `excess` is the reason for a refusal of a longer one.
fn within(count: usize, most: usize, excess: Reason) -> Result<(), Reason>
    ensures { result ≡ (if nat_lt most count then Err excess else if nat_lt count 3 then Err Reason.WrongCount else Ok tt) }
{
    if count > most {
        return Err(excess);
    }
    if count < 3 {
        return Err(Reason::WrongCount);
    }
    Ok(())
}

#[tactic(auto, unfolding(crate::specs::reading::Objects::block_line))]
pub fn block_line(alloc: Global, place: &mut WorldReader, count: usize, text: &[u8]) -> LineResult
    requires sound { IsReader place.old }
    requires count { count ≡ length (words_of text.now) + 1 }
    ensures judged { Judged place.old place.new result (block_line place.old count (words_of text.now)) }
    ensures stays_sound { IsReader place.new }
{
    within(count, 2_050, Reason::TooManyFields)?;
    let (area, rest) = next_area(&place.world.areas, text)?;
    let (code, rest) = next_number(0, 65_535, rest)?;
    let fields = each_value(alloc, rest)?;
    let charge = fields.len() as u32 + 1;
    let object = Object {
        area: area as u8,
        charge,
        body: Body::Block {
            code: code as u16,
            fields,
        },
    };
    add_object(place, area, object)
}

#[tactic(auto, unfolding(crate::specs::reading::Objects::run_line))]
pub fn run_line(alloc: Global, place: &mut WorldReader, count: usize, text: &[u8]) -> LineResult
    requires sound { IsReader place.old }
    requires count { count ≡ length (words_of text.now) + 1 }
    ensures judged { Judged place.old place.new result (run_line place.old count (words_of text.now)) }
    ensures stays_sound { IsReader place.new }
{
    within(count, 1_026, Reason::TooManyItems)?;
    let (area, rest) = next_area(&place.world.areas, text)?;
    let cars = each_value(alloc, rest)?;
    add_run(place, area, cars.as_slice())
}
