//! The lines before the objects: the format, the space, the areas and the capacities.
ghost use Rattle.std.specs.Prelude.{◌≡◌, ◌+◌, length, replicate, IfOk};
ghost use Rattle.lisp_graph.specs.declared.object.Value.TheVariants.{Nil as a_nil};
ghost use Rattle.world_text.specs.reading.Words.{words_of};
ghost use Rattle.world_text.specs.reading.Reader.{IsReader, Judged};
ghost use Rattle.world_text.specs.reading.Header.{area_line, capacity_line, opening_line, space_line};

use crate::reading::header_words::{capacity_in, room, rule_in, rule_room, space_in};
use crate::{LineResult, Reason, Section, WorldFault, WorldReader, WorldStep};
use lisp_graph::{Fields, Value};
use std::alloc::Global;
use store_word::NoMemory;

/// The first line, which names the format.
pub fn opening_line(place: &mut WorldReader, text: &[u8]) -> LineResult
    requires { IsReader place.old }
    ensures judged { Judged place.old place.new result (opening_line place.old text.now) }
    ensures stays_sound { IsReader place.new }
{
    if text == b"lispm-world 1".as_slice() {
        place.second = false;
    } else if text == b"lispm-world 2".as_slice() {
        place.second = true;
    } else {
        return Err(WorldFault::Bad(Reason::NotAWorld));
    }
    place.part = Section::Sizing;
    Ok(WorldStep::Next)
}

/// `nil` for each register.
fn nils(alloc: Global, registers: u32) -> Result<Fields, NoMemory>
    ensures { IfOk result (λ roots. roots ≡ replicate registers a_nil) }
{
    let mut roots = Fields::new(alloc);
    roots.pad(registers as usize, Value::Nil)?;
    Ok(roots)
}

/// The `space` line.
#[tactic(auto, unfolding(crate::specs::reading::Header::space_line))]
pub fn space_line(alloc: Global, place: &mut WorldReader, count: usize, text: &[u8]) -> LineResult
    requires { IsReader place.old }
    ensures judged { Judged place.old place.new result (space_line place.old count (words_of text.now)) }
    ensures stays_sound { IsReader place.new }
{
    if count != 6 {
        return Err(WorldFault::Bad(Reason::WrongCount));
    }
    let space = space_in(text)?;
    let roots = nils(alloc, space.registers)?;
    place.world.roots = roots;
    place.world.space = space;
    place.part = Section::FirstArea;
    Ok(WorldStep::Next)
}

/// An `area` line.
#[tactic(auto, unfolding(crate::specs::reading::Header::area_line))]
pub fn area_line(place: &mut WorldReader, count: usize, text: &[u8]) -> LineResult
    requires { IsReader place.old }
    ensures judged { Judged place.old place.new result (area_line place.old count (words_of text.now)) }
    ensures stays_sound { IsReader place.new }
{
    if place.world.areas.len() >= 16 {
        return Err(WorldFault::Bad(Reason::TooManyAreas));
    }
    if count != 4 {
        return Err(WorldFault::Bad(Reason::WrongCount));
    }
    let rule = rule_in(&place.world.areas, text)?;
    let levels = place.world.space.levels;
    let before = room(levels, place.world.areas.as_slice());
    let wanted = before.saturating_add(rule_room(levels, rule.quota));
    if wanted > u64::from(place.world.space.regions) {
        return Err(WorldFault::TooSmall);
    }
    place.world.areas.push(rule)?;
    place.part = Section::Areas;
    Ok(WorldStep::Next)
}

/// The `capacity` line of format 2.
#[tactic(auto, unfolding(crate::specs::reading::Header::capacity_line))]
pub fn capacity_line(place: &mut WorldReader, count: usize, text: &[u8]) -> LineResult
    requires sound { IsReader place.old }
    requires count { count ≡ length (words_of text.now) + 1 }
    ensures judged { Judged place.old place.new result (capacity_line place.old count (words_of text.now)) }
    ensures stays_sound { IsReader place.new }
{
    if count != usize::from(place.world.space.levels) + 1 {
        return Err(WorldFault::Bad(Reason::WrongCount));
    }
    let capacity = capacity_in(text)?;
    place.world.space.capacity = capacity;
    place.part = Section::Objects;
    Ok(WorldStep::Next)
}
