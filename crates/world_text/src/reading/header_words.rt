//! What the words of a `space`, an `area` and a `capacity` line mean.
ghost use Rattle.std.specs.Prelude.{◌≡◌, ◌≤◌, ◌-◌, ◌^◌, min, length, IfOk};
ghost use Rattle.world_text.specs.reading.Words.{words_of};
ghost use Rattle.world_text.specs.reading.Next.{Gives, next};
ghost use Rattle.world_text.specs.reading.Header.{a_kind, capacity_in, new_name, room, rule_in, rule_room, space_in};

use crate::Reason;
use crate::reading::next::next_number;
use crate::reading::numbers::area_of;
use crate::reading::words::next_word;
use lisp_graph::{AreaKind, AreaRule, Areas, Name};
use store_word::Space;

/// The sizes of a store.
#[tactic(auto, unfolding(crate::specs::reading::Header::space_in))]
pub fn space_in(text: &[u8]) -> Result<Space, Reason>
    ensures value { Gives (λ x. x) result (space_in (words_of text.now)) }
    ensures registers { IfOk result (λ space. space.registers ≤ 256) }
    ensures levels { IfOk result (λ space. space.levels ≤ 6) }
{
    let (regions, rest) = next_number(5, 1024, text)?;
    let (frames, rest) = next_number(32, 4096, rest)?;
    let (registers, rest) = next_number(1, 256, rest)?;
    let (levels, rest) = next_number(1, 6, rest)?;
    let (rate, _) = next_number(0, 16, rest)?;
    Ok(Space {
        regions,
        frames,
        registers,
        levels: levels as u8,
        rate,
        capacity: [0; 6],
    })
}

/// A name that no area has yet.
#[tactic(auto, unfolding(crate::specs::reading::Next::next))]
fn next_name<'a>(areas: &Areas, text: &'a [u8]) -> Result<(Name, &'a [u8]), Reason>
    ensures { Gives (λ x. (x.0, words_of x.1.now)) result (next (new_name areas.now) (words_of text.now)) }
{
    let (word, rest) = next_word(text);
    let Some(name) = Name::read(word) else {
        return Err(Reason::BadName);
    };
    match area_of(areas, word) {
        Some(_) => Err(Reason::AreaTwice),
        None => Ok((name, rest)),
    }
}

#[tactic(auto, unfolding(crate::specs::reading::Next::next))]
fn next_kind(text: &[u8]) -> Result<(AreaKind, &[u8]), Reason>
    ensures { Gives (λ x. (x.0, words_of x.1.now)) result (next a_kind (words_of text.now)) }
{
    let (word, rest) = next_word(text);
    if word == b"static".as_slice() {
        Ok((AreaKind::Static, rest))
    } else if word == b"dynamic".as_slice() {
        Ok((AreaKind::Dynamic, rest))
    } else if word == b"ephemeral".as_slice() {
        Ok((AreaKind::Ephemeral, rest))
    } else {
        Err(Reason::BadKind)
    }
}

/// The rule of a new area.
#[tactic(auto, unfolding(crate::specs::reading::Header::rule_in))]
pub fn rule_in(areas: &Areas, text: &[u8]) -> Result<AreaRule, Reason>
    ensures { Gives (λ x. x) result (rule_in areas.now (words_of text.now)) }
{
    let (name, rest) = next_name(areas, text)?;
    let (kind, rest) = next_kind(rest)?;
    let (quota, _) = next_number(0, 1_048_576, rest)?;
    Ok(AreaRule { name, kind, quota })
}

/// How many regions an area with this quota needs.
pub fn rule_room(levels: u8, quota: u32) -> u64
    ensures { result ≡ rule_room levels quota }
{
    u64::from(quota).div_ceil(1024) + 2 * (u64::from(levels) + 1)
}

/// How many regions these areas need together, or the largest `u64` if they need more.
pub fn room(levels: u8, areas: &[AreaRule]) -> u64
    ensures { result ≡ min (room levels areas.now) (2 ^ 64 - 1) }
{
    let mut wanted = 0u64;
    for rule in areas {
        wanted = wanted.saturating_add(rule_room(levels, rule.quota));
    }
    wanted
}

/// A capacity for each word, and 0 for each remaining level.
pub fn capacity_in(text: &[u8]) -> Result<[u32; 6], Reason>
    requires { length (words_of text.now) ≤ 6 }
    ensures { Gives (λ x. x) result (capacity_in (words_of text.now)) }
{
    let mut capacity = [0; 6];
    let mut level = 0usize;
    let mut rest = text;
    while !rest.is_empty() {
        let (number, after) = next_number(0, 16_777_216, rest)?;
        capacity[level] = number;
        level += 1;
        rest = after;
    }
    Ok(capacity)
}
