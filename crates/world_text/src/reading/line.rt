//! Distinguishes the kinds of lines by their first word.
ghost use Rattle.std.specs.Prelude.{◌≡◌, ◌+◌, length};
ghost use Rattle.world_text.specs.reading.Words.{words_of};
ghost use Rattle.world_text.specs.reading.Reader.{IsReader, Judged};
ghost use Rattle.world_text.specs.reading.Line.{area_lines, last_lines, line_at, line_in, object_lines};

use crate::reading::closing::{closing_line, closing_word, root_line};
use crate::reading::fast::object_at;
use crate::reading::header::{area_line, capacity_line, opening_line, space_line};
use crate::reading::missing::{missing_at, no_object};
use crate::reading::objects::{block_line, cons_line, run_line};
use crate::reading::words::split_line;
use crate::{LineResult, Reason, Section, WorldFault, WorldReader};
use std::alloc::Global;

#[tactic(auto, unfolding(crate::specs::reading::Line::last_lines))]
fn last_lines(place: &mut WorldReader, head: &[u8], count: usize, text: &[u8]) -> LineResult
    requires { IsReader place.old }
    ensures judged { Judged place.old place.new result (last_lines place.old head.now count (words_of text.now)) }
    ensures stays_sound { IsReader place.new }
{
    if head == b"root".as_slice() {
        if let Some(number) = missing_at(place) {
            return Err(no_object(number));
        }
        return root_line(place, count, text);
    }
    if head == closing_word(place.file) {
        if let Some(number) = missing_at(place) {
            return Err(no_object(number));
        }
        return closing_line(place, count);
    }
    Err(WorldFault::Bad(Reason::UnexpectedLine))
}

#[tactic(auto, unfolding(crate::specs::reading::Line::object_lines))]
fn object_lines(
    alloc: Global,
    place: &mut WorldReader,
    head: &[u8],
    count: usize,
    text: &[u8],
) -> LineResult
    requires sound { IsReader place.old }
    requires count { count ≡ length (words_of text.now) + 1 }
    ensures judged { Judged place.old place.new result (object_lines place.old head.now count (words_of text.now)) }
    ensures stays_sound { IsReader place.new }
{
    if head == b"cons".as_slice() {
        return cons_line(place, count, text);
    }
    if head == b"block".as_slice() {
        return block_line(alloc, place, count, text);
    }
    if place.second && head == b"run".as_slice() {
        return run_line(alloc, place, count, text);
    }
    last_lines(place, head, count, text)
}

#[tactic(auto, unfolding(crate::specs::reading::Line::area_lines))]
fn area_lines(
    alloc: Global,
    place: &mut WorldReader,
    head: &[u8],
    count: usize,
    text: &[u8],
) -> LineResult
    requires sound { IsReader place.old }
    requires count { count ≡ length (words_of text.now) + 1 }
    ensures judged { Judged place.old place.new result (area_lines place.old head.now count (words_of text.now)) }
    ensures stays_sound { IsReader place.new }
{
    if head == b"area".as_slice() {
        return area_line(place, count, text);
    }
    if place.second {
        if head == b"capacity".as_slice() {
            return capacity_line(place, count, text);
        }
        return Err(WorldFault::Bad(Reason::CapacityExpected));
    }
    object_lines(alloc, place, head, count, text)
}

#[tactic(auto, unfolding(crate::specs::reading::Line::line_in))]
fn line_in(
    alloc: Global,
    place: &mut WorldReader,
    head: &[u8],
    count: usize,
    text: &[u8],
) -> LineResult
    requires sound { IsReader place.old }
    requires count { count ≡ length (words_of text.now) + 1 }
    ensures judged { Judged place.old place.new result (line_in place.old.part place.old head.now count (words_of text.now)) }
    ensures stays_sound { IsReader place.new }
{
    match place.part {
        Section::Opening => Err(WorldFault::Bad(Reason::NotAWorld)),
        Section::Sizing => {
            if head == b"space".as_slice() {
                space_line(alloc, place, count, text)
            } else {
                Err(WorldFault::Bad(Reason::SpaceExpected))
            }
        }
        Section::FirstArea => {
            if head == b"area".as_slice() {
                area_line(place, count, text)
            } else {
                Err(WorldFault::Bad(Reason::AreaExpected))
            }
        }
        Section::Areas => area_lines(alloc, place, head, count, text),
        Section::Objects => object_lines(alloc, place, head, count, text),
        Section::Roots => last_lines(place, head, count, text),
        Section::Closed => Err(WorldFault::Bad(Reason::UnexpectedLine)),
    }
}

/// Takes the next line in its place. A refused line changes nothing.
pub fn line_at(alloc: Global, place: &mut WorldReader, text: &[u8]) -> LineResult
    requires { IsReader place.old }
    ensures judged { Judged place.old place.new result (line_at place.old text.now) }
    ensures stays_sound { IsReader place.new }
{
    if place.part == Section::Opening {
        return opening_line(place, text);
    }
    if place.part == Section::Objects {
        if let Some(said) = object_at(alloc, place, text) {
            return said;
        }
    }
    let Some((head, count, rest)) = split_line(text) else {
        return Err(WorldFault::Bad(Reason::BadLine));
    };
    line_in(alloc, place, head, count, rest)
}
