//! Reads object lines with one look at each byte. A line for which this returns None is read by `objects`, which accepts it or
//! gives the reason for its refusal.
ghost use Rattle.std.specs.Prelude.{◌≡◌, ◌<◌, ◌≤◌, ◌++◌, ◌∷◌, None, Ok, true, decimal, length, take, IfOk, IfSome};
ghost use Rattle.world_text.specs.declared.fault.WorldStep.TheVariants.{Next};
ghost use Rattle.world_text.specs.declared.reading.reader.Section.TheVariants.{Objects as AtObjects};
ghost use Rattle.world_text.specs.reading.Reader.{IsReader, Judged};
ghost use Rattle.world_text.specs.reading.Line.{line_at};
ghost use Rattle.world_text.specs.reading.Fast.{AreSpaced, BeginsBlock, BeginsRun, IsLineBeforeFeed, LeadsCons};
ghost use Rattle.world_text.specs.writing.Spelling.{IsWritten, value_text};

use crate::reading::leading::{behind, behind_space, leading_area, leading_number, leading_value};
use crate::reading::objects::{add_cons, add_object, add_run};
use crate::{LineResult, Section, WorldFault, WorldReader};
use lisp_graph::{Areas, Body, Fields, Object, Value};
use std::alloc::Global;
use store_word::NoMemory;

/// A space and a value, and the text after them.
#[inline(always)]
fn spaced_value(text: &[u8]) -> Option<(Value, &[u8])>
    ensures { IfSome result (λ x. (text.now ≡ 32 ∷ value_text x.0 ++ x.1.now) × IsWritten x.0) }
{
    let word = behind_space(text)?;
    leading_value(word)
}

/// The whole text as at most `most` values, with a space before each.
fn spaced_values(alloc: Global, most: u64, text: &[u8]) -> Result<Option<Fields>, NoMemory>
    ensures { IfOk result (λ read. IfSome read (λ values. AreSpaced text.now values most)) }
{
    let mut values = Fields::new(alloc);
    let mut rest = text;
    while !rest.is_empty() {
        if values.len() >= most {
            return Ok(None);
        }
        let Some((value, after)) = spaced_value(rest) else {
            return Ok(None);
        };
        values.push(value)?;
        rest = after;
    }
    Ok(Some(values))
}

/// The area and the values of `cons AREA V V` at the front, and the text after them.
#[inline(always)]
fn leading_cons<'a>(areas: &Areas, text: &'a [u8]) -> Option<(usize, Value, Value, &'a [u8])>
    ensures value { IfSome result (λ x. LeadsCons areas.now text.now x.0 x.1 x.2 x.3.now) }
    ensures in_range { IfSome result (λ x. x.0 < length areas.now) }
{
    let [b'c', b'o', b'n', b's', b' ', named @ ..] = text else {
        return None;
    };
    let (area, values) = leading_area(areas, named)?;
    let (car, last) = spaced_value(values)?;
    let (cdr, rest) = spaced_value(last)?;
    Some((area, car, cdr, rest))
}

/// `cons AREA V V`
fn cons_at(place: &mut WorldReader, line: &[u8]) -> Option<LineResult>
    requires sound { IsReader place.old }
    requires place { place.old.part ≡ AtObjects }
    ensures judged { IfSome result (λ said. Judged place.old place.new said (line_at place.old line.now)) }
    ensures none { result ≡ None → place.new ≡ place.old }
    ensures stays_sound { IsReader place.new }
{
    let (area, car, cdr, rest) = leading_cons(&place.world.areas, line)?;
    if !rest.is_empty() {
        return None;
    }
    Some(add_cons(place, area, car, cdr))
}

/// Takes the line at the front of a text, if it is `cons AREA V V`, a line feed follows it, and it is accepted. Returns how many bytes precede the
/// line feed.
#[inline(always)]
pub fn cons_before_feed(place: &mut WorldReader, text: &[u8]) -> Option<usize>
    requires { IsReader place.old }
    ensures found { IfSome result (IsLineBeforeFeed text.now) }
    ensures judged { IfSome result (λ size. line_at place.old (take size text.now) ≡ Ok (Next, place.new)) }
    ensures place { IfSome result (λ _. (place.old.part ≡ AtObjects) × (place.new.part ≡ AtObjects)) }
    ensures none { result ≡ None → place.new ≡ place.old }
    ensures stays_sound { IsReader place.new }
{
    if place.part != Section::Objects {
        return None;
    }
    let (area, car, cdr, rest) = leading_cons(&place.world.areas, text)?;
    if rest.is_empty() || rest[0] != b'\n' {
        return None;
    }
    match add_cons(place, area, car, cdr) {
        Ok(_) => Some(text.len() - rest.len()),
        Err(_) => None,
    }
}

/// A space and a code, and the text after them.
#[inline(always)]
fn spaced_code(text: &[u8]) -> Option<(u16, &[u8])>
    ensures { IfSome result (λ x. (text.now ≡ 32 ∷ decimal x.0 ++ x.1.now) × (x.0 ≤ 65535)) }
{
    let word = behind_space(text)?;
    let (code, rest) = leading_number(word)?;
    if code > 65_535 {
        return None;
    }
    Some((code as u16, rest))
}

/// What precedes the fields of `block AREA CODE V ..`
#[inline(always)]
fn block_front<'a>(areas: &Areas, line: &'a [u8]) -> Option<(usize, u16, &'a [u8])>
    ensures value { IfSome result (λ x. BeginsBlock areas.now line.now x.0 x.1 x.2.now) }
    ensures in_range { IfSome result (λ x. x.0 < length areas.now) }
{
    let text = behind(b"block ", line)?;
    let (area, last) = leading_area(areas, text)?;
    let (code, values) = spaced_code(last)?;
    Some((area, code, values))
}

/// `block AREA CODE V ..`
fn block_at(alloc: Global, place: &mut WorldReader, line: &[u8]) -> Option<LineResult>
    requires sound { IsReader place.old }
    requires place { place.old.part ≡ AtObjects }
    ensures judged { IfSome result (λ said. Judged place.old place.new said (line_at place.old line.now)) }
    ensures none { result ≡ None → place.new ≡ place.old }
    ensures stays_sound { IsReader place.new }
{
    let (area, code, values) = block_front(&place.world.areas, line)?;
    match spaced_values(alloc, 2_047, values) {
        Ok(Some(fields)) => {
            let charge = fields.len() as u32 + 1;
            let object = Object {
                area: area as u8,
                charge,
                body: Body::Block { code, fields },
            };
            Some(add_object(place, area, object))
        }
        Ok(None) => None,
        Err(_) => Some(Err(WorldFault::NoMemory)),
    }
}

/// What precedes the cars of `run AREA V ..`
#[inline(always)]
fn run_front<'a>(areas: &Areas, line: &'a [u8]) -> Option<(usize, &'a [u8])>
    ensures value { IfSome result (λ x. BeginsRun areas.now line.now x.0 x.1.now) }
    ensures in_range { IfSome result (λ x. x.0 < length areas.now) }
{
    let text = behind(b"run ", line)?;
    let (area, values) = leading_area(areas, text)?;
    if values.is_empty() {
        return None;
    }
    Some((area, values))
}

/// `run AREA V ..`
fn run_at(alloc: Global, place: &mut WorldReader, line: &[u8]) -> Option<LineResult>
    requires sound { IsReader place.old }
    requires place { place.old.part ≡ AtObjects }
    requires second { place.old.second ≡ true }
    ensures judged { IfSome result (λ said. Judged place.old place.new said (line_at place.old line.now)) }
    ensures none { result ≡ None → place.new ≡ place.old }
    ensures stays_sound { IsReader place.new }
{
    let (area, values) = run_front(&place.world.areas, line)?;
    match spaced_values(alloc, 1_024, values) {
        Ok(Some(cars)) => Some(add_run(place, area, cars.as_slice())),
        Ok(None) => None,
        Err(_) => Some(Err(WorldFault::NoMemory)),
    }
}

/// Reads an object line; None if it isn't certain that it is one.
pub fn object_at(alloc: Global, place: &mut WorldReader, line: &[u8]) -> Option<LineResult>
    requires sound { IsReader place.old }
    requires place { place.old.part ≡ AtObjects }
    ensures judged { IfSome result (λ said. Judged place.old place.new said (line_at place.old line.now)) }
    ensures none { result ≡ None → place.new ≡ place.old }
    ensures stays_sound { IsReader place.new }
{
    if line.is_empty() {
        return None;
    }
    match line[0] {
        b'c' => cons_at(place, line),
        b'b' => block_at(alloc, place, line),
        b'r' if place.second => run_at(alloc, place, line),
        _ => None,
    }
}
