//! What a text begins with, found with one look at each byte, for readers that go on after it. If it begins with something
//! else they return None, and give no reason.
ghost use Rattle.std.specs.Prelude.{◌≡◌, ◌≤◌, ◌<◌, ◌++◌, ◌∷◌, true, length, take, decimal, IfSome};
ghost use Rattle.world_text.specs.reading.Numbers.{are_digits, number_value};
ghost use Rattle.world_text.specs.reading.Words.{is_graphic, is_word};
ghost use Rattle.world_text.specs.reading.Leading.{LeadsArea, begins_with, first_begun};
ghost use Rattle.world_text.specs.writing.Spelling.{IsWritten, value_text};

use crate::reading::numbers::{is_named, negative};
use lisp_graph::{Areas, Value};

/// The text after these bytes.
#[inline(always)]
pub fn behind<'a>(front: &[u8], text: &'a [u8]) -> Option<&'a [u8]>
    ensures { IfSome result (λ rest. text.now ≡ front.now ++ rest.now) }
{
    let rest = text.strip_prefix(front)?;
    Some(rest)
}

/// The text after a space.
#[inline(always)]
pub fn behind_space(text: &[u8]) -> Option<&[u8]>
    ensures { IfSome result (λ rest. text.now ≡ 32 ∷ rest.now) }
{
    if text.is_empty() {
        return None;
    }
    if text[0] != b' ' {
        return None;
    }
    Some(&text[1..])
}

/// The number that the first digits make, ten at most, and how many digits it has.
#[inline(always)]
fn leading_digits(text: &[u8]) -> (u64, usize)
    ensures at_most { result.1 ≤ 10 }
    ensures in_range { result.1 ≤ length text.now }
    ensures sound { are_digits (take result.1 text.now) ≡ true }
    ensures value { result.0 ≡ number_value (take result.1 text.now) }
{
    let mut value = 0u64;
    let most = text.len().min(10);
    for at in 0..most {
        let byte = text[at];
        if !byte.is_ascii_digit() {
            return (value, at);
        }
        value = value * 10 + u64::from(byte - b'0');
    }
    (value, most)
}

/// A number of at most eight digits at the front, and the text after it, if the text has nine bytes.
#[inline(always)]
fn leading_short(text: &[u8]) -> Option<(u32, &[u8])>
    ensures { IfSome result (λ x. text.now ≡ decimal x.0 ++ x.1.now) }
{
    if text.len() < 9 {
        return None;
    }
    let mut value = 0u32;
    for at in 0..9 {
        let byte = text[at];
        if !byte.is_ascii_digit() {
            if at == 0 {
                return None;
            }
            if at > 1 && text[0] == b'0' {
                return None;
            }
            return Some((value, &text[at..]));
        }
        value = value * 10 + u32::from(byte - b'0');
    }
    None
}

/// A number of 32 bits at the front, and the text after it.
#[inline(always)]
fn leading_any(text: &[u8]) -> Option<(u32, &[u8])>
    ensures { IfSome result (λ x. text.now ≡ decimal x.0 ++ x.1.now) }
{
    let (value, count) = leading_digits(text);
    if count == 0 {
        return None;
    }
    if count > 1 && text[0] == b'0' {
        return None;
    }
    if value > u64::from(u32::MAX) {
        return None;
    }
    Some((value as u32, &text[count..]))
}

/// A number of 32 bits at the front, and the text after it.
#[inline(always)]
pub fn leading_number(text: &[u8]) -> Option<(u32, &[u8])>
    ensures { IfSome result (λ x. text.now ≡ decimal x.0 ++ x.1.now) }
{
    match leading_short(text) {
        Some(found) => Some(found),
        None => leading_any(text),
    }
}

fn is_graphic(byte: u8) -> bool
    ensures { result ≡ is_graphic byte }
{
    byte >= 33 && byte <= 126
}

/// A word at the front, and the text after it, which isn't empty.
#[inline(always)]
pub fn leading_word(text: &[u8]) -> Option<(&[u8], &[u8])>
    ensures { IfSome result (λ x. (text.now ≡ x.0.now ++ x.1.now) × (is_word x.0.now ≡ true)) }
{
    for at in 0..text.len() {
        if !is_graphic(text[at]) {
            return if at == 0 {
                None
            } else {
                Some((&text[..at], &text[at..]))
            };
        }
    }
    None
}

/// Whether the text is this word, followed by a space.
#[inline(always)]
fn begins_with(word: &[u8], text: &[u8]) -> bool
    ensures { result ≡ begins_with word.now text.now }
{
    let size = word.len();
    text.len() > size && text[size] == b' ' && is_named(word, &text[..size])
}

/// The first area whose name the text begins with.
#[inline(always)]
fn first_begun(areas: &Areas, text: &[u8]) -> Option<usize>
    ensures value { result ≡ first_begun areas.now text.now }
    ensures in_range { IfSome result (λ area. area < length areas.now) }
{
    areas
        .as_slice()
        .iter()
        .position(|rule| begins_with(rule.name.as_bytes(), text))
}

/// The name of one of the areas at the front, followed by a space, and the text after it.
#[inline(always)]
pub fn leading_area<'a>(areas: &Areas, text: &'a [u8]) -> Option<(usize, &'a [u8])>
    ensures value { IfSome result (λ x. LeadsArea areas.now text.now x.0 x.1.now) }
    ensures in_range { IfSome result (λ x. x.0 < length areas.now) }
{
    let area = first_begun(areas, text)?;
    let name = areas.as_slice()[area].name.as_bytes();
    Some((area, &text[name.len()..]))
}

/// The number of an object at the front, which followed `#`, and the text after it.
#[inline(always)]
fn leading_reference(text: &[u8]) -> Option<(Value, &[u8])>
    ensures { IfSome result (λ x. (35 ∷ text.now ≡ value_text x.0 ++ x.1.now) × IsWritten x.0) }
{
    let (number, rest) = leading_number(text)?;
    Some((Value::Ref(u64::from(number)), rest))
}

/// The size of a negative number at the front, which followed `-`, and the text after it.
#[inline(always)]
fn leading_negative(text: &[u8]) -> Option<(Value, &[u8])>
    ensures { IfSome result (λ x. (45 ∷ text.now ≡ value_text x.0 ++ x.1.now) × IsWritten x.0) }
{
    let (size, rest) = leading_number(text)?;
    if size == 0 {
        return None;
    }
    if size > 1 << 31 {
        return None;
    }
    Some((Value::Fix(negative(size)), rest))
}

/// A number of 0 or more at the front, and the text after it.
#[inline(always)]
fn leading_positive(text: &[u8]) -> Option<(Value, &[u8])>
    ensures { IfSome result (λ x. (text.now ≡ value_text x.0 ++ x.1.now) × IsWritten x.0) }
{
    let (size, rest) = leading_number(text)?;
    if size > i32::MAX as u32 {
        return None;
    }
    Some((Value::Fix(size as i32), rest))
}

/// `nil` at the front, and the text after it.
#[inline(always)]
fn leading_nil(text: &[u8]) -> Option<(Value, &[u8])>
    ensures { IfSome result (λ x. (text.now ≡ value_text x.0 ++ x.1.now) × IsWritten x.0) }
{
    let rest = behind(b"nil", text)?;
    Some((Value::Nil, rest))
}

/// A value at the front, and the text after it.
#[inline(always)]
pub fn leading_value(text: &[u8]) -> Option<(Value, &[u8])>
    ensures { IfSome result (λ x. (text.now ≡ value_text x.0 ++ x.1.now) × IsWritten x.0) }
{
    if text.is_empty() {
        return None;
    }
    match text[0] {
        b'#' => leading_reference(&text[1..]),
        b'n' => leading_nil(text),
        b'-' => leading_negative(&text[1..]),
        _ => leading_positive(text),
    }
}
