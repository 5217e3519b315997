//! Reading a line word by word. Each call takes the first word of a text and returns what it means, with the text after it.
ghost use Rattle.std.specs.Prelude.{◌≡◌, ◌<◌, ◌≤◌, ◌-◌, length, IfOk};
ghost use Rattle.world_text.specs.reading.Words.{words_of};
ghost use Rattle.world_text.specs.reading.Next.{Gives, MayGive, a_number, a_register, a_value, an_area, each, next};

use crate::reading::numbers::{area_of, number_in, register_of, value_of};
use crate::reading::words::next_word;
use crate::{Reason, WorldFault};
use lisp_graph::{Areas, Fields, Value};
use std::alloc::Global;

/// A number from `low` to `high`.
#[tactic(auto, unfolding(crate::specs::reading::Next::next))]
pub fn next_number(low: u32, high: u32, text: &[u8]) -> Result<(u32, &[u8]), Reason>
    ensures value { Gives (λ x. (x.0, words_of x.1.now)) result (next (a_number low high) (words_of text.now)) }
    ensures in_range { IfOk result (λ x. (low ≤ x.0) × (x.0 ≤ high)) }
    ensures left { IfOk result (λ x. length (words_of x.1.now) ≡ length (words_of text.now) - 1) }
{
    let (word, rest) = next_word(text);
    match number_in(low, high, word) {
        Some(number) => Ok((number, rest)),
        None => Err(Reason::BadNumber),
    }
}

/// A register, below the number of registers.
#[tactic(auto, unfolding(crate::specs::reading::Next::next))]
pub fn next_register(registers: u32, text: &[u8]) -> Result<(u32, &[u8]), Reason>
    ensures value { Gives (λ x. (x.0, words_of x.1.now)) result (next (a_register registers) (words_of text.now)) }
    ensures in_range { IfOk result (λ x. x.0 < registers) }
    ensures left { IfOk result (λ x. length (words_of x.1.now) ≡ length (words_of text.now) - 1) }
{
    let (word, rest) = next_word(text);
    match register_of(registers, word) {
        Some(register) => Ok((register, rest)),
        None => Err(Reason::NoRegister),
    }
}

/// The name of one of the areas; the result is the area's place among them.
#[tactic(auto, unfolding(crate::specs::reading::Next::next))]
pub fn next_area<'a>(areas: &Areas, text: &'a [u8]) -> Result<(usize, &'a [u8]), Reason>
    ensures value { Gives (λ x. (x.0, words_of x.1.now)) result (next (an_area areas.now) (words_of text.now)) }
    ensures in_range { IfOk result (λ x. x.0 < length areas.now) }
    ensures left { IfOk result (λ x. length (words_of x.1.now) ≡ length (words_of text.now) - 1) }
{
    let (word, rest) = next_word(text);
    match area_of(areas, word) {
        Some(area) => Ok((area, rest)),
        None => Err(Reason::NoArea),
    }
}

/// A value: `nil`, an integer of 32 bits, or `#` and the number of an object.
#[tactic(auto, unfolding(crate::specs::reading::Next::next))]
pub fn next_value(text: &[u8]) -> Result<(Value, &[u8]), Reason>
    ensures value { Gives (λ x. (x.0, words_of x.1.now)) result (next a_value (words_of text.now)) }
    ensures left { IfOk result (λ x. length (words_of x.1.now) ≡ length (words_of text.now) - 1) }
{
    let (word, rest) = next_word(text);
    match value_of(word) {
        Some(value) => Ok((value, rest)),
        None => Err(Reason::BadValue),
    }
}

/// All the words as values.
pub fn each_value(alloc: Global, text: &[u8]) -> Result<Fields, WorldFault>
    ensures value { MayGive (λ x. x) result (each a_value (words_of text.now)) }
    ensures count { IfOk result (λ values. length values ≡ length (words_of text.now)) }
{
    let mut values = Fields::new(alloc);
    let mut rest = text;
    while !rest.is_empty() {
        let (value, after) = next_value(rest)?;
        values.push(value)?;
        rest = after;
    }
    Ok(values)
}
