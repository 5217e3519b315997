//! The words of commands. Each call takes the first word of a text and returns what it means, with the text after it.
ghost use Rattle.std.specs.Prelude.{◌≡◌, ◌≤◌, ◌<◌, ◌-◌, ◌^◌, ◌==◌, if◌then◌else◌, length, Ok, Err, IfOk};
ghost use Rattle.world_text.specs.Words.{words_of};
ghost use Rattle.world_text.specs.Next.{Gives, a_number, a_register, an_area, each, next};
ghost use Rattle.trace_text.specs.Commands.{a_plain_value};
ghost use Rattle.trace_text.specs.Items.{items_of};

use lisp_graph::{Areas, Command, Request, Value};
use world_text::{Reason, next_area, next_number, next_register, next_word, value_of};

/// Whether a line is accepted, or why not.
pub type Accepted = Result<(), Reason>;

/// Accepts a line that has this many words.
#[inline(always)]
pub fn has_words(count: usize, wanted: usize) -> Accepted
    ensures { result ≡ (if count == wanted then Ok tt else Err Reason.WrongCount) }
{
    if count == wanted {
        Ok(())
    } else {
        Err(Reason::WrongCount)
    }
}

/// A register, below the number of registers.
pub fn register(registers: u32, text: &[u8]) -> Result<(u8, &[u8]), Reason>
    requires { registers ≤ 256 }
    ensures value { Gives (λ x. (x.0, words_of x.1.now)) result (next (a_register registers) (words_of text.now)) }
    ensures left { IfOk result (λ x. length (words_of x.1.now) ≡ length (words_of text.now) - 1) }
{
    let (register, rest) = next_register(registers, text)?;
    Ok((register as u8, rest))
}

/// The name of one of the areas; the result is the area's place among them.
pub fn area<'a>(areas: &Areas, text: &'a [u8]) -> Result<(u8, &'a [u8]), Reason>
    requires { length areas.now ≤ 16 }
    ensures value { Gives (λ x. (x.0, words_of x.1.now)) result (next (an_area areas.now) (words_of text.now)) }
    ensures left { IfOk result (λ x. length (words_of x.1.now) ≡ length (words_of text.now) - 1) }
{
    let (area, rest) = next_area(areas, text)?;
    Ok((area as u8, rest))
}

/// A number up to `high`.
pub fn small(high: u16, text: &[u8]) -> Result<(u16, &[u8]), Reason>
    ensures { Gives (λ x. (x.0, words_of x.1.now)) result (next (a_number 0 high) (words_of text.now)) }
{
    let (number, rest) = next_number(0, u32::from(high), text)?;
    Ok((number as u16, rest))
}

/// Any number.
pub fn number(text: &[u8]) -> Result<(u32, &[u8]), Reason>
    ensures { Gives (λ x. (x.0, words_of x.1.now)) result (next (a_number 0 (2 ^ 32 - 1)) (words_of text.now)) }
{
    let (number, rest) = next_number(0, u32::MAX, text)?;
    Ok((number, rest))
}

/// `nil` or an integer.
#[tactic(auto, unfolding(crate::specs::Commands::a_plain_value, world_text::specs::reading::Next::next))]
pub fn plain_value(text: &[u8]) -> Result<(Value, &[u8]), Reason>
    ensures { Gives (λ x. (x.0, words_of x.1.now)) result (next a_plain_value (words_of text.now)) }
{
    let (word, rest) = next_word(text);
    match value_of(word) {
        Some(Value::Ref(_)) | None => Err(Reason::BadValue),
        Some(value) => Ok((value, rest)),
    }
}

/// A list of all the words as registers.
pub fn items(registers: u32, to: u8, area: u8, text: &[u8], command: &mut Request) -> Accepted
    requires registers { registers ≤ 256 }
    requires at_most { length (words_of text.now) ≤ 1024 }
    ensures items { Gives (λ _. items_of command.new) result (each (a_register registers) (words_of text.now)) }
    ensures after { command.new ≡ Command.List to area (items_of command.new) }
{
    command.begin_list(to, area);
    let mut rest = text;
    while !rest.is_empty() {
        let (item, after) = register(registers, rest)?;
        command.push(item);
        rest = after;
    }
    Ok(())
}
