//! Words of a text that grows. If memory runs out, a call may have added a part of what it writes.
ghost use Rattle.std.specs.Prelude.{◌≡◌, ◌≤◌, ◌++◌, [], ◌∷◌, decimal, map, length, OnOk};
ghost use Rattle.std.specs.Fmt.{signed_decimal};
ghost use Rattle.world_text.specs.writing.Spelling.{kind_text, name_of, spaced, value_text};

use crate::writing::backward_line::BackwardLine;
use itoa::Buffer;
use lisp_graph::{AreaKind, AreaRule, Text, Value};
use store_word::NoMemory;

/// A number in decimal.
pub fn push_number(text: &mut Text, number: u64) -> Result<(), NoMemory>
    ensures { OnOk result (text.new ≡ text.old ++ decimal number) }
{
    let mut buffer = Buffer::new();
    text.push_all(buffer.format(number).as_bytes())
}

/// An integer in decimal.
fn push_integer(text: &mut Text, number: i32) -> Result<(), NoMemory>
    ensures { OnOk result (text.new ≡ text.old ++ signed_decimal number) }
{
    let mut buffer = Buffer::new();
    text.push_all(buffer.format(number).as_bytes())
}

/// A value.
#[tactic(auto, using(std::proofs::Common::append_assoc))]
pub fn push_value(text: &mut Text, value: Value) -> Result<(), NoMemory>
    ensures { OnOk result (text.new ≡ text.old ++ value_text value) }
{
    match value {
        Value::Fix(number) => push_integer(text, number),
        Value::Nil => text.push_all(b"nil"),
        Value::Ref(number) => {
            text.push_all(b"#")?;
            push_number(text, number)
        }
    }
}

/// A space and a word.
#[tactic(auto, using(std::proofs::Common::append_assoc))]
pub fn push_word(text: &mut Text, word: &[u8]) -> Result<(), NoMemory>
    ensures { OnOk result (text.new ≡ text.old ++ 32 ∷ word.now) }
{
    text.push_all(b" ")?;
    text.push_all(word)
}

/// A space and a number.
pub fn push_spaced(text: &mut Text, number: u32) -> Result<(), NoMemory>
    ensures { OnOk result (text.new ≡ text.old ++ 32 ∷ decimal number) }
{
    let mut word = BackwardLine::new();
    word.push_number(u64::from(number));
    word.push_byte(b' ');
    text.push_all(word.as_bytes())
}

/// A space and a value.
pub fn push_spaced_value(text: &mut Text, value: Value) -> Result<(), NoMemory>
    ensures { OnOk result (text.new ≡ text.old ++ 32 ∷ value_text value) }
{
    let mut word = BackwardLine::new();
    word.push_value(value);
    word.push_byte(b' ');
    text.push_all(word.as_bytes())
}

/// Values, each after a space.
#[tactic(auto, using(std::proofs::Common::append_assoc))]
pub fn push_values(text: &mut Text, values: &[Value]) -> Result<(), NoMemory>
    ensures { OnOk result (text.new ≡ text.old ++ spaced (map value_text values.now)) }
{
    for value in values {
        push_spaced_value(text, *value)?;
    }
    Ok(())
}

/// Numbers, each after a space.
#[tactic(auto, using(std::proofs::Common::append_assoc))]
pub fn push_numbers(text: &mut Text, numbers: &[u32]) -> Result<(), NoMemory>
    ensures { OnOk result (text.new ≡ text.old ++ spaced (map decimal numbers.now)) }
{
    for number in numbers {
        push_spaced(text, *number)?;
    }
    Ok(())
}

/// The word that spells a kind.
pub fn kind_text(kind: AreaKind) -> &'static [u8]
    ensures { result.now ≡ kind_text kind }
{
    match kind {
        AreaKind::Static => b"static",
        AreaKind::Dynamic => b"dynamic",
        AreaKind::Ephemeral => b"ephemeral",
    }
}

/// The name of the area with this number: at most 16 bytes, none if there is no such area.
pub fn name_of(areas: &[AreaRule], area: u8) -> &[u8]
    ensures value { result.now ≡ name_of areas.now area }
    ensures at_most { length result.now ≤ 16 }
{
    match areas.get(usize::from(area)) {
        Some(rule) => rule.name.as_bytes(),
        None => &[],
    }
}
