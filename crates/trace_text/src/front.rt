//! Registers, numbers and values at the front of a text, for the readers of the most frequent commands. Each call looks at each byte once, and
//! returns None if the text begins with something else.
ghost use Rattle.std.specs.Prelude.{◌≡◌, ◌≤◌, ◌<◌, ◌/◌, ◌^◌, ◌++◌, ◌∷◌, [], true, codes, decimal, IfSome};
ghost use Rattle.std.specs.Int.{to_le_bytes, w32};
ghost use Rattle.lisp_graph.specs.Commands.{IsPlain};
ghost use Rattle.world_text.specs.Spelling.{IsWritten, value_text};

use lisp_graph::Value;
use world_text::{behind_space, leading_number, leading_value};

/// The first four bytes of a text as one number, the first byte in its lowest place, and the text after them.
#[inline(always)]
pub fn four_bytes(text: &[u8]) -> Option<(u32, &[u8])>
    ensures { IfSome result (λ x. text.now ≡ to_le_bytes w32 x.0 ++ x.1.now) }
{
    let [first, second, third, fourth, rest @ ..] = text else {
        return None;
    };
    let number = u32::from_le_bytes([*first, *second, *third, *fourth]);
    Some((number, rest))
}

/// Whether the bytes of this number are those of this word, found by one comparison.
#[inline(always)]
pub fn is_word(front: u32, word: &[u8; 4]) -> bool
    ensures { result ≡ true → to_le_bytes w32 front ≡ word.now }
{
    front == u32::from_le_bytes(*word)
}

/// Whether the first three bytes of this number are `eq` and a space.
#[inline(always)]
pub fn is_eq(front: u32) -> bool
    ensures { result ≡ true → to_le_bytes w32 front ≡ codes "eq " ++ (front / 2 ^ 24) ∷ [] }
{
    front % (1 << 24) == u32::from_le_bytes(*b"eq \0")
}

/// A number of one or two digits, and the text after it, which isn't empty. Most registers are such numbers.
#[inline(always)]
fn leading_short(text: &[u8]) -> Option<(u32, &[u8])>
    ensures { IfSome result (λ x. text.now ≡ decimal x.0 ++ x.1.now) }
{
    let [first, second, rest @ ..] = text else {
        return None;
    };
    if !first.is_ascii_digit() {
        return None;
    }
    let tens = u32::from(*first - b'0');
    if !second.is_ascii_digit() {
        return Some((tens, &text[1..]));
    }
    if tens == 0 || rest.is_empty() || rest[0].is_ascii_digit() {
        return None;
    }
    Some((10 * tens + u32::from(*second - b'0'), rest))
}

/// A number, and the text after it.
#[inline(always)]
pub fn leading_any(text: &[u8]) -> Option<(u32, &[u8])>
    ensures { IfSome result (λ x. text.now ≡ decimal x.0 ++ x.1.now) }
{
    match leading_short(text) {
        Some(found) => Some(found),
        None => leading_number(text),
    }
}

/// A register, and the text after it.
#[inline(always)]
pub fn leading_register(registers: u32, text: &[u8]) -> Option<(u8, &[u8])>
    requires { registers ≤ 256 }
    ensures { IfSome result (λ x. (x.0 < registers) × (text.now ≡ decimal x.0 ++ x.1.now)) }
{
    let (number, rest) = leading_any(text)?;
    if number < registers {
        Some((number as u8, rest))
    } else {
        None
    }
}

/// A number of one to three digits and a space, and the text after them. Registers are such numbers.
#[inline(always)]
fn short_and_space(text: &[u8]) -> Option<(u32, &[u8])>
    ensures { IfSome result (λ x. text.now ≡ decimal x.0 ++ 32 ∷ x.1.now) }
{
    let [first, second, third, fourth, rest @ ..] = text else {
        return None;
    };
    if !first.is_ascii_digit() {
        return None;
    }
    let one = u32::from(*first - b'0');
    if *second == b' ' {
        return Some((one, &text[2..]));
    }
    if one == 0 || !second.is_ascii_digit() {
        return None;
    }
    let two = 10 * one + u32::from(*second - b'0');
    if *third == b' ' {
        return Some((two, &text[3..]));
    }
    if *fourth != b' ' || !third.is_ascii_digit() {
        return None;
    }
    Some((10 * two + u32::from(*third - b'0'), rest))
}

/// A number and a space, and the text after them.
#[inline(always)]
pub fn number_and_space(text: &[u8]) -> Option<(u32, &[u8])>
    ensures { IfSome result (λ x. text.now ≡ decimal x.0 ++ 32 ∷ x.1.now) }
{
    if let Some(found) = short_and_space(text) {
        return Some(found);
    }
    let (number, rest) = leading_number(text)?;
    let behind = behind_space(rest)?;
    Some((number, behind))
}

/// A register and a space, and the text after them.
#[inline(always)]
pub fn register_and_space(registers: u32, text: &[u8]) -> Option<(u8, &[u8])>
    requires { registers ≤ 256 }
    ensures { IfSome result (λ x. (x.0 < registers) × (text.now ≡ decimal x.0 ++ 32 ∷ x.1.now)) }
{
    let (number, rest) = number_and_space(text)?;
    if number < registers {
        Some((number as u8, rest))
    } else {
        None
    }
}

/// Two registers, and the text after them.
#[inline(always)]
pub fn two_registers(registers: u32, text: &[u8]) -> Option<(u8, u8, &[u8])>
    requires { registers ≤ 256 }
    ensures { IfSome result (λ x. (x.0 < registers) × (x.1 < registers) × (text.now ≡ decimal x.0 ++ 32 ∷ decimal x.1 ++ x.2.now)) }
{
    let (first, last) = number_and_space(text)?;
    let (second, rest) = leading_any(last)?;
    if first >= registers || second >= registers {
        return None;
    }
    Some((first as u8, second as u8, rest))
}

/// A space and a register, and the text after them.
#[inline(always)]
pub fn spaced_register(registers: u32, text: &[u8]) -> Option<(u8, &[u8])>
    requires { registers ≤ 256 }
    ensures { IfSome result (λ x. (x.0 < registers) × (text.now ≡ 32 ∷ decimal x.0 ++ x.1.now)) }
{
    let word = behind_space(text)?;
    leading_register(registers, word)
}

/// A number of one or two digits as a value, and the text after it, which isn't empty.
#[inline(always)]
fn short_value(text: &[u8]) -> Option<(Value, &[u8])>
    ensures { IfSome result (λ x. IsPlain x.0 × IsWritten x.0 × (text.now ≡ value_text x.0 ++ x.1.now)) }
{
    let (number, rest) = leading_short(text)?;
    if number > i32::MAX as u32 {
        return None;
    }
    Some((Value::Fix(number as i32), rest))
}

/// `nil` or an integer, and the text after it. Most values are numbers of one or two digits.
#[inline(always)]
pub fn plain_value(text: &[u8]) -> Option<(Value, &[u8])>
    ensures { IfSome result (λ x. IsPlain x.0 × IsWritten x.0 × (text.now ≡ value_text x.0 ++ x.1.now)) }
{
    if let Some(found) = short_value(text) {
        return Some(found);
    }
    let (value, rest) = leading_value(text)?;
    match value {
        Value::Ref(_) => None,
        Value::Fix(_) | Value::Nil => Some((value, rest)),
    }
}
