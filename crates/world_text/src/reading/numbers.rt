//! Numbers, values, and the names of things: what a word spells.
ghost use Rattle.std.specs.Prelude.{◌≡◌, ◌<◌, ◌≤◌, ◌-◌, ◌^◌, ℕ, negsuc, true, false, bytes_eq, length, take, None, IfSome, MatchOption};
ghost use Rattle.std.specs.Int.{to_le_bytes, w32};
ghost use Rattle.world_text.specs.reading.Numbers.{are_digits, area_of, integer_of, is_number, number_in, number_value, register_of, value_of};

use lisp_graph::{Areas, Value};

/// The number that these digits represent, or None if one of them isn't a digit.
fn digits_in(word: &[u8]) -> Option<u64>
    requires { length word.now ≤ 10 }
    ensures { MatchOption result (are_digits word.now ≡ false) (λ n. (are_digits word.now ≡ true) × (n ≡ number_value word.now)) }
{
    let mut value = 0u64;
    for byte in word {
        if !byte.is_ascii_digit() {
            return None;
        }
        value = value * 10 + u64::from(*byte - b'0');
    }
    Some(value)
}

/// Whether the word may spell a number of 32 bits: at most ten bytes, and no zero before other digits.
fn may_fit(word: &[u8]) -> bool
    ensures fits { result ≡ true → (length word.now ≤ 10) × (is_number word.now ≡ are_digits word.now) }
    ensures none { result ≡ false → (low high : ℕ) → high < 2 ^ 32 → number_in low high word.now ≡ None }
{
    if word.is_empty() {
        return false;
    }
    if word.len() > 10 {
        return false;
    }
    word.len() == 1 || word[0] != b'0'
}

/// The number from `low` to `high` that the word spells, or None if it spells none.
pub fn number_in(low: u32, high: u32, word: &[u8]) -> Option<u32>
    ensures value { result ≡ number_in low high word.now }
    ensures in_range { IfSome result (λ n. (low ≤ n) × (n ≤ high)) }
{
    if !may_fit(word) {
        return None;
    }
    let value = digits_in(word)?;
    if value < u64::from(low) || value > u64::from(high) {
        return None;
    }
    Some(value as u32)
}

/// The negative number of this size.
pub fn negative(size: u32) -> i32
    requires at_least { 0 < size }
    requires at_most { size ≤ 2 ^ 31 }
    ensures { result ≡ negsuc (size - 1) }
{
    -1 - ((size - 1) as i32)
}

fn integer_of(word: &[u8]) -> Option<i32>
    ensures { result ≡ integer_of word.now }
{
    if word.is_empty() {
        return None;
    }
    if word[0] == b'-' {
        let size = number_in(1, 1 << 31, &word[1..])?;
        Some(negative(size))
    } else {
        let size = number_in(0, i32::MAX as u32, word)?;
        Some(size as i32)
    }
}

/// The value that the word spells, or None if it spells none.
pub fn value_of(word: &[u8]) -> Option<Value>
    ensures { result ≡ value_of word.now }
{
    if word == b"nil".as_slice() {
        return Some(Value::Nil);
    }
    if !word.is_empty() && word[0] == b'#' {
        let number = number_in(0, u32::MAX, &word[1..])?;
        return Some(Value::Ref(u64::from(number)));
    }
    let number = integer_of(word)?;
    Some(Value::Fix(number))
}

/// The register that the word names, below the number of registers.
pub fn register_of(registers: u32, word: &[u8]) -> Option<u32>
    ensures value { result ≡ register_of registers word.now }
    ensures in_range { IfSome result (λ n. n < registers) }
{
    let number = number_in(0, u32::MAX, word)?;
    if number < registers {
        Some(number)
    } else {
        None
    }
}

/// The first four bytes of a word as one number, the first byte in its lowest place; None if it has fewer.
#[inline(always)]
fn first_four(word: &[u8]) -> Option<u32>
    ensures value { IfSome result (λ n. to_le_bytes w32 n ≡ take 4 word.now) }
    ensures at_least { IfSome result (λ _. 4 ≤ length word.now) }
{
    let [first, second, third, fourth, ..] = word else {
        return None;
    };
    Some(u32::from_le_bytes([*first, *second, *third, *fourth]))
}

/// Whether a name is this word. The bytes before `from` are the same.
#[inline(always)]
fn is_named_from(name: &[u8], word: &[u8], from: usize) -> bool
    requires done { take from name.now ≡ take from word.now }
    requires size { length name.now ≡ length word.now }
    requires in_range { from ≤ length name.now }
    ensures { result ≡ bytes_eq name.now word.now }
{
    for at in from..name.len() {
        if name[at] != word[at] {
            return false;
        }
    }
    true
}

/// Whether a name is this word. Both are short: the first four bytes are compared by one comparison, and the others one by one.
#[inline(always)]
pub fn is_named(name: &[u8], word: &[u8]) -> bool
    ensures { result ≡ bytes_eq name.now word.now }
{
    if name.len() != word.len() {
        return false;
    }
    let (Some(front), Some(other)) = (first_four(name), first_four(word)) else {
        return is_named_from(name, word, 0);
    };
    front == other && is_named_from(name, word, 4)
}

/// The place of the area with this name, or None if no area has it.
pub fn area_of(areas: &Areas, word: &[u8]) -> Option<usize>
    ensures value { result ≡ area_of areas.now word.now }
    ensures in_range { IfSome result (λ n. n < length areas.now) }
{
    areas
        .as_slice()
        .iter()
        .position(|rule| is_named(rule.name.as_bytes(), word))
}
