//! A short line that is written from its end to its start, since the last digit of a number is found first.
ghost use Rattle.std.specs.Prelude.{◌≡◌, ◌+◌, ◌<◌, ◌≤◌, ◌++◌, [], ◌∷◌, decimal, length};
ghost use Rattle.std.specs.Fmt.{signed_decimal};
ghost use Rattle.world_text.specs.writing.Spelling.{value_text};

use itoa::write_digits;
use lisp_graph::Value;
use std::marker::Model;

/// At most 80 bytes, none of them on the heap.
#[derive(Drop)]
pub struct BackwardLine {
    bytes: [u8; 80],
    start: usize,
}

impl Model for BackwardLine {
    ghost use Rattle.std.specs.Prelude.{ℕ, List, drop, ◌≤◌};

    ghost Value = { List ℕ };

    ghost view = { λ l. drop l.start l.bytes };

    ghost invariant = { λ l. l.start ≤ 80 };
}

impl BackwardLine {
    /// No bytes.
    pub fn new() -> BackwardLine
        ensures { result ≡ [] }
    {
        BackwardLine {
            bytes: [0; 80],
            start: 80,
        }
    }

    /// Adds a byte in front.
    #[inline(always)]
    pub fn push_byte(&mut self, byte: u8)
        requires { length self.old + 1 ≤ 80 }
        ensures { self.new ≡ byte ∷ self.old }
    {
        self.start -= 1;
        self.bytes[self.start] = byte;
    }

    /// Adds a text in front.
    #[inline(always)]
    pub fn push_text(&mut self, text: &[u8])
        requires { length self.old + length text.now ≤ 80 }
        ensures { self.new ≡ text.now ++ self.old }
    {
        let end = self.start;
        self.start -= text.len();
        self.bytes[self.start..end].copy_from_slice(text);
    }

    /// Adds a number in decimal in front.
    #[inline(always)]
    pub fn push_number(&mut self, number: u64)
        requires { length self.old + 20 ≤ 80 }
        ensures value { self.new ≡ decimal number ++ self.old }
        ensures at_most { length self.new ≤ length self.old + 20 }
    {
        self.start = write_digits(number, &mut self.bytes, self.start);
    }

    /// Adds an integer in decimal in front.
    #[inline(always)]
    pub fn push_integer(&mut self, number: i32)
        requires { length self.old + 21 ≤ 80 }
        ensures value { self.new ≡ signed_decimal number ++ self.old }
        ensures at_most { length self.new ≤ length self.old + 21 }
    {
        self.push_number(u64::from(number.unsigned_abs()));
        if number < 0 {
            self.push_byte(b'-');
        }
    }

    /// Adds a value in front.
    #[inline(always)]
    pub fn push_value(&mut self, value: Value)
        requires { length self.old + 21 ≤ 80 }
        ensures value { self.new ≡ value_text value ++ self.old }
        ensures at_most { length self.new ≤ length self.old + 21 }
    {
        match value {
            Value::Fix(number) => self.push_integer(number),
            Value::Nil => self.push_text(b"nil"),
            Value::Ref(number) => {
                self.push_number(number);
                self.push_byte(b'#');
            }
        }
    }

    /// Its bytes.
    pub fn as_bytes(&self) -> &[u8]
        ensures { result.now ≡ self.now }
    {
        &self.bytes[self.start..]
    }
}
