//! The summary of an exercise.
ghost use Rattle.std.specs.Prelude.{◌≡◌, ◌+◌, ◌≤◌, ◌++◌, [], length, decimal};
ghost use Rattle.trace_text.specs.Summary.{count_line, summary};

use itoa::Buffer;
use outer_ports::{Tally, copy_at};
use std::marker::Model;

/// The six lines of a summary, in a buffer of 192 bytes.
#[derive(Debug, Drop)]
pub struct SummaryText {
    bytes: [u8; 192],
    len: usize,
}

impl Model for SummaryText {
    ghost use Rattle.std.specs.Prelude.{ℕ, List, take, ◌≤◌};

    ghost Value = { List ℕ };

    ghost view = { λ t. take t.len t.bytes };

    ghost invariant = { λ t. t.len ≤ 192 };
}

impl SummaryText {
    fn new() -> SummaryText
        ensures { result ≡ [] }
    {
        SummaryText {
            bytes: [0; 192],
            len: 0,
        }
    }

    /// Adds a text at the end.
    fn push(&mut self, text: &[u8])
        requires { length self.old + length text.now ≤ 192 }
        ensures { self.new ≡ self.old ++ text.now }
    {
        copy_at(&mut self.bytes, self.len, text);
        self.len += text.len();
    }

    /// Adds a number in decimal.
    fn push_number(&mut self, number: u64)
        requires { length self.old + 20 ≤ 192 }
        ensures value { self.new ≡ self.old ++ decimal number }
        ensures at_most { length self.new ≤ length self.old + 20 }
    {
        let mut buffer = Buffer::new();
        self.push(buffer.format(number).as_bytes());
    }

    /// Adds the line of a word and a count.
    #[tactic(auto, using(std::proofs::Common::append_assoc))]
    fn push_line(&mut self, word: &[u8], count: u64)
        requires { length self.old + length word.now + 22 ≤ 192 }
        ensures value { self.new ≡ self.old ++ count_line word.now count }
        ensures at_most { length self.new ≤ length self.old + length word.now + 22 }
    {
        self.push(word);
        self.push(b" ");
        self.push_number(count);
        self.push(b"\n");
    }

    /// Its bytes.
    pub fn as_bytes(&self) -> &[u8]
        ensures value { result.now ≡ self.now }
        ensures at_most { length result.now ≤ 192 }
    {
        &self.bytes[..self.len]
    }
}

/// The summary of an exercise of `count` commands, from the counts of its reply lines.
pub fn summary_text(count: u32, tally: &Tally) -> SummaryText
    ensures { result ≡ summary count tally.now }
{
    let mut text = SummaryText::new();
    text.push_line(b"commands", u64::from(count));
    text.push_line(b"replies", tally.replies);
    text.push_line(b"exhausted", tally.exhausted);
    text.push_line(b"wrong-type", tally.wrong_type);
    text.push_line(b"reclaimed", tally.reclaimed);
    text.push_line(b"fault", tally.fault);
    text
}
