//! Counts of lines by their first word.
ghost use Rattle.std.specs.Prelude.{◌≡◌, ◌≤◌, ◌==◌, [], length};
ghost use Rattle.std.specs.List.{position_or_len};
ghost use Rattle.outer_ports.specs.Lines.{first_word};
ghost use Rattle.outer_ports.specs.Counting.{may_be_counted, next_count_if, with_exhausted, with_other, with_word, with_wrong_type};

use crate::sinks::frequent::{after_exhausted, after_ok, after_wrong_type};
use memchr::memchr;

/// The number of lines (`replies`), and the number of those with each of four first words. A count saturates
/// at 2^64 - 1.
#[derive(Clone, Copy, PartialEq, Eq, Debug)]
pub struct Tally {
    pub replies: u64,
    pub exhausted: u64,
    pub wrong_type: u64,
    pub reclaimed: u64,
    pub fault: u64,
}

impl Tally {
    ghost use Rattle.std.specs.Prelude.{◌<◌, take, IfSome, MatchOption};
    ghost use Rattle.outer_ports.specs.Lines.{tally_of};
    ghost use Rattle.outer_ports.specs.Counting.{with_line};

    /// The counts of no lines.
    pub(crate) fn none() -> Tally
        ensures { result ≡ tally_of [] }
    {
        Tally {
            replies: 0,
            exhausted: 0,
            wrong_type: 0,
            reclaimed: 0,
            fault: 0,
        }
    }

    /// Counts a line. The first eleven bytes of the line suffice.
    #[inline(always)]
    pub(crate) fn add(&mut self, line: &[u8])
        ensures { self.new ≡ with_line self.old line.now }
    {
        if may_be_counted(line) {
            *self = with_word(*self, first_word(line));
        } else {
            *self = with_other(*self);
        }
    }

    /// Counts the line with which this text begins, and returns the position of its line feed, if the line
    /// is one of the most frequent replies: `ok`, `wrong-type`, or `exhausted` and what follows it.
    #[inline(always)]
    pub(crate) fn add_frequent(&mut self, text: &[u8]) -> Option<usize>
        ensures found { IfSome result (λ feed. feed ≡ position_or_len (λ byte. byte == 10) text.now) }
        ensures in_range { IfSome result (λ feed. feed < length text.now) }
        ensures after { MatchOption result (self.new ≡ self.old) (λ feed. self.new ≡ with_line self.old (take feed text.now)) }
    {
        if after_ok(text).is_some() {
            *self = with_other(*self);
            return Some(2);
        }
        if after_wrong_type(text).is_some() {
            *self = with_wrong_type(*self);
            return Some(10);
        }
        let words = after_exhausted(text)?;
        let feed = far_feed(words);
        if feed == words.len() {
            return None;
        }
        *self = with_exhausted(*self);
        Some(10 + feed)
    }
}

// The counts after one more line, which has this first word.
#[inline(never)]
fn with_word(tally: Tally, word: &[u8]) -> Tally
    ensures { result ≡ with_word tally word.now }
{
    Tally {
        replies: next_count_if(true, tally.replies),
        exhausted: next_count_if(word == b"exhausted".as_slice(), tally.exhausted),
        wrong_type: next_count_if(word == b"wrong-type".as_slice(), tally.wrong_type),
        reclaimed: next_count_if(word == b"reclaimed".as_slice(), tally.reclaimed),
        fault: next_count_if(word == b"fault".as_slice(), tally.fault),
    }
}

// The counts after one more line, which begins with none of the four words.
fn with_other(tally: Tally) -> Tally
    ensures { result ≡ with_other tally }
{
    Tally {
        replies: next_count_if(true, tally.replies),
        ..tally
    }
}

// The counts after one more line, which begins with `exhausted`.
fn with_exhausted(tally: Tally) -> Tally
    ensures { result ≡ with_exhausted tally }
{
    Tally {
        replies: next_count_if(true, tally.replies),
        exhausted: next_count_if(true, tally.exhausted),
        ..tally
    }
}

// The counts after one more line, which begins with `wrong-type`.
fn with_wrong_type(tally: Tally) -> Tally
    ensures { result ≡ with_wrong_type tally }
{
    Tally {
        replies: next_count_if(true, tally.replies),
        wrong_type: next_count_if(true, tally.wrong_type),
        ..tally
    }
}

// Whether a line begins with the first byte of one of the four words.
fn may_be_counted(line: &[u8]) -> bool
    ensures { result ≡ may_be_counted line.now }
{
    if line.is_empty() {
        return false;
    }
    line[0] == b'e' || line[0] == b'w' || line[0] == b'r' || line[0] == b'f'
}

// What precedes the first space.
fn first_word(line: &[u8]) -> &[u8]
    ensures { result.now ≡ first_word line.now }
{
    &line[..position_of(b' ', line)]
}

/// The position of the first byte like this one, or the length if there is none.
pub(crate) fn position_of(mark: u8, bytes: &[u8]) -> usize
    ensures value { result ≡ position_or_len (λ byte. byte == mark) bytes.now }
    ensures at_most { result ≤ length bytes.now }
{
    let found = bytes.iter().position(|byte| *byte == mark);
    found.unwrap_or(bytes.len())
}

// The position of the first line feed, or the length if there is none. If the line feed isn't among the first bytes,
// this is faster than `position_of`.
fn far_feed(bytes: &[u8]) -> usize
    ensures value { result ≡ position_or_len (λ byte. byte == 10) bytes.now }
    ensures at_most { result ≤ length bytes.now }
{
    match memchr(b'\n', bytes) {
        Some(at) => at,
        None => bytes.len(),
    }
}

// The next count if the test holds, otherwise the same count.
fn next_count_if(holds: bool, count: u64) -> u64
    ensures { result ≡ next_count_if holds count }
{
    count.saturating_add(holds as u64)
}
