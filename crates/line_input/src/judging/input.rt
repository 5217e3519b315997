//! A place between two lines of an input.
ghost use Rattle.std.specs.Prelude.{◌≡◌, ◌<◌, ◌≤◌, ◌+◌, ◌^◌, length, true, None, Ok, IfOk, OnOk};
ghost use Rattle.line_input.specs.declared.statuses.status.RunError.TheVariants.{Line};
ghost use Rattle.line_input.specs.Limits.{broken_limit, enough_bytes};
ghost use Rattle.line_input.specs.Verdict.{IsPlace, Judged, early_reason, ended, enough, further, judged_as, start};

use crate::judging::judge::LineJudge;
use crate::lines::{LONGEST_INPUT, LONGEST_LINE};
use crate::statuses::RunError;
use std::alloc::Global;
use world_text::Reason;

/// What the lines so far mean (`judge`), their number, and how many bytes they have, line feeds included.
#[derive(Drop)]
pub struct InputReader<J> {
    pub judge: J,
    pub lines: u64,
    pub bytes: u64,
}

/// The trouble with an input that ends after `lines` lines, before it is whole. An input without a line is refused for the reason `empty`.
pub fn early_end(lines: u64, empty: Reason) -> RunError
    requires { lines < 2 ^ 50 }
    ensures { result ≡ Line (lines + 1) (early_reason lines empty) }
{
    let reason = if lines == 0 { empty } else { Reason::NoEnd };
    RunError::Line(lines + 1, reason)
}

impl<J> InputReader<J> {
    /// The place before the first line.
    pub fn start(judge: J) -> InputReader<J>
        ensures { result ≡ start judge }
    {
        InputReader {
            judge,
            lines: 0,
            bytes: 0,
        }
    }

    /// How many bytes of the next line, from 1 to 32,769, decide which limit it breaks if they contain no line feed: one byte
    /// if the lines so far are whole (`whole`), so that none may follow; otherwise the bytes up to the first one beyond the limit of
    /// the input or of a line.
    #[inline(always)]
    pub fn bytes_to_decide(&self, whole: bool) -> usize
        requires { self.now.bytes ≤ 2 ^ 40 }
        ensures value { result ≡ enough_bytes (2 ^ 40) whole self.now.bytes }
        ensures some { 1 ≤ result }
        ensures at_most { result ≤ 32769 }
    {
        if whole {
            return 1;
        }
        (LONGEST_INPUT - self.bytes).min(LONGEST_LINE as u64) as usize + 1
    }

    /// The first limit that the next line breaks, whatever its text: no line may follow lines that are whole (`whole`), an input has at
    /// most 2^40 bytes, and a line at most 32,768. The line has `length` bytes, and `size` bytes with its line feed, if it has one.
    ///
    /// If a line doesn't end within its first `bytes_to_decide` bytes, these decide.
    #[inline(always)]
    pub fn broken_limit(&self, whole: bool, length: usize, size: usize) -> Option<Reason>
        requires { self.now.bytes ≤ 2 ^ 40 }
        ensures value { result ≡ broken_limit (2 ^ 40) whole self.now.bytes length size }
        ensures in_range { result ≡ None → size ≤ length + 1 → self.now.bytes + size ≤ 2 ^ 40 }
    {
        if whole {
            return Some(Reason::TextAfterEnd);
        }
        if self.bytes + size.min(LONGEST_LINE + 1) as u64 > LONGEST_INPUT {
            return Some(Reason::InputTooLong);
        }
        if length > LONGEST_LINE {
            return Some(Reason::LineTooLong);
        }
        None
    }

    /// Whether the next line keeps the limit of the input, however long it is, up to the limit of a line.
    #[inline(always)]
    pub fn has_room_for_a_line(&self) -> bool
        ensures { result ≡ true → self.now.bytes + 32769 ≤ 2 ^ 40 }
    {
        self.bytes < LONGEST_INPUT - LONGEST_LINE as u64
    }

    /// Goes past a line of this many bytes.
    #[inline(always)]
    pub fn advance(&mut self, size: usize)
        requires sound { IsPlace self.old }
        requires at_least { 1 ≤ size }
        requires in_range { self.old.bytes + size ≤ 2 ^ 40 }
        ensures after { self.new ≡ further self.old size }
        ensures stays_sound { IsPlace self.new }
    {
        self.lines += 1;
        self.bytes += size as u64;
    }
}

impl<J: LineJudge + Drop> InputReader<J> {
    /// Whether the lines are whole, so that none may follow.
    pub fn is_whole(&self) -> bool
        ensures { result ≡ J.rules.is_whole self.now.judge }
    {
        self.judge.is_whole()
    }

    /// How many bytes of the next line, from 1 to 32,769, decide it if they contain no line feed.
    pub fn enough(&self) -> usize
        requires { IsPlace self.now }
        ensures value { result ≡ enough J.rules self.now }
        ensures some { 1 ≤ result }
        ensures at_most { result ≤ 32769 }
    {
        self.bytes_to_decide(self.is_whole())
    }

    /// Goes past the next line, which has this text and, including its line feed if it has one, this many bytes. If the line is
    /// refused, or memory runs out, this place must not be used again.
    pub fn line(&mut self, alloc: Global, text: &[u8], size: usize) -> Result<(), RunError>
        requires sound { IsPlace self.old }
        requires at_least { 1 ≤ size }
        requires at_most { size ≤ length text.now + 1 }
        ensures judged { Judged self.new result (judged_as J.rules self.old text.now size) }
        ensures stays_sound { OnOk result (IsPlace self.new) }
    {
        let number = self.lines + 1;
        let whole = self.is_whole();
        if let Some(reason) = self.broken_limit(whole, text.len(), size) {
            return Err(RunError::Line(number, reason));
        }
        match self.judge.line(alloc, number, text) {
            Ok(()) => {}
            Err(trouble) => return Err(trouble),
        }
        self.advance(size);
        Ok(())
    }

    /// What the lines mean if they end here; or the trouble if they aren't whole.
    pub fn close(self) -> Result<J::Whole, RunError>
        requires { IsPlace self }
        ensures value { result ≡ ended J.rules (Ok self) }
        ensures fits { IfOk result J.fits }
    {
        if self.is_whole() {
            return Ok(self.judge.whole());
        }
        Err(early_end(self.lines, J::empty()))
    }
}
