//! Reading lines through one buffer.
ghost use Rattle.std.specs.Prelude.{◌≡◌, ◌⊎◌, ◌<◌, ◌≤◌, ◌++◌, ℕ, List, [], true, false, length, take, drop, MatchOption, IfOk, IfSome, OnOk, OnErr};
ghost use Rattle.outer_ports.specs.Ports.{Gave, HasCause, IsAtEnd};
ghost use Rattle.line_input.specs.Reader.{FitsIn, IsFound, IsNext, IsPart, no_feed, without_latest};

use crate::lines::buffer::{feed_from, make_room, take_behind};
use crate::lines::found::LineSpan;
use outer_ports::{Source, SourceFault};
use std::alloc::{AllocError, Global};
use std::marker::Model;

/// The size of the buffer in bytes: the longest line with its line feed.
pub const BUFFER: usize = 32_769;

/// Takes bytes from a source into one buffer, and finds the lines in it.
#[derive(Drop)]
pub struct LineReader {
    buffer: Vec<u8>,
    start: usize,
    end: usize,
    ended: bool,
}

impl Model for LineReader {
    ghost use Rattle.std.specs.Prelude.{◌≡◌, ◌≤◌, ◌-◌, ℕ, List, take, drop, vec_len};
    ghost use Rattle.line_input.specs.Reader.{Buffered};

    ghost Value = { Buffered };

    ghost view = { λ r. record { bytes = take (r.end - r.start) (drop r.start r.buffer.items); ended = r.ended } };

    ghost invariant = { λ r. (r.start ≤ r.end) × (r.end ≤ 32769) × (vec_len r.buffer ≡ 32769) };
}

impl LineReader {
    /// Allocates the buffer of 32,769 bytes. It fails if there is no memory for it.
    pub fn new(alloc: Global) -> Result<LineReader, AllocError>
        ensures bytes { IfOk result (λ reader. reader.bytes ≡ []) }
        ensures ended { IfOk result (λ reader. reader.ended ≡ false) }
    {
        let buffer = vec![in alloc; 0; BUFFER]?;
        Ok(LineReader {
            buffer,
            start: 0,
            end: 0,
            ended: false,
        })
    }

    /// The bytes that were taken and not yet passed.
    #[inline(always)]
    pub fn bytes(&self) -> &[u8]
        ensures value { result.now ≡ self.now.bytes }
        ensures at_most { length result.now ≤ 32769 }
    {
        &self.buffer[self.start..self.end]
    }

    /// Whether the source has reached its end.
    pub fn is_ended(&self) -> bool
        ensures { result ≡ self.now.ended }
    {
        self.ended
    }

    /// Goes past this many bytes.
    #[inline(always)]
    pub fn pass(&mut self, size: usize)
        requires { size ≤ length self.old.bytes }
        ensures bytes { self.new.bytes ≡ drop size self.old.bytes }
        ensures ended { self.new.ended ≡ self.old.ended }
    {
        self.start += size;
    }

    /// The next line, if its end is buffered; or all buffered bytes, if they contain no line feed and are at least `enough`. The first `seen`
    /// buffered bytes contain no line feed. `enough` is at least 1.
    #[inline(always)]
    pub fn find_line(&self, seen: usize, enough: usize) -> Option<LineSpan>
        requires in_range { seen ≤ length self.now.bytes }
        requires none { no_feed (take seen self.now.bytes) ≡ true }
        requires at_least { 1 ≤ enough }
        ensures found { MatchOption result (IsPart self.now enough) (IsFound self.now enough) }
        ensures fits { IfSome result (FitsIn self.now) }
        ensures at_most { length self.now.bytes ≤ 32769 }
    {
        let bytes = self.bytes();
        let length = bytes.len();
        if let Some(at) = feed_from(bytes, seen) {
            return Some(LineSpan {
                length: at,
                size: at + 1,
            });
        }
        if length >= enough || (self.ended && length > 0) {
            return Some(LineSpan {
                length,
                size: length,
            });
        }
        None
    }

    /// Takes more bytes, or finds that there are none.
    fn more<S: Source>(&mut self, source: &mut S) -> Result<(), SourceFault>
        requires room { length self.old.bytes < 32769 }
        ensures given { IfOk result (λ _. (piece : List ℕ) × Gave (S.left source.old) (S.left source.new) piece
            × (self.new.bytes ≡ self.old.bytes ++ piece) × (length piece ≡ S.last source.new)) }
        ensures end { OnOk result (self.new.ended ≡ true → IsAtEnd (S.left source.new)) }
        ensures goes_on { OnOk result (self.new.ended ≡ false → length self.old.bytes < length self.new.bytes) }
        ensures at_most { length self.new.bytes ≤ 32769 }
        ensures left { OnErr result (S.left source.new ≡ S.left source.old) }
        ensures bytes { OnErr result (self.new.bytes ≡ self.old.bytes) }
        ensures ended { OnErr result (self.new.ended ≡ self.old.ended) }
        ensures cause { HasCause (S.faults source.old) (S.faults source.new) result }
    {
        let (start, end) = make_room(&mut self.buffer, self.start, self.end);
        self.start = start;
        self.end = end;
        let count = take_behind(source, &mut self.buffer, self.start, self.end)?;
        self.end += count;
        self.ended = count == 0;
        Ok(())
    }

    /// The next line, or a prefix of it that has `enough` bytes, from 1 to 32,769; or none at the end of the input. If one is buffered, no
    /// more bytes are taken; otherwise one piece after another is, until one is buffered. If the source fails, so does the call: then the bytes taken are buffered, and are neither a line nor `enough`.
    pub fn next<S: Source>(
        &mut self,
        source: &mut S,
        enough: usize,
    ) -> Result<Option<LineSpan>, SourceFault>
        requires sound { self.old.ended ≡ true → IsAtEnd (S.left source.old) }
        requires at_least { 1 ≤ enough }
        requires in_range { enough ≤ 32769 }
        ensures given { (piece : List ℕ) × Gave (S.left source.old) (S.left source.new) piece
            × (self.new.bytes ≡ self.old.bytes ++ piece) × (self.old.ended ≡ true → piece ≡ []) }
        ensures last { ((self.new.bytes ≡ self.old.bytes) × (S.last source.new ≡ S.last source.old))
            ⊎ (no_feed (without_latest (S.last source.new) self.new.bytes) ≡ true) }
        ensures end { self.new.ended ≡ true → IsAtEnd (S.left source.new) }
        ensures ended { self.old.ended ≡ true → self.new.ended ≡ true }
        ensures at_most { length self.new.bytes ≤ 32769 }
        ensures value { IfOk result (IsNext self.new enough) }
        ensures fits { IfOk result (λ next. IfSome next (FitsIn self.new)) }
        ensures err { OnErr result (IsPart self.new enough) }
        ensures open { OnErr result (self.new.ended ≡ false) }
        ensures cause { HasCause (S.faults source.old) (S.faults source.new) result }
    {
        let mut seen = 0;
        loop {
            if let Some(found) = self.find_line(seen, enough) {
                return Ok(Some(found));
            }
            if self.is_ended() {
                return Ok(None);
            }
            seen = self.bytes().len();
            self.more(source)?;
        }
    }
}
