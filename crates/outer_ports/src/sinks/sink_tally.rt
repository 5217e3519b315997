//! A sink that counts lines, and stores no text.
ghost use Rattle.std.specs.Prelude.{◌≡◌, ◌≤◌, ◌<◌, ◌==◌, [], false, length, take, IfSome, MatchOption};
ghost use Rattle.std.specs.List.{position_or_len};
ghost use Rattle.outer_ports.specs.Lines.{counted_of};
ghost use Rattle.outer_ports.specs.Counting.{with_end, with_rest};

use crate::room::copy_at;
use crate::sinks::sink::{Sink, SinkFault};
use crate::sinks::tally::{Tally, position_of};
use std::marker::Model;

/// A sink that keeps the counts of the whole lines that it was given, and the first eleven bytes of
/// the line that has begun. It never fails.
#[derive(Drop)]
pub struct SinkTally {
    tally: Tally,
    begun: [u8; 11],
    len: usize,
}

impl Model for SinkTally {
    ghost use Rattle.std.specs.Prelude.{◌≤◌, take};
    ghost use Rattle.outer_ports.specs.Lines.{Counted};

    ghost Value = { Counted };

    ghost view = { λ s. record { tally = s.tally; begun = take s.len s.begun } };

    ghost invariant = { λ s. s.len ≤ 11 };
}

impl SinkTally {
    /// A sink that has counted nothing yet.
    pub fn new() -> SinkTally
        ensures { result ≡ counted_of [] }
    {
        SinkTally {
            tally: Tally::none(),
            begun: [0; 11],
            len: 0,
        }
    }

    /// The counts of the whole lines.
    pub fn tally(&self) -> Tally
        ensures { result ≡ self.now.tally }
    {
        self.tally
    }

    // Counts the line that has begun, which ends at the first line feed of these bytes, and returns the feed's
    // position, or None if there is no line feed.
    #[inline(always)]
    fn end_at_feed(&mut self, bytes: &[u8]) -> Option<usize>
        ensures found { MatchOption result (position_or_len (λ byte. byte == 10) bytes.now ≡ length bytes.now)
            (λ feed. feed ≡ position_or_len (λ byte. byte == 10) bytes.now) }
        ensures in_range { IfSome result (λ feed. feed < length bytes.now) }
        ensures after { MatchOption result (self.new ≡ self.old) (λ feed. self.new ≡ with_end self.old (take feed bytes.now)) }
        ensures at_most { length self.old.begun ≤ 11 }
    {
        if self.len == 0
            && let Some(feed) = self.tally.add_frequent(bytes)
        {
            return Some(feed);
        }
        let feed = position_of(b'\n', bytes);
        if feed == bytes.len() {
            return None;
        }
        self.end_line(&bytes[..feed]);
        Some(feed)
    }

    // Counts the line that has begun, which ends with these bytes.
    fn end_line(&mut self, bytes: &[u8])
        ensures value { self.new ≡ with_end self.old bytes.now }
        ensures at_most { length self.old.begun ≤ 11 }
    {
        if self.len == 0 {
            self.tally.add(bytes);
            return;
        }
        self.go_on(bytes);
        self.tally.add(&self.begun[..self.len]);
        self.len = 0;
    }

    // Keeps those of these bytes that are among the first eleven of their line, which goes on.
    fn go_on(&mut self, bytes: &[u8])
        ensures value { self.new ≡ with_rest self.old bytes.now }
        ensures at_most { length self.old.begun ≤ 11 }
    {
        let count = bytes.len().min(11 - self.len);
        copy_at(&mut self.begun, self.len, &bytes[..count]);
        self.len += count;
    }
}

impl Sink for SinkTally {
    ghost stands = { λ s bytes. s ≡ counted_of bytes };

    ghost faults = { λ _. 0 };

    ghost failed = { λ _. false };

    fn give(&mut self, piece: &[u8]) -> Result<usize, SinkFault> {
        let mut rest = piece;
        'lines: while let Some(feed) = self.end_at_feed(rest) {
            let (_line, ended) = rest.split_at(feed);
            rest = &ended[1..];
        }
        self.go_on(rest);
        Ok(piece.len())
    }
}
