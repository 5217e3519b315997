//! A session over a swap device in memory.
ghost use Rattle.std.specs.Prelude.{◌≡◌, ◌≢◌, ◌++◌, ◌↔◌, ℕ, List, [], true, IfOk, IsTrue};
ghost use Rattle.line_input.specs.Reader.{no_feed};
ghost use Rattle.replay_run.specs.Session.{Does, fed_of};
ghost use Rattle.byte_run.specs.Numbers.{late_number, number_of};

use line_input::Status;
use outer_ports::{NoMemory, SwapMemory};
use replay_run::{Machine, Session, SessionState};
use std::alloc::Global;

/// A session whose swap device is in memory and never fails.
#[derive(Drop)]
pub struct ByteSession {
    pub session: Session<SwapMemory>,
}

impl ByteSession {
    /// A session that was fed nothing.
    pub fn new(alloc: Global) -> Result<ByteSession, NoMemory>
        ensures does { IfOk result (λ s. Does [] [] s.session) }
        ensures open { IfOk result (λ s. s.session.state ≡ SessionState.Open) }
        ensures empty { IfOk result (λ s. s.session.answer ≡ []) }
    {
        let machine = Machine::idle(SwapMemory::new(alloc, 0));
        let session = Session::new(alloc, machine)?;
        Ok(ByteSession { session })
    }

    /// Whether it takes the next line.
    pub fn is_open(&self) -> bool
        ensures { IsTrue result ↔ (self.now.session.state ≡ SessionState.Open) }
    {
        matches!(self.session.state(), SessionState::Open)
    }

    /// The status of the latest call that changed the session: 0 if it is open, otherwise the status with which it ended.
    pub fn number(&self) -> u8
        ensures { result ≡ number_of self.now.session.state }
    {
        match self.session.state() {
            SessionState::Open => 0,
            SessionState::Ended(status) => status.code(),
        }
    }

    /// The status of a call on a session that has ended: 12 if its input was whole, otherwise the status with which it ended.
    pub fn late_number(&self) -> u8
        ensures { result ≡ late_number self.now.session.state }
    {
        match self.session.state() {
            SessionState::Open => 0,
            SessionState::Ended(Status::Done) => 12,
            SessionState::Ended(status) => status.code(),
        }
    }

    /// The answer to the latest line, in two pieces.
    pub fn answer(&self) -> (&[u8], &[u8])
        ensures { result.0.now ++ result.1.now ≡ self.now.session.answer }
    {
        self.session.answer()
    }

    /// Feeds the next line to an open session, as `Session::line` says.
    pub fn line(&mut self, alloc: Global, text: &[u8])
        requires open { self.old.session.state ≡ SessionState.Open }
        requires at_least { no_feed text.now ≡ true }
        ensures does { (fed written : List ℕ) → Does fed written self.old.session → Does (fed ++ fed_of text.now) (written ++ self.new.session.answer) self.new.session }
        ensures ended { self.new.session.state ≢ SessionState.Ended Status.Done }
        ensures write { self.new.session.state ≢ SessionState.Ended Status.WriteFailed }
        ensures read { self.new.session.state ≢ SessionState.Ended Status.ReadFailed }
    {
        self.session.line(alloc, text);
    }

    /// Ends an open session, as `Session::end` says.
    pub fn end(&mut self)
        requires open { self.old.session.state ≡ SessionState.Open }
        ensures does { (fed written : List ℕ) → Does fed written self.old.session → Does fed (written ++ self.new.session.answer) self.new.session }
        ensures ended { self.new.session.state ≢ SessionState.Open }
        ensures write { self.new.session.state ≢ SessionState.Ended Status.WriteFailed }
        ensures read { self.new.session.state ≢ SessionState.Ended Status.ReadFailed }
    {
        self.session.end();
    }
}
