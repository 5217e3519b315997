//! A session: a run that is fed one line after another.
ghost use Rattle.std.specs.Prelude.{◌≡◌, ◌≢◌, ◌++◌, ◌≤◌, ◌+◌, ℕ, List, [], length, take, true, IfOk};
ghost use Rattle.line_input.specs.Reader.{no_feed};
ghost use Rattle.line_input.specs.Statuses.{status_of, trouble_line};
ghost use Rattle.replay_run.specs.Session.{Does, fed_of, trouble_of};

mod room;

use crate::line::answer_line;
use crate::run::close;
use crate::session::room::AnswerRoom;
use input_verdict::{InputJudge, JudgedInput};
use line_input::{InputReader, RunError, RunStop, Status};
use lisp_graph::Request;
use outer_ports::{NoMemory, SinkBuffer, Swap};
use paged_machine::{Engine, Machine};
use std::alloc::Global;
use std::marker::Model;

/// The size of the session's own buffer for answers, in bytes. Only the answer to a dump may be longer.
const PENDING: usize = 32_768;

/// The most bytes of a line.
const LONGEST_LINE: usize = 32_768;

/// Whether a session is open.
#[derive(Clone, Copy, Debug, PartialEq, Eq)]
pub enum SessionState {
    /// It takes the next line.
    Open,
    /// It has ended with this status, and takes no line.
    Ended(Status),
}

/// A run between two lines of its input, or one that has ended. It stores the answer to the latest line until the next one is fed.
#[derive(Drop)]
pub struct Session<D: Swap> {
    place: JudgedInput,
    command: Request,
    buffer: SinkBuffer,
    room: AnswerRoom,
    machine: Machine<D>,
    state: SessionState,
}

impl<D: Swap> Model for Session<D> {
    ghost use Rattle.std.specs.Prelude.{◌≡◌, ◌++◌, List, ℕ};
    ghost use Rattle.replay_run.specs.declared.session.SessionState.TheVariants.{Open};
    ghost use Rattle.replay_run.specs.Session.{GoesOn, Seen};

    ghost Value = { Seen };

    ghost view = { λ s. record { place = s.place; machine = s.machine; state = s.state; answer = s.room.bytes.items ++ s.buffer.pending } };

    ghost invariant = { λ s. (s.buffer.room ≡ 32768) × (s.state ≡ Open → (fed : List ℕ) × (written : List ℕ) × GoesOn fed written (record { place = s.place; machine = s.machine; state = s.state; answer = s.room.bytes.items ++ s.buffer.pending })) };
}

/// What a run looks at in a line with this text, and how many bytes it takes for the line: the text, and one byte more for its line feed; if the
/// text has more than 32,768 bytes, its first 32,769, which decide that it is too long.
fn front_of(text: &[u8]) -> (&[u8], usize)
    ensures first { result.0.now ≡ take 32769 text.now }
    ensures size { result.1 ≡ length (fed_of text.now) }
    ensures some { 1 ≤ result.1 }
    ensures at_most { result.1 ≤ length result.0.now + 1 }
{
    if text.len() > LONGEST_LINE {
        return (&text[..LONGEST_LINE + 1], LONGEST_LINE + 1);
    }
    (text, text.len() + 1)
}

/// Drops the latest answer.
fn forget(buffer: &mut SinkBuffer, room: &mut AnswerRoom)
    ensures after { buffer.new ≡ record buffer.old { pending = [] } }
    ensures bytes { room.new.bytes.items ≡ [] }
    ensures no_fault { room.new.faults ≡ 0 }
{
    buffer.clear();
    room.clear();
}

/// The trouble that a session reports when a run would stop. If a dump had no room, memory ran out.
fn trouble_of(stop: RunStop) -> RunError
    ensures { result ≡ trouble_of stop }
{
    match stop {
        RunStop::Tell(trouble) => trouble,
        RunStop::Write => RunError::Memory,
    }
}

/// Makes the error line of what stops a session its answer, and returns its status.
fn tell(buffer: &mut SinkBuffer, room: &mut AnswerRoom, stop: RunStop) -> Status
    ensures after { buffer.new ≡ record buffer.old { pending = [] } }
    ensures value { result ≡ status_of (trouble_of stop) }
    ensures bytes { room.new.bytes.items ≡ trouble_line (trouble_of stop) }
{
    forget(buffer, room);
    room.tell(trouble_of(stop))
}

impl<D: Swap + Drop> Session<D> {
    /// A session that was fed nothing, on an idle machine whose swap device hasn't failed. It allocates the memory for its answers.
    pub fn new(alloc: Global, machine: Machine<D>) -> Result<Session<D>, NoMemory>
        requires idle { machine.idle ≡ true }
        requires no_fault { machine.faults ≡ 0 }
        ensures does { IfOk result (λ s. Does [] [] s) }
        ensures open { IfOk result (λ s. s.state ≡ SessionState.Open) }
        ensures empty { IfOk result (λ s. s.answer ≡ []) }
    {
        let buffer = SinkBuffer::new(alloc, PENDING)?;
        let room = AnswerRoom::new(alloc)?;
        Ok(Session {
            place: InputReader::start(InputJudge::new(alloc)),
            command: Request::new(),
            buffer,
            room,
            machine,
            state: SessionState::Open,
        })
    }
}

impl<D: Swap> Session<D> {
    /// Whether the session is open.
    pub fn state(&self) -> SessionState
        ensures { result ≡ self.now.state }
    {
        self.state
    }

    /// The answer to the latest line, in two pieces.
    pub fn answer(&self) -> (&[u8], &[u8])
        ensures { result.0.now ++ result.1.now ≡ self.now.answer }
    {
        (self.room.bytes.as_slice(), self.buffer.bytes())
    }

    /// Feeds the next line to an open session. The line is this text and a line feed. If the text has more than 32,768 bytes, its first 32,769 are
    /// fed, which decide that the line is too long. After the call, what was written is what a run writes for the lines so far, and ends with the
    /// answer. After the world's last line was fed, only a dump allocates memory.
    pub fn line(&mut self, alloc: Global, text: &[u8])
        requires open { self.old.state ≡ SessionState.Open }
        requires at_least { no_feed text.now ≡ true }
        ensures does { (fed : List ℕ) → (written : List ℕ) → Does fed written self.old → Does (fed ++ fed_of text.now) (written ++ self.new.answer) self.new }
        ensures ended { self.new.state ≢ SessionState.Ended Status.Done }
        ensures write { self.new.state ≢ SessionState.Ended Status.WriteFailed }
        ensures read { self.new.state ≢ SessionState.Ended Status.ReadFailed }
    {
        self.machine.idle_has_no_world();
        forget(&mut self.buffer, &mut self.room);
        let (front, size) = front_of(text);
        match answer_line(
            alloc,
            &mut self.place,
            &mut self.command,
            &mut self.buffer,
            &mut self.room,
            &mut self.machine,
            front,
            size,
        ) {
            Ok(()) => {}
            Err(stop) => {
                let status = tell(&mut self.buffer, &mut self.room, stop);
                self.state = SessionState::Ended(status);
            }
        }
    }

    /// Ends an open session, as the end of the input does. After the call, what was written is what a run writes for the whole input.
    pub fn end(&mut self)
        requires open { self.old.state ≡ SessionState.Open }
        ensures does { (fed : List ℕ) → (written : List ℕ) → Does fed written self.old → Does fed (written ++ self.new.answer) self.new }
        ensures ended { self.new.state ≢ SessionState.Open }
        ensures write { self.new.state ≢ SessionState.Ended Status.WriteFailed }
        ensures read { self.new.state ≢ SessionState.Ended Status.ReadFailed }
    {
        forget(&mut self.buffer, &mut self.room);
        let status = match close(&self.place) {
            Ok(()) => Status::Done,
            Err(stop) => tell(&mut self.buffer, &mut self.room, stop),
        };
        self.state = SessionState::Ended(status);
    }
}
