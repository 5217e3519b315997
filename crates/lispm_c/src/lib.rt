//! The machine for C: `lispm.h` says what each call does, and what C must ensure.
//!
//! Each export's contract says what C gets. `seat` is what C holds of a session; `slot` and `parts` have the pointers, the only unsafe
//! code of this repository, proved by hand.
#![tactic(auto)]

ghost use Rattle.std.specs.Prelude.{◌≡◌, ◌⊎◌, ℕ, List, [], Some, None, IfSome, IsSome, not, true, false};
ghost use Rattle.line_input.specs.Reader.{no_feed};
ghost use Rattle.byte_run.specs.declared.session.ByteSession.{ByteSession};
ghost use Rattle.byte_run.specs.Answered.{IsAnswer, IsShown, RanOut};
ghost use Rattle.byte_run.specs.Numbers.{number_of};
ghost use Rattle.lispm_c.specs.Handed.{IsHanded};
ghost use Rattle.lispm_c.specs.Sessions.{Ends, Feeds, IsOpened};

mod parts;
mod put;
mod seat;
mod slot;

use byte_run::{ByteSession, run_inside_bytes, run_lispm_bytes};
use put::put;
use seat::Seat;
use std::alloc::Global;

/// The status of a call on a seat without a session.
const EMPTY: u8 = 9;

/// The status of a line whose text has a line feed.
const FEED: u8 = 11;

/// The version: 1,000,000 times the first number of VERSION, 1,000 times the second, and the third.
#[unsafe(no_mangle)]
pub extern "C" fn lispm_raw_version() -> u32
    ensures { result ≡ 4000 }
{
    4_000
}

/// Does everything that `lispm` does with these arguments, each followed by a NUL byte: returns its status, and hands out what it writes.
#[unsafe(no_mangle)]
pub extern "C" fn lispm_raw_main(
    alloc: Global,
    arguments: &[u8],
    input: &[u8],
    output: &mut [u8],
    needed: &mut usize,
) -> u8
    ensures { (written : List ℕ) × (status : ℕ) × (RanOut written status ⊎ IsAnswer arguments.now input.now written status)
        × IsHanded output.old output.new needed.new result written status }
{
    let ran = run_lispm_bytes(alloc, arguments, input);
    put(ran.status, ran.bytes.as_slice(), b"", output, needed)
}

/// Does everything that `lispm_inside` does with these arguments.
#[unsafe(no_mangle)]
pub extern "C" fn lispm_raw_inside(
    alloc: Global,
    arguments: &[u8],
    input: &[u8],
    output: &mut [u8],
    needed: &mut usize,
) -> u8
    ensures { (written : List ℕ) × (status : ℕ) × (RanOut written status ⊎ IsShown arguments.now input.now written status)
        × IsHanded output.old output.new needed.new result written status }
{
    let ran = run_inside_bytes(alloc, arguments, input);
    put(ran.status, ran.bytes.as_slice(), b"", output, needed)
}

/// Opens a session in a seat, in place of the one that it had: returns 0, or 5 if memory ran out; then the seat is empty.
#[unsafe(no_mangle)]
pub extern "C" fn lispm_raw_open(alloc: Global, seat: &mut Seat) -> u8
    ensures { IsOpened seat.new.slot.held result }
{
    drop(seat.take(alloc));
    let session = match ByteSession::new(alloc) {
        Ok(session) => session,
        Err(_) => return 5,
    };
    match Box::new(alloc, session) {
        Ok(session) => {
            seat.put(alloc, session);
            0
        }
        Err(_) => 5,
    }
}

/// Feeds the next line to the session of a seat, and hands out the answer.
#[unsafe(no_mangle)]
pub extern "C" fn lispm_raw_line(
    alloc: Global,
    seat: &mut Seat,
    text: &[u8],
    output: &mut [u8],
    needed: &mut usize,
) -> u8
    ensures refused { no_feed text.now ≡ false → (seat.new.slot.held ≡ seat.old.slot.held) × IsHanded output.old output.new needed.new result [] 11 }
    ensures empty { no_feed text.now ≡ true → seat.old.slot.held ≡ None → (seat.new.slot.held ≡ None) × IsHanded output.old output.new needed.new result [] 9 }
    ensures unchanged { no_feed text.now ≡ true → IsSome seat.old.slot.held → IsSome seat.new.slot.held }
    ensures does { (session : ByteSession) → no_feed text.now ≡ true → seat.old.slot.held ≡ Some session
        → IfSome seat.new.slot.held (λ after. Feeds session.session.state session.session after.session text.now output.old output.new needed.new result) }
{
    if has_feed(text) {
        return put(FEED, b"", b"", output, needed);
    }
    let Some(mut session) = seat.take(alloc) else {
        return put(EMPTY, b"", b"", output, needed);
    };
    let status = feed(alloc, &mut session, text, output, needed);
    seat.put(alloc, session);
    status
}

/// Hands out the answer to the latest line once more, with the status that it had. A session that hasn't been fed a line has an empty answer and status 0.
#[unsafe(no_mangle)]
pub extern "C" fn lispm_raw_again(
    alloc: Global,
    seat: &mut Seat,
    output: &mut [u8],
    needed: &mut usize,
) -> u8
    ensures unchanged { seat.new.slot.held ≡ seat.old.slot.held }
    ensures empty { seat.old.slot.held ≡ None → IsHanded output.old output.new needed.new result [] 9 }
    ensures does { (session : ByteSession) → seat.old.slot.held ≡ Some session
        → IsHanded output.old output.new needed.new result session.session.answer (number_of session.session.state) }
{
    let Some(session) = seat.take(alloc) else {
        return put(EMPTY, b"", b"", output, needed);
    };
    let (first, second) = session.answer();
    let status = put(session.number(), first, second, output, needed);
    seat.put(alloc, session);
    status
}

/// Ends the session of a seat, as the end of its input does, and hands out what is written then.
#[unsafe(no_mangle)]
pub extern "C" fn lispm_raw_end(
    alloc: Global,
    seat: &mut Seat,
    output: &mut [u8],
    needed: &mut usize,
) -> u8
    ensures empty { seat.old.slot.held ≡ None → (seat.new.slot.held ≡ None) × IsHanded output.old output.new needed.new result [] 9 }
    ensures unchanged { IsSome seat.old.slot.held → IsSome seat.new.slot.held }
    ensures end { (session : ByteSession) → seat.old.slot.held ≡ Some session
        → IfSome seat.new.slot.held (λ after. Ends session.session.state session.session after.session output.old output.new needed.new result) }
{
    let Some(mut session) = seat.take(alloc) else {
        return put(EMPTY, b"", b"", output, needed);
    };
    let status = if session.is_open() {
        session.end();
        let (first, second) = session.answer();
        put(session.number(), first, second, output, needed)
    } else {
        put(session.late_number(), b"", b"", output, needed)
    };
    seat.put(alloc, session);
    status
}

/// Frees the session of a seat, if it has one. Then the seat is empty.
#[unsafe(no_mangle)]
pub extern "C" fn lispm_raw_close(alloc: Global, seat: &mut Seat)
    ensures { seat.new.slot.held ≡ None }
{
    drop(seat.take(alloc));
}

/// Whether a text has a line feed.
fn has_feed(text: &[u8]) -> bool
    ensures { result ≡ not (no_feed text.now) }
{
    text.contains(&b'\n')
}

/// Feeds a line, whose text has no line feed, to a session, if the session is open, and hands out the answer.
fn feed(
    alloc: Global,
    session: &mut ByteSession,
    text: &[u8],
    output: &mut [u8],
    needed: &mut usize,
) -> u8
    requires { no_feed text.now ≡ true }
    ensures { Feeds session.old.session.state session.old.session session.new.session text.now output.old output.new needed.new result }
{
    if !session.is_open() {
        return put(session.late_number(), b"", b"", output, needed);
    }
    session.line(alloc, text);
    let (first, second) = session.answer();
    put(session.number(), first, second, output, needed)
}
