//! What is printed of many calls.
ghost use Rattle.std.specs.Prelude.{◌<◌};

use std::io;
use std::time::{Clock, Instant};

/// How often each run of calls is made; its least time counts.
pub const ROUNDS: u32 = 8;

/// The page of a turn: if the number of pages is a power of two, each page occurs once in that many turns, in a scattered order.
pub fn page_at(turn: u32, pages: u32) -> u32
    requires { 0 < pages }
    ensures { result < pages }
{
    (turn as u64 * 5_167 % pages as u64) as u32
}

/// A run of calls: their name and number, the check sum of their answers, and the least time of a round.
#[derive(Clone, Copy)]
pub struct Measurement<'a> {
    name: &'a str,
    calls: u32,
    sum: u64,
    least: u64,
}

impl<'a> Measurement<'a> {
    /// A measurement before its first round.
    pub fn new(name: &'a str, calls: u32) -> Measurement<'a> {
        Measurement {
            name,
            calls,
            sum: 0,
            least: u64::MAX,
        }
    }

    /// Ends a round that began at `start`.
    pub fn end_round(&mut self, rt: &impl Clock, start: Instant, sum: u64) -> io::Result<()> {
        let nanos = u64::try_from(start.elapsed(rt)?.as_nanos()).unwrap_or(u64::MAX);
        self.least = self.least.min(nanos);
        self.sum = sum;
        Ok(())
    }

    /// Prints the calls and their sum, and on standard error how long a call took.
    pub fn print(&self, rt: &(impl Print + Eprint)) -> io::Result<()> {
        let Measurement {
            name,
            calls,
            sum,
            least,
        } = *self;
        let each = least.checked_div(calls as u64).unwrap_or(0);
        println!(rt; "{name}: {calls} calls, sum {sum}")?;
        eprintln!(rt; "{name}: {each} ns a call")
    }

    /// Prints on standard error the time of this run as a multiple, in hundredths, of that of another run with the same number of calls.
    pub fn compare(&self, rt: &impl Eprint, other: &Measurement) -> io::Result<()> {
        let hundredths = self
            .least
            .saturating_mul(100)
            .checked_div(other.least)
            .unwrap_or(0);
        let (whole, rest) = (hundredths / 100, hundredths % 100);
        eprintln!(rt; "{}: {whole}.{rest:02} times the other", self.name)
    }
}

/// The error with which a benchmark ends if memory runs out.
pub fn no_memory() -> io::Error {
    io::ErrorKind::OutOfMemory.into()
}
