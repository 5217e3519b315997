//! Reads and writes of one memory.
ghost use Rattle.std.specs.Prelude.{◌≡◌, ◌<◌, ◌≤◌, length};
ghost use Rattle.mem_port.specs.Store.{IsFresh};

use crate::report::{Measurement, ROUNDS};
use mem_port::Memory;
use std::io;
use std::sync::ledger::{Blank, Ledger};
use std::time::{Clock, Instant};
use store_word::{Steps, SwapFault, Word};

// How many uses a round has.
const USES: u32 = 65_536;

// From one use to the next address: a page and a word on.
const STRIDE: u32 = 257;

// The last words of 1, of 32 and of 1,024 pages.
const LAST: u32 = 255;

const RESIDENT: u32 = 8_191;

const ALL: u32 = 262_143;

// The address of a use, at most `last`, which is the last word of a page.
fn address(turn: u32, last: u32) -> u32
    ensures { result ≤ last }
{
    turn.wrapping_mul(STRIDE) & last
}

// The address after one whose word was read, among those up to a last word. A word has 36 bits, so the last term is 0; by it the
// next read waits for this one, as it does when a list is followed.
fn address_after(at: u32, word: Word, last: u32) -> u32
    ensures { result ≤ last }
{
    at.wrapping_add(STRIDE)
        .wrapping_add((word.bits() >> 36) as u32)
        & last
}

// Reads words among those up to the last.
fn read<M: Memory, L: Ledger>(
    mem: &mut M,
    last: u32,
    steps: &mut Steps<L>,
) -> Result<u64, SwapFault>
    requires { last < length (M.seen mem.old).words }
    ensures { length (M.seen mem.new).words ≡ length (M.seen mem.old).words }
{
    let mut sum = 0u64;
    let mut at = 0;
    for _ in 0..USES {
        let word = mem.read(at, steps)?;
        sum = sum.wrapping_mul(3).wrapping_add(word.bits());
        at = address_after(at, word, last);
    }
    Ok(sum)
}

// Writes words among those up to the last.
fn write<M: Memory, L: Ledger>(
    mem: &mut M,
    last: u32,
    steps: &mut Steps<L>,
) -> Result<u64, SwapFault>
    requires { last < length (M.seen mem.old).words }
    ensures { length (M.seen mem.new).words ≡ length (M.seen mem.old).words }
{
    for turn in 0..USES {
        mem.write(address(turn, last), Word::fixnum(turn as i32), steps)?;
    }
    Ok(last as u64)
}

/// The runs of reads and of writes, of the page used last, of another resident page, and of a page that isn't resident.
#[derive(Drop)]
pub struct Times {
    runs: [Measurement<'static>; 6],
}

impl Times {
    /// Prints the times of these as multiples, in hundredths, of those of others.
    pub fn compare(&self, rt: &impl Eprint, others: &Times) -> io::Result<()> {
        for (run, other) in self.runs.iter().zip(others.runs.iter()) {
            run.compare(rt, other)?;
        }
        Ok(())
    }
}

// An I/O error of a device that never fails.
fn broken() -> io::Error {
    io::ErrorKind::Other.into()
}

// Reads and then writes the words up to the last, in each round.
fn read_write<M: Memory, L: Ledger>(
    rt: &(impl Clock + Print + Eprint),
    mem: &mut M,
    names: (&'static str, &'static str),
    last: u32,
    steps: &mut Steps<L>,
) -> io::Result<(Measurement<'static>, Measurement<'static>)>
    requires { last < length (M.seen mem.old).words }
    ensures { length (M.seen mem.new).words ≡ length (M.seen mem.old).words }
{
    let mut written = Measurement::new(names.0, USES);
    let mut were_read = Measurement::new(names.1, USES);
    for _ in 0..ROUNDS {
        let start = Instant::now(rt)?;
        let Ok(sum) = write(mem, last, steps) else {
            return Err(broken());
        };
        written.end_round(rt, start, sum)?;
        let start = Instant::now(rt)?;
        let Ok(sum) = read(mem, last, steps) else {
            return Err(broken());
        };
        were_read.end_round(rt, start, sum)?;
    }
    written.print(rt)?;
    were_read.print(rt)?;
    Ok((written, were_read))
}

/// Writes and reads of a new memory of 1,024 pages.
pub fn run<M: Memory, L: Ledger>(
    rt: &(impl Clock + Print + Eprint),
    mem: &mut M,
    blank: Blank,
) -> io::Result<Times>
    requires fresh { IsFresh (M.seen mem.old) 64 2 }
    requires name { blank.name ≡ L.name }
    requires parts { blank.parts ≡ L.parts }
    requires one { blank.parts ≡ 1 }
{
    let mut steps = Steps::<L>::new(blank);
    let last = read_write(
        rt,
        mem,
        ("write, the page used last", "read, the page used last"),
        LAST,
        &mut steps,
    )?;
    let other = read_write(
        rt,
        mem,
        ("write, a resident page", "read, a resident page"),
        RESIDENT,
        &mut steps,
    )?;
    let miss = read_write(
        rt,
        mem,
        ("write, a page not resident", "read, a page not resident"),
        ALL,
        &mut steps,
    )?;
    Ok(Times {
        runs: [last.0, last.1, other.0, other.1, miss.0, miss.1],
    })
}
