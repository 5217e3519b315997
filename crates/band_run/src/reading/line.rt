//! A line that isn't part of a file: a command, or `end`.
ghost use Rattle.std.specs.Prelude.{◌≡◌};
ghost use Rattle.world_text.specs.Words.{words_of};
ghost use Rattle.world_text.specs.Next.{Gives};
ghost use Rattle.band_run.specs.Lines.{alone, band_line, line_in, name_in};

use lisp_graph::Name;
use world_text::{Reason, next_word, split_line};

/// What such a line means.
#[derive(Debug, Drop)]
pub enum BandLine {
    Open,
    /// The lines of a file follow. It will be saved under this name.
    Save(Name),
    Load(Name),
    List,
    /// No line may follow.
    End,
}

/// The meaning of a line of one word.
fn alone(count: usize, line: BandLine) -> Result<BandLine, Reason>
    ensures { result ≡ alone count line }
{
    if count == 1 {
        Ok(line)
    } else {
        Err(Reason::WrongCount)
    }
}

/// The name in a line of two words. `text` is what follows the first word.
fn name_in(count: usize, text: &[u8]) -> Result<Name, Reason>
    ensures { Gives (λ x. x) result (name_in count (words_of text.now)) }
{
    if count != 2 {
        return Err(Reason::WrongCount);
    }
    let (word, _) = next_word(text);
    match Name::read(word) {
        Some(name) => Ok(name),
        None => Err(Reason::BadName),
    }
}

/// The meaning of a line with this first word.
#[tactic(auto, unfolding(crate::specs::Lines::line_in))]
fn line_in(head: &[u8], count: usize, text: &[u8]) -> Result<BandLine, Reason>
    ensures { Gives (λ x. x) result (line_in head.now count (words_of text.now)) }
{
    if head == b"open".as_slice() {
        return alone(count, BandLine::Open);
    }
    if head == b"save".as_slice() {
        let name = name_in(count, text)?;
        return Ok(BandLine::Save(name));
    }
    if head == b"load".as_slice() {
        let name = name_in(count, text)?;
        return Ok(BandLine::Load(name));
    }
    if head == b"list".as_slice() {
        return alone(count, BandLine::List);
    }
    if head == b"end".as_slice() {
        return alone(count, BandLine::End);
    }
    Err(Reason::UnknownCommand)
}

/// What a line that isn't part of a file means, or why it is refused: it isn't well formed, its first word is no command, it has
/// the wrong number of words, or its name isn't valid. It allocates no memory.
pub fn read_line(line: &[u8]) -> Result<BandLine, Reason>
    ensures { Gives (λ x. x) result (band_line line.now) }
{
    let Some((head, count, rest)) = split_line(line) else {
        return Err(Reason::BadLine);
    };
    line_in(head, count, rest)
}
