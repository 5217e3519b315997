//! The levels of a flip.
ghost use Rattle.std.specs.Prelude.{◌≡◌, ◌<◌, ◌≤◌, ◌+◌, position, length, option_map, IfSome};
ghost use Rattle.std.specs.List.{slice_split};
ghost use Rattle.world_text.specs.Words.{words_of};
ghost use Rattle.world_text.specs.Numbers.{number_in};
ghost use Rattle.world_text.specs.Next.{Gives, next};
ghost use Rattle.trace_text.specs.Commands.{a_condemn, is_comma, levels_from};

use lisp_graph::Condemn;
use store_word::{Flags, Levels};
use world_text::{Reason, next_word, number_in};

/// The place of the first comma.
fn first_comma(text: &[u8]) -> Option<usize>
    ensures value { result ≡ position is_comma text.now }
    ensures in_range { IfSome result (λ end. end < length text.now) }
{
    text.iter().position(|byte| *byte == b',')
}

/// A level above the last one, and at most the top.
fn level_in(last: u8, top: u8, piece: &[u8]) -> Option<u8>
    requires last { last ≤ 6 }
    requires at_most { top ≤ 6 }
    ensures value { result ≡ number_in (last + 1) top piece.now }
    ensures in_range { IfSome result (λ level. (last < level) × (level ≤ top)) }
{
    let level = number_in(u32::from(last) + 1, u32::from(top), piece)?;
    Some(level as u8)
}

/// The set of ascending levels, which single commas separate.
fn levels_in(top: u8, word: &[u8]) -> Option<Levels>
    requires { top ≤ 6 }
    ensures { option_map (λ levels. levels.0) result ≡ levels_from top 0 0 (slice_split is_comma word.now) }
{
    let mut levels = Levels::empty();
    let mut last = 0;
    let mut rest = word;
    loop {
        match first_comma(rest) {
            Some(end) => {
                last = level_in(last, top, &rest[..end])?;
                levels.insert(Levels::one(last));
                rest = &rest[end + 1..];
            }
            None => {
                last = level_in(last, top, rest)?;
                levels.insert(Levels::one(last));
                return Some(levels);
            }
        }
    }
}

/// What a flip condemns.
#[tactic(auto, unfolding(crate::specs::Commands::a_condemn, world_text::specs::reading::Next::next))]
pub fn condemn(top: u8, text: &[u8]) -> Result<(Condemn, &[u8]), Reason>
    requires { top ≤ 6 }
    ensures { Gives (λ x. (x.0, words_of x.1.now)) result (next (a_condemn top) (words_of text.now)) }
{
    let (word, rest) = next_word(text);
    if word == b"full".as_slice() {
        return Ok((Condemn::Full, rest));
    }
    match levels_in(top, word) {
        Some(levels) => Ok((Condemn::Chosen(levels), rest)),
        None => Err(Reason::BadLevels),
    }
}
