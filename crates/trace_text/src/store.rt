//! The commands of the store, such as `flip` and `stats`.
ghost use Rattle.std.specs.Prelude.{◌≤◌};
ghost use Rattle.world_text.specs.Words.{words_of};
ghost use Rattle.world_text.specs.Next.{Gives};
ghost use Rattle.trace_text.specs.Commands.{flip_in, page_out_in, scavenge_in, store_command};

use crate::flip::condemn;
use crate::pair::pair_command;
use crate::words::{Accepted, has_words, number};
use lisp_graph::{CommandHead, Request};
use store_word::Space;

/// `flip full`, or `flip` with levels
#[tactic(auto, unfolding(crate::specs::Commands::flip_in))]
fn flip(levels: u8, count: usize, text: &[u8], command: &mut Request) -> Accepted
    requires { levels ≤ 6 }
    ensures { Gives (λ _. command.new) result (flip_in levels count (words_of text.now)) }
{
    has_words(count, 2)?;
    let (what, _) = condemn(levels, text)?;
    command.set(CommandHead::Flip { what });
    Ok(())
}

/// `scavenge N`
#[tactic(auto, unfolding(crate::specs::Commands::scavenge_in))]
fn scavenge(count: usize, text: &[u8], command: &mut Request) -> Accepted
    ensures { Gives (λ _. command.new) result (scavenge_in count (words_of text.now)) }
{
    has_words(count, 2)?;
    let (units, _) = number(text)?;
    command.set(CommandHead::Scavenge { count: units });
    Ok(())
}

/// `page-out N`
#[tactic(auto, unfolding(crate::specs::Commands::page_out_in))]
fn page_out(count: usize, text: &[u8], command: &mut Request) -> Accepted
    ensures { Gives (λ _. command.new) result (page_out_in count (words_of text.now)) }
{
    has_words(count, 2)?;
    let (pages, _) = number(text)?;
    command.set(CommandHead::PageOut { count: pages });
    Ok(())
}

/// A command of the store, or one of two registers.
#[tactic(auto, unfolding(crate::specs::Commands::store_command))]
pub fn store_command(
    space: &Space,
    head: &[u8],
    count: usize,
    text: &[u8],
    command: &mut Request,
) -> Accepted
    requires registers { space.now.registers ≤ 256 }
    requires levels { space.now.levels ≤ 6 }
    ensures { Gives (λ _. command.new) result (store_command space.now head.now count (words_of text.now)) }
{
    if head == b"flip".as_slice() {
        return flip(space.levels, count, text, command);
    }
    if head == b"scavenge".as_slice() {
        return scavenge(count, text, command);
    }
    if head == b"reclaim".as_slice() {
        has_words(count, 1)?;
        command.set(CommandHead::Reclaim);
        return Ok(());
    }
    if head == b"page-out".as_slice() {
        return page_out(count, text, command);
    }
    if head == b"stats".as_slice() {
        has_words(count, 1)?;
        command.set(CommandHead::Stats);
        return Ok(());
    }
    if head == b"dump".as_slice() {
        has_words(count, 1)?;
        command.set(CommandHead::Dump);
        return Ok(());
    }
    pair_command(space.registers, head, count, text, command)
}
