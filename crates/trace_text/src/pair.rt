//! The commands of two registers.
ghost use Rattle.std.specs.Prelude.{◌≡◌, ◌≤◌, ℕ, List, [], false, Err, MatchOption};
ghost use Rattle.lisp_graph.specs.Request.{command_with, is_list};
ghost use Rattle.world_text.specs.Words.{words_of};
ghost use Rattle.world_text.specs.Next.{Gives};
ghost use Rattle.world_text.specs.declared.reading.reason.Reason.TheVariants.{UnknownCommand};
ghost use Rattle.trace_text.specs.Commands.{pair_command, pair_in};
ghost use Rattle.trace_text.specs.Pairs.{pair_read, pair_with};

use crate::words::{Accepted, register};
use lisp_graph::{CommandHead, Request};
use world_text::Reason;

/// Which command of two registers it is.
#[derive(Clone, Copy, Debug, PartialEq, Eq)]
pub enum PairKind {
    Move,
    Car,
    Cdr,
    Rplaca,
    Rplacd,
    Eq,
}

impl PairKind {
    /// The kind with this first word, or None if it isn't a command of two registers.
    #[tactic(auto, unfolding(crate::specs::Commands::pair_command))]
    fn named(head: &[u8]) -> Option<PairKind>
        ensures { (registers count : ℕ) (words : List (List ℕ)) → MatchOption result
            (pair_command registers head.now count words ≡ Err UnknownCommand)
            (λ kind. pair_command registers head.now count words ≡ pair_read kind (pair_in registers count words)) }
    {
        if head == b"move".as_slice() {
            return Some(PairKind::Move);
        }
        if head == b"car".as_slice() {
            return Some(PairKind::Car);
        }
        if head == b"cdr".as_slice() {
            return Some(PairKind::Cdr);
        }
        if head == b"rplaca".as_slice() {
            return Some(PairKind::Rplaca);
        }
        if head == b"rplacd".as_slice() {
            return Some(PairKind::Rplacd);
        }
        if head == b"eq".as_slice() {
            return Some(PairKind::Eq);
        }
        None
    }

    /// The command of this kind with these registers.
    #[inline(always)]
    pub fn with(self, first: u8, second: u8) -> CommandHead
        ensures value { command_with result [] ≡ pair_with self first second }
        ensures at_most { is_list result ≡ false }
    {
        match self {
            PairKind::Move => CommandHead::Move {
                to: first,
                from: second,
            },
            PairKind::Car => CommandHead::Car {
                to: first,
                from: second,
            },
            PairKind::Cdr => CommandHead::Cdr {
                to: first,
                from: second,
            },
            PairKind::Rplaca => CommandHead::Rplaca {
                target: first,
                from: second,
            },
            PairKind::Rplacd => CommandHead::Rplacd {
                target: first,
                from: second,
            },
            PairKind::Eq => CommandHead::Eq {
                left: first,
                right: second,
            },
        }
    }
}

/// Two registers.
#[tactic(auto, unfolding(crate::specs::Commands::pair_in))]
fn two_registers(registers: u32, count: usize, text: &[u8]) -> Result<(u8, u8), Reason>
    requires { registers ≤ 256 }
    ensures { Gives (λ x. x) result (pair_in registers count (words_of text.now)) }
{
    if count != 3 {
        return Err(Reason::WrongCount);
    }
    let (first, rest) = register(registers, text)?;
    let (second, _) = register(registers, rest)?;
    Ok((first, second))
}

/// A command of two registers.
pub fn pair_command(
    registers: u32,
    head: &[u8],
    count: usize,
    text: &[u8],
    command: &mut Request,
) -> Accepted
    requires { registers ≤ 256 }
    ensures { Gives (λ _. command.new) result (pair_command registers head.now count (words_of text.now)) }
{
    let Some(kind) = PairKind::named(head) else {
        return Err(Reason::UnknownCommand);
    };
    let (first, second) = two_registers(registers, count, text)?;
    command.set(kind.with(first, second));
    Ok(())
}
