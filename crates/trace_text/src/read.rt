//! Reading a line of a trace.
ghost use Rattle.std.specs.Prelude.{◌≡◌, ◌+◌, List, length, true, Ok, IfOk};
ghost use Rattle.store_word.specs.declared.space.Space.{Space as space_value};
ghost use Rattle.lisp_graph.specs.declared.world.AreaRule.{AreaRule};
ghost use Rattle.world_text.specs.Limits.{AreNamed};
ghost use Rattle.world_text.specs.Words.{words_of};
ghost use Rattle.world_text.specs.Next.{Gives};
ghost use Rattle.trace_text.specs.Commands.{InLimits, Run, line_in, said_by, trace_line};
ghost use Rattle.trace_text.specs.Spelled.{AcceptsLines, NamesLevels, SaysLine};

use crate::command::read_words;
use crate::fast::read_fast;
use lisp_graph::{Areas, Command, Request};
use store_word::Space;
use world_text::{Reason, split_line};

/// What a line of a trace is: a command, or the end.
#[derive(Clone, Copy, Debug, PartialEq, Eq)]
pub enum LineKind {
    Command,
    End,
}

/// What a line is, or why it is refused.
pub type LineMeaning = Result<LineKind, Reason>;

/// A line with this first word.
#[inline(never)]
#[tactic(auto, unfolding(crate::specs::Commands::line_in))]
fn line_in(
    space: &Space,
    areas: &Areas,
    head: &[u8],
    count: usize,
    text: &[u8],
    command: &mut Request,
) -> LineMeaning
    requires in_range { InLimits space.now areas.now }
    requires count { count ≡ length (words_of text.now) + 1 }
    ensures { Gives (λ kind. said_by kind command.new) result (line_in space.now areas.now head.now count (words_of text.now)) }
{
    if head == b"end".as_slice() {
        return if count == 1 {
            Ok(LineKind::End)
        } else {
            Err(Reason::WrongCount)
        };
    }
    read_words(space, areas, head, count, text, command)?;
    Ok(LineKind::Command)
}

/// Whether the whole line is one of the most frequent commands. If so, the command is written to `request`.
#[inline(always)]
fn is_frequent(line: &[u8], space: &Space, areas: &Areas, request: &mut Request) -> bool
    requires { InLimits space.now areas.now }
    ensures { result ≡ true → trace_line space.now areas.now line.now ≡ Ok (Run request.new) }
{
    match read_fast(space, areas, line, request) {
        Some(rest) => rest.is_empty(),
        None => false,
    }
}

/// What the line means in a world with this space and these areas, or why it is refused. A command is written to `request`; the
/// call allocates no memory.
#[inline(always)]
pub fn read_request(line: &[u8], space: &Space, areas: &Areas, request: &mut Request) -> LineMeaning
    requires { InLimits space.now areas.now }
    ensures value { Gives (λ kind. said_by kind request.new) result (trace_line space.now areas.now line.now) }
    ensures ok { AreNamed areas.now → IfOk result (λ kind. SaysLine space.now areas.now line.now (said_by kind request.new)) }
    ensures levels { AreNamed areas.now → IfOk result (λ kind. NamesLevels space.now.levels (said_by kind request.new)) }
{
    if is_frequent(line, space, areas, request) {
        return Ok(LineKind::Command);
    }
    let Some((head, count, rest)) = split_line(line) else {
        return Err(Reason::BadLine);
    };
    line_in(space, areas, head, count, rest, request)
}

/// The same, with the command as a value of its own, which is as large as one with the longest list.
pub fn read_command(line: &[u8], space: &Space, areas: &Areas, command: &mut Command) -> LineMeaning
    requires { InLimits space.now areas.now }
    ensures value { Gives (λ kind. said_by kind command.new) result (trace_line space.now areas.now line.now) }
    ensures ok { AreNamed areas.now → IfOk result (λ kind. SaysLine space.now areas.now line.now (said_by kind command.new)) }
    ensures levels { AreNamed areas.now → IfOk result (λ kind. NamesLevels space.now.levels (said_by kind command.new)) }
{
    let mut request = Request::new();
    let kind = read_request(line, space, areas, &mut request)?;
    *command = request.into_command();
    Ok(kind)
}

/// A line is accepted if and only if it is the spelling of what it means.
pub fn lines_are_spelled()
    ensures { (space : space_value) (areas : List AreaRule) → InLimits space areas → AreNamed areas → AcceptsLines space areas }
{}
