//! The header of a text.
ghost use Rattle.std.specs.Prelude.{◌≡◌, ◌+◌, ◌-◌, ◌<◌, ◌≤◌, ◌^◌, length, position, IfOk, IfSome, Ok};
ghost use Rattle.world_text.specs.Limits.{has_objects};
ghost use Rattle.sexpr_text.specs.Pieces.{is_feed};
ghost use Rattle.sexpr_text.specs.Reading.{MayGive};
ghost use Rattle.sexpr_text.specs.Heads.{IsHead, head_of};
ghost use Rattle.sexpr_text.specs.Meaning.{behind_line, first_line, header, header_fault, header_line, second_place};

use crate::pieces::is_feed;
use crate::{Parsed, SexprFault, SexprReason};
use lisp_graph::World;
use std::alloc::Global;
use world_text::{Reason, Section, WorldBuilder, WorldFault};

/// The first line of a text, and the text after it.
pub fn split_feed(text: &[u8]) -> (&[u8], &[u8])
    ensures after { result.0.now ≡ first_line text.now }
    ensures unchanged { result.1.now ≡ behind_line text.now }
    ensures left { 0 < length text.now → length result.1.now < length text.now }
{
    match first_feed(text) {
        Some(feed) => (&text[..feed], &text[feed + 1..]),
        None => (text, &[]),
    }
}

fn first_feed(text: &[u8]) -> Option<usize>
    ensures value { result ≡ position is_feed text.now }
    ensures in_range { IfSome result (λ place. place < length text.now) }
{
    text.iter().position(|byte| is_feed(*byte))
}

/// The refusal of a line of the header. No such line makes objects, so none is refused for a quota.
fn header_fault(line: u64, fault: WorldFault) -> SexprFault
    ensures { result ≡ header_fault line fault }
{
    match fault {
        WorldFault::Bad(reason) => SexprFault::Bad {
            line,
            reason: SexprReason::Header(reason),
        },
        WorldFault::TooSmall => SexprFault::TooSmall { line },
        WorldFault::Exhausted { .. } | WorldFault::NoMemory => SexprFault::NoMemory,
    }
}

/// Takes a line of the header, which has at most 32,768 bytes.
fn header_line(builder: &mut WorldBuilder, line: u64, text: &[u8]) -> Parsed
    ensures { MayGive (λ _. builder.new) result (header_line builder.old line text.now) }
{
    if text.len() > 32_768 {
        return Err(SexprFault::Bad {
            line,
            reason: SexprReason::Header(Reason::LineTooLong),
        });
    }
    match builder.line(text) {
        Ok(_) => Ok(()),
        Err(fault) => Err(header_fault(line, fault)),
    }
}

/// What a header means, and the text after it.
#[derive(Drop)]
pub struct Header<'a> {
    pub world: World,
    /// The line in which the text after the header begins.
    pub line: u64,
    pub rest: &'a [u8],
}

/// A builder that has taken the first line, and takes the further lines of a world file of format 2.
fn second_builder(alloc: Global) -> Result<WorldBuilder, SexprFault>
    ensures { MayGive (λ x. x) result (Ok second_place) }
{
    let mut builder = WorldBuilder::for_file(alloc);
    match builder.line(b"lispm-world 2") {
        Ok(_) => Ok(builder),
        Err(fault) => Err(header_fault(1, fault)),
    }
}

fn has_objects(part: Section) -> bool
    ensures { result ≡ has_objects part }
{
    matches!(part, Section::Objects | Section::Roots | Section::Closed)
}

/// Reads the lines of a header after its first one, up to the `capacity` line.
pub fn read_header(alloc: Global, text: &[u8]) -> Result<Header, SexprFault>
    requires { length text.now < 2 ^ 62 }
    ensures value { MayGive head_of result (header (length text.now) second_place 2 text.now) }
    ensures unchanged { IfOk result (λ head. IsHead head.world) }
    ensures at_most { IfOk result (λ head. head.line + length head.rest.now ≤ 2 + length text.now) }
{
    let mut builder = second_builder(alloc)?;
    let mut line = 2u64;
    let mut rest = text;
    while !rest.is_empty() {
        let (first, behind) = split_feed(rest);
        header_line(&mut builder, line, first)?;
        line += 1;
        rest = behind;
        if has_objects(builder.part()) {
            return Ok(Header {
                world: builder.so_far(),
                line,
                rest,
            });
        }
    }
    Err(SexprFault::Bad {
        line,
        reason: SexprReason::NoEnd,
    })
}
