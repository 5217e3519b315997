//! Reading whole texts.
ghost use Rattle.std.specs.Prelude.{◌≡◌, ◌+◌, ◌<◌, ◌≤◌, ◌^◌, length, Ok};
ghost use Rattle.sexpr_text.specs.Reading.{MayGive};
ghost use Rattle.sexpr_text.specs.Meaning.{graph_behind, line_of_byte, meaning, meaning_within, said_behind};

use crate::forms::Forms;
use crate::header::{read_header, split_feed};
use crate::pieces::is_feed;
use crate::roots::{Registers, roots};
use crate::{SexprFault, SexprReason};
use lisp_graph::{Areas, Fields, Objects, World};
use std::alloc::Global;
use world_text::Reason;

/// The objects and the roots of a text after its header; that text begins in this line.
#[tactic(auto, unfolding(crate::specs::Meaning::graph_behind))]
fn graph_behind(
    alloc: Global,
    areas: &Areas,
    registers: u32,
    line: u64,
    text: &[u8],
) -> Result<(Objects, Fields), SexprFault>
    requires at_most { length areas.now ≤ 16 }
    requires registers { registers ≤ 256 }
    requires in_range { line + length text.now < 2 ^ 63 }
    ensures { MayGive (λ x. x) result (graph_behind areas.now registers line text.now) }
{
    let mut registers = Registers::new(alloc, registers)?;
    let mut forms = Forms::new(alloc, areas, line, text);
    roots(&mut forms, &mut registers)?;
    Ok((forms.objects, registers.roots))
}

/// The world of a text, from the text after its first line.
#[tactic(auto, unfolding(crate::specs::Meaning::said_behind))]
fn said_behind(alloc: Global, text: &[u8]) -> Result<World, SexprFault>
    requires { length text.now < 2 ^ 62 }
    ensures value { MayGive (λ x. x) result (said_behind text.now) }
{
    let head = read_header(alloc, text)?;
    let (objects, roots) = graph_behind(
        alloc,
        &head.world.areas,
        head.world.space.registers,
        head.line,
        head.rest,
    )?;
    Ok(World {
        space: head.world.space,
        areas: head.world.areas,
        objects,
        roots,
    })
}

/// The line of the byte with this index, which the text has.
fn line_of_byte(index: usize, text: &[u8]) -> u64
    requires { index < length text.now }
    ensures { result ≡ line_of_byte index text.now }
{
    let feeds = text[..index].iter().filter(|byte| is_feed(**byte)).count();
    1 + feeds as u64
}

/// The world that a text of at most `limit` bytes means.
fn compile_within(alloc: Global, limit: usize, text: &[u8]) -> Result<World, SexprFault>
    requires { limit ≤ 2 ^ 40 }
    ensures value { MayGive (λ x. x) result (meaning_within limit text.now) }
{
    if text.len() > limit {
        return Err(SexprFault::Bad {
            line: line_of_byte(limit, text),
            reason: SexprReason::InputTooLong,
        });
    }
    let (first, behind) = split_feed(text);
    let reason = if first.len() > 32_768 {
        Reason::LineTooLong
    } else if first != b"sexpr-world 1".as_slice() {
        Reason::NotAWorld
    } else {
        return said_behind(alloc, behind);
    };
    Err(SexprFault::Bad {
        line: 1,
        reason: SexprReason::Header(reason),
    })
}

/// The world that a text means, or why it means none: it has more than 2^40 bytes; or else the first line of its header that
/// breaks a rule; or else the first piece after the header that can't continue a text. It also fails if memory runs out. Quotas
/// aren't tested. The text may be nested as deep as memory allows.
pub fn compile_sexpr(alloc: Global, text: &[u8]) -> Result<World, SexprFault>
    ensures value { MayGive (λ x. x) result (meaning text.now) }
{
    compile_within(alloc, 1 << 40, text)
}
