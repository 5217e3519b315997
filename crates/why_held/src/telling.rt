//! The text that says why an object is held.
ghost use Rattle.std.specs.Prelude.{◌≡◌, ◌++◌, OnOk, IfOk};
ghost use Rattle.why_held.specs.WhyText.{held_text, hop_line, hop_lines, level_line, level_lines, part_text, why_text};

use crate::chain::{Depths, Held, Hop, Part, Why};
use lisp_graph::{NoMemory, Text};
use std::alloc::Global;
use world_text::{BackwardLine, push_number, push_spaced};

/// How a part is written.
#[tactic(auto, using(std::proofs::Common::append_assoc))]
fn push_part(text: &mut Text, part: Part) -> Result<(), NoMemory>
    ensures { OnOk result (text.new ≡ text.old ++ part_text part) }
{
    match part {
        Part::Root(register) => {
            text.push_all(b"root")?;
            push_spaced(text, u32::from(register))
        }
        Part::Car => text.push_all(b"car"),
        Part::Cdr => text.push_all(b"cdr"),
        Part::Field(index) => {
            text.push_all(b"field")?;
            push_spaced(text, index)
        }
    }
}

/// The line of a reference.
#[tactic(auto, using(std::proofs::Common::append_assoc))]
fn push_hop(text: &mut Text, hop: Hop) -> Result<(), NoMemory>
    ensures { OnOk result (text.new ≡ text.old ++ hop_line hop) }
{
    push_part(text, hop.part)?;
    text.push_all(b" #")?;
    push_number(text, hop.to)?;
    text.push_all(b"\n")
}

/// The lines of references.
#[tactic(auto, using(std::proofs::Common::append_assoc))]
fn push_hops(text: &mut Text, hops: &[Hop]) -> Result<(), NoMemory>
    ensures { OnOk result (text.new ≡ text.old ++ hop_lines hops.now) }
{
    for hop in hops {
        push_hop(text, *hop)?;
    }
    Ok(())
}

/// The lines of a chain, or `free`.
#[tactic(auto, using(std::proofs::Common::append_assoc))]
fn push_held(text: &mut Text, held: &Held) -> Result<(), NoMemory>
    ensures { OnOk result (text.new ≡ text.old ++ held_text held.now) }
{
    match held {
        Held::Free => text.push_all(b"free\n"),
        Held::Path(hops) => {
            text.push_all(b"held ")?;
            push_number(text, hops.len().saturating_sub(1))?;
            text.push_all(b"\n")?;
            push_hops(text, hops.as_slice())
        }
    }
}

/// The line of an object with this depth.
#[tactic(auto, using(std::proofs::Common::append_assoc))]
fn push_level(text: &mut Text, object: u32, depth: Option<u32>) -> Result<(), NoMemory>
    ensures { OnOk result (text.new ≡ text.old ++ level_line object depth) }
{
    match depth {
        None => Ok(()),
        Some(depth) => {
            let mut line = BackwardLine::new();
            line.push_byte(b'\n');
            line.push_number(u64::from(depth));
            line.push_byte(b' ');
            line.push_number(u64::from(object));
            line.push_text(b"level ");
            text.push_all(line.as_bytes())
        }
    }
}

/// A line for each object that has a depth.
#[tactic(auto, using(std::proofs::Common::append_assoc))]
fn push_levels(text: &mut Text, depths: &Depths) -> Result<(), NoMemory>
    ensures { OnOk result (text.new ≡ text.old ++ level_lines 0 depths.now) }
{
    let mut object = 0;
    while object < depths.len() {
        push_level(text, object as u32, depths.get(object))?;
        object += 1;
    }
    Ok(())
}

/// The text of an answer: whether the object is held, and by which chain; the depths of the objects that have one; and a last
/// line. It fails only if memory runs out.
#[tactic(auto, using(std::proofs::Common::append_assoc))]
pub fn why_text(alloc: Global, why: &Why) -> Result<Text, NoMemory>
    ensures { IfOk result (λ text. text ≡ why_text why.now) }
{
    let mut text = Text::new(alloc);
    push_held(&mut text, &why.held)?;
    push_levels(&mut text, &why.depths)?;
    text.push_all(b"end-why\n")?;
    Ok(text)
}
