//! The lines of a world file, each with its line feed. If memory runs out, a call may have added a part of what it writes.
ghost use Rattle.std.specs.Prelude.{◌≡◌, ◌≤◌, ◌++◌, [], ◌∷◌, true, take, map, OnOk};
ghost use Rattle.world_text.specs.writing.Spelling.{AreaLine, BlockLine, CapacityLine, ConsLine, FormatLine, RootLine, SpaceLine};
ghost use Rattle.world_text.specs.writing.File.{object_line, text_of};

use crate::writing::backward_line::BackwardLine;
use crate::writing::text::{
    kind_text, name_of, push_numbers, push_spaced, push_spaced_value, push_values, push_word,
};
use lisp_graph::{AreaRule, Body, Object, Text, Value};
use store_word::{NoMemory, Space};

/// The line of the format.
pub fn push_format(text: &mut Text) -> Result<(), NoMemory>
    ensures { OnOk result (text.new ≡ text.old ++ text_of [] (FormatLine true ∷ [])) }
{
    text.push_all(b"lispm-world 2\n")
}

/// The `space` line.
#[tactic(auto, using(std::proofs::Common::append_assoc))]
pub fn push_space(text: &mut Text, space: &Space) -> Result<(), NoMemory>
    ensures { OnOk result (text.new ≡ text.old ++ text_of [] (SpaceLine space.now ∷ [])) }
{
    text.push_all(b"space")?;
    push_numbers(
        text,
        &[
            space.regions,
            space.frames,
            space.registers,
            u32::from(space.levels),
            space.rate,
        ],
    )?;
    text.push_all(b"\n")
}

/// The line of an area.
#[tactic(auto, using(std::proofs::Common::append_assoc))]
fn push_area(text: &mut Text, rule: &AreaRule) -> Result<(), NoMemory>
    ensures { OnOk result (text.new ≡ text.old ++ text_of [] (AreaLine rule.now ∷ [])) }
{
    text.push_all(b"area")?;
    push_word(text, rule.name.as_bytes())?;
    push_word(text, kind_text(rule.kind))?;
    push_spaced(text, rule.quota)?;
    text.push_all(b"\n")
}

/// The lines of areas.
#[tactic(auto, using(std::proofs::Common::append_assoc))]
pub fn push_areas(text: &mut Text, areas: &[AreaRule]) -> Result<(), NoMemory>
    ensures { OnOk result (text.new ≡ text.old ++ text_of areas.now (map AreaLine areas.now)) }
{
    for rule in areas {
        push_area(text, rule)?;
    }
    Ok(())
}

/// The `capacity` line.
#[tactic(auto, using(std::proofs::Common::append_assoc))]
pub fn push_capacity(text: &mut Text, space: &Space) -> Result<(), NoMemory>
    requires { space.now.levels ≤ 6 }
    ensures { OnOk result (text.new ≡ text.old ++ text_of [] (CapacityLine (take space.now.levels space.now.capacity) ∷ [])) }
{
    text.push_all(b"capacity")?;
    push_numbers(text, &space.capacity[..usize::from(space.levels)])?;
    text.push_all(b"\n")
}

/// The line of a cons.
#[tactic(auto, using(std::proofs::Common::append_assoc))]
pub fn push_cons(
    text: &mut Text,
    areas: &[AreaRule],
    area: u8,
    car: Value,
    cdr: Value,
) -> Result<(), NoMemory>
    ensures { OnOk result (text.new ≡ text.old ++ text_of areas.now (ConsLine area car cdr ∷ [])) }
{
    let mut line = BackwardLine::new();
    line.push_byte(b'\n');
    line.push_value(cdr);
    line.push_byte(b' ');
    line.push_value(car);
    line.push_byte(b' ');
    line.push_text(name_of(areas, area));
    line.push_text(b"cons ");
    text.push_all(line.as_bytes())
}

/// The line of a block.
#[tactic(auto, using(std::proofs::Common::append_assoc))]
fn push_block(
    text: &mut Text,
    areas: &[AreaRule],
    area: u8,
    code: u16,
    fields: &[Value],
) -> Result<(), NoMemory>
    ensures { OnOk result (text.new ≡ text.old ++ text_of areas.now (BlockLine area code fields.now ∷ [])) }
{
    text.push_all(b"block ")?;
    text.push_all(name_of(areas, area))?;
    push_spaced(text, u32::from(code))?;
    push_values(text, fields)?;
    text.push_all(b"\n")
}

/// The line of one object.
pub fn push_object(text: &mut Text, areas: &[AreaRule], object: &Object) -> Result<(), NoMemory>
    ensures { OnOk result (text.new ≡ text.old ++ text_of areas.now (object_line object.now.area object.now.body ∷ [])) }
{
    match &object.body {
        Body::Cons { car, cdr } => push_cons(text, areas, object.area, *car, *cdr),
        Body::Block { code, fields } => {
            push_block(text, areas, object.area, *code, fields.as_slice())
        }
    }
}

/// The line of a register.
#[tactic(auto, using(std::proofs::Common::append_assoc))]
pub fn push_root(text: &mut Text, register: u32, value: Value) -> Result<(), NoMemory>
    ensures { OnOk result (text.new ≡ text.old ++ text_of [] (RootLine register value ∷ [])) }
{
    text.push_all(b"root")?;
    push_spaced(text, register)?;
    push_spaced_value(text, value)?;
    text.push_all(b"\n")
}
