//! The lines of a world file before and after the objects.
ghost use Rattle.std.specs.Prelude.{◌≡◌, ◌<◌, ◌≤◌, ◌^◌, ◌++◌, [], ◌∷◌, length, true, IfOk, OnOk};
ghost use Rattle.world_text.specs.writing.File.{head_lines, root_lines_of, text_of};
ghost use Rattle.world_text.specs.writing.Spelling.{ClosingLine};

use crate::writing::file_lines::{push_areas, push_capacity, push_format, push_root, push_space};
use crate::writing::groups::is_nil;
use lisp_graph::{AreaRule, Text, Value};
use std::alloc::Global;
use store_word::{NoMemory, Space};

/// The text of the lines before the objects, in format 2.
#[tactic(auto, using(std::proofs::Common::append_assoc, crate::proofs::writing_laws::FileLaws::text_append))]
pub fn head_text(alloc: Global, space: &Space, areas: &[AreaRule]) -> Result<Text, NoMemory>
    requires { space.now.levels ≤ 6 }
    ensures { IfOk result (λ text. text ≡ text_of areas.now (head_lines space.now areas.now)) }
{
    let mut text = Text::new(alloc);
    push_format(&mut text)?;
    push_space(&mut text, space)?;
    push_areas(&mut text, areas)?;
    push_capacity(&mut text, space)?;
    Ok(text)
}

/// A line for each register that isn't nil.
#[tactic(auto, using(std::proofs::Common::append_assoc))]
fn push_roots(text: &mut Text, roots: &[Value]) -> Result<(), NoMemory>
    requires { length roots.now < 2 ^ 32 }
    ensures { OnOk result (text.new ≡ text.old ++ text_of [] (root_lines_of 0 roots.now)) }
{
    let mut register = 0;
    while register < roots.len() {
        let value = roots[register];
        if !is_nil(value) {
            push_root(text, register as u32, value)?;
        }
        register += 1;
    }
    Ok(())
}

/// The lines after the objects: those of the registers, and the last one.
pub fn push_end(text: &mut Text, roots: &[Value]) -> Result<(), NoMemory>
    requires { length roots.now < 2 ^ 32 }
    ensures { OnOk result (text.new ≡ text.old ++ text_of [] (root_lines_of 0 roots.now ++ ClosingLine true ∷ [])) }
{
    push_roots(text, roots)?;
    text.push_all(b"end-world\n")
}
