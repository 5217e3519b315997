//! What each mode requests of a world.
ghost use Rattle.std.specs.Prelude.{◌<◌, length, IfOk};
ghost use Rattle.world_text.specs.Limits.{IsAccepted};
ghost use Rattle.sexpr_print.specs.Spelling.{IsPrint};
ghost use Rattle.file_modes.specs.Modes.{Answers, IsFor, IsWhyText};

use crate::census_mode::census_of;
use crate::dump_mode::dumped;
use command_words::FileMode;
use line_input::RunError;
use lisp_graph::{NoMemory, Text, World};
use sexpr_print::print_sexpr;
use std::alloc::Global;
use why_held::{why, why_text};

/// Why an object of a world is held, as a text.
fn why_of(alloc: Global, world: &World, object: u64) -> Result<Text, NoMemory>
    requires accepted { IsAccepted world.now }
    requires in_range { object < length world.now.objects }
    ensures { IfOk result (IsWhyText world.now object) }
{
    let answer = why(alloc, world, object)?;
    why_text(alloc, &answer)
}

/// A world as S-expressions.
fn printed(alloc: Global, world: &World) -> Result<Text, NoMemory>
    requires { IsAccepted world.now }
    ensures { IfOk result (IsPrint world.now) }
{
    print_sexpr(alloc, world)
}

/// The text that the mode requests of a world; or the trouble: the requested object isn't one of the world's, or memory
/// ran out.
pub fn text_of(alloc: Global, mode: FileMode, world: &World) -> Result<Text, RunError>
    requires { IsFor mode world.now }
    ensures { Answers mode world.now result }
{
    let text = match mode {
        FileMode::Why { object } => {
            if u64::from(object) >= world.objects.len() {
                return Err(RunError::NoObject(object));
            }
            why_of(alloc, world, u64::from(object))
        }
        FileMode::Census => census_of(alloc, world),
        FileMode::Print => printed(alloc, world),
        FileMode::Compile => dumped(alloc, world),
    };
    match text {
        Ok(text) => Ok(text),
        Err(NoMemory) => Err(RunError::Memory),
    }
}
