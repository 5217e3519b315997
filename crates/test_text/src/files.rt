//! Worlds of the lines of their files.
ghost use Rattle.std.specs.Prelude.{◌≡◌, true, IfOk};
ghost use Rattle.world_text.specs.Reader.{is_closed};
ghost use Rattle.world_text.specs.Limits.{IsAccepted};

use lisp_graph::World;
use std::alloc::Global;
use std::test::Fail;
use world_text::WorldBuilder;

/// Whether each line is taken, and the last one ends the world.
fn takes(builder: &mut WorldBuilder, file: &str) -> bool
    ensures { result ≡ true → is_closed builder.new.part ≡ true }
{
    for line in file.split('\n') {
        if builder.line(line.as_bytes()).is_err() {
            return false;
        }
    }
    builder.is_closed()
}

/// The world of a file's lines, the last of which is `end-world`.
pub fn world_of(alloc: Global, file: &str) -> Result<World, Fail>
    ensures { IfOk result IsAccepted }
{
    let mut builder = WorldBuilder::for_file(alloc);
    if takes(&mut builder, file) {
        Ok(builder.finish())
    } else {
        Err(Fail::from("refused"))
    }
}
