//! Worlds and commands, as they are written.
ghost use Rattle.std.specs.Prelude.{IfOk};
ghost use Rattle.world_text.specs.Limits.{IsAccepted};

use lisp_graph::{Command, World};
use std::alloc::Global;
use std::test::Fail;
use trace_text::{LineKind, read_command};
use world_text::WorldBuilder;

/// The world of these lines, after which a trace begins.
pub(crate) fn read_world(alloc: Global, lines: &str) -> Result<World, Fail>
    ensures { IfOk result IsAccepted }
{
    let mut builder = WorldBuilder::new(alloc);
    for line in lines.lines() {
        if builder.line(line.as_bytes()).is_err() {
            return Err("refused".into());
        }
    }
    if builder.line(b"trace").is_err() {
        return Err("refused".into());
    }
    if builder.is_closed() {
        Ok(builder.finish())
    } else {
        Err("not closed".into())
    }
}

/// The command of a line.
fn read_line(world: &World, line: &str) -> Result<Command, Fail>
    requires { IsAccepted world.now }
{
    let mut command = Command::Stats;
    match read_command(line.as_bytes(), &world.space, &world.areas, &mut command) {
        Ok(LineKind::Command) => Ok(command),
        _ => Err("no command".into()),
    }
}

/// The commands of these lines.
pub(crate) fn read_commands(alloc: Global, world: &World, lines: &str) -> Result<Vec<Command>, Fail>
    requires { IsAccepted world.now }
{
    let mut commands = Vec::new(alloc);
    for line in lines.lines() {
        commands.push(read_line(world, line)?)?;
    }
    Ok(commands)
}
