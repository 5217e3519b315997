//! A law on the generated input.
ghost use Rattle.trace_text.specs.MadeWorld.{MadeLinesAreCommands};

/// Each generated line after `trace` means a command of the generated world, except the last two, which are `stats` and `end`.
pub fn made_lines_are_commands()
    ensures { MadeLinesAreCommands }
{}
