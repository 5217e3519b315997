//! Judging one line.
ghost use Rattle.std.specs.Prelude.{◌≡◌, ◌++◌, [], ◌∷◌, Ok, None, OnOk, ⊤};
ghost use Rattle.world_text.specs.Line.{line_at};
ghost use Rattle.line_input.specs.Verdict.{Judged};
ghost use Rattle.band_run.specs.Lines.{band_line};
ghost use Rattle.band_run.specs.Verdict.{band_rules, command_next, file_next, line_in, with_command};

use crate::reading::command::{BandCommand, Commands};
use crate::reading::input::{BandFile, BandInput};
use crate::reading::line::{BandLine, read_line};
use line_input::{LineJudge, RunError, world_trouble};
use lisp_graph::{NoMemory, Text};
use std::alloc::Global;
use world_text::Reason;

/// Adds a command.
fn push(input: &mut BandInput, command: BandCommand) -> Result<(), RunError>
    ensures { Judged input.new result (Ok (with_command input.old command)) }
{
    match input.commands.push(command) {
        Ok(()) => Ok(()),
        Err(NoMemory) => Err(RunError::Memory),
    }
}

/// Appends a line and its line feed.
#[tactic(auto, using(std::proofs::Common::append_assoc))]
fn push_line(text: &mut Text, line: &[u8]) -> Result<(), NoMemory>
    ensures { OnOk result (text.new ≡ text.old ++ (line.now ++ 10 ∷ [])) }
{
    text.push_all(line)?;
    text.push(b'\n')
}

/// Judges a line that isn't part of a file.
fn command_line(
    input: &mut BandInput,
    alloc: Global,
    number: u64,
    text: &[u8],
) -> Result<(), RunError>
    ensures { Judged input.new result (command_next number input.old (band_line text.now)) }
{
    match read_line(text) {
        Ok(BandLine::Open) => push(input, BandCommand::Open),
        Ok(BandLine::Save(name)) => {
            input.file = Some(BandFile::new(alloc, name));
            Ok(())
        }
        Ok(BandLine::Load(name)) => push(input, BandCommand::Load { name }),
        Ok(BandLine::List) => push(input, BandCommand::List),
        Ok(BandLine::End) => {
            input.ended = true;
            Ok(())
        }
        Err(reason) => Err(RunError::Line(number, reason)),
    }
}

/// Judges a line of a file to save.
fn file_line(
    input: &mut BandInput,
    file: BandFile,
    number: u64,
    text: &[u8],
) -> Result<(), RunError>
    requires { input.old.file ≡ None }
    ensures { Judged input.new result (file_next number input.old file text.now (line_at file.builder text.now)) }
{
    let mut file = file;
    match file.builder.line(text) {
        Ok(_) => {}
        Err(fault) => {
            let areas = file.builder.world().areas.as_slice();
            return Err(world_trouble(number, areas, fault));
        }
    }
    match push_line(&mut file.text, text) {
        Ok(()) => {}
        Err(NoMemory) => return Err(RunError::Memory),
    }
    if file.builder.is_closed() {
        return push(
            input,
            BandCommand::Save {
                name: file.name,
                text: file.text,
            },
        );
    }
    input.file = Some(file);
    Ok(())
}

/// Judges a text as the next line.
fn line_in(input: &mut BandInput, alloc: Global, number: u64, text: &[u8]) -> Result<(), RunError>
    ensures { Judged input.new result (line_in number input.old input.old.file text.now) }
{
    match input.file.take() {
        Some(file) => file_line(input, file, number, text),
        None => command_line(input, alloc, number, text),
    }
}

impl LineJudge for BandInput {
    type Whole = Commands;

    ghost rules = { band_rules };

    ghost fits = { λ _. ⊤ };

    fn is_whole(&self) -> bool {
        self.ended
    }

    fn line(&mut self, alloc: Global, number: u64, text: &[u8]) -> Result<(), RunError> {
        line_in(self, alloc, number, text)
    }

    fn whole(self) -> Commands {
        self.commands
    }

    fn empty() -> Reason {
        Reason::BadLine
    }
}
