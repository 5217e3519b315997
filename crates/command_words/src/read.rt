//! Reading the arguments.
ghost use Rattle.std.specs.Prelude.{◌≡◌, IfOk, option_map};
ghost use Rattle.clap.specs.Words.{app_of, with_rule};
ghost use Rattle.command_words.specs.App.{lispm, named};
ghost use Rattle.command_words.specs.Given.{asked};
ghost use Rattle.command_words.specs.Words.{IsInRange, mode_of};

use crate::mode::{Mode, ModeName, exercise_mode, name_of, plain_mode, why_mode};
use clap::error::ErrorKind;
use clap::{Arg, ArgAction, Command};
use std::alloc::{AllocError, Global};
use world_text::NoMemory;

/// The command with an option of this name, which takes one value.
fn with_option<'a>(
    alloc: Global,
    command: Command<'a>,
    name: &'a str,
) -> Result<Command<'a>, AllocError>
    ensures { IfOk result (λ more. app_of more ≡ with_rule (app_of command.entry) (named name.now)) }
{
    command.arg(Arg::new(alloc, name).long(name).action(ArgAction::Set))
}

/// The command by which the arguments are parsed: one argument for the mode, which is required, and three options.
fn command<'a>(alloc: Global) -> Result<Command<'a>, AllocError>
    ensures { IfOk result (λ command. app_of command ≡ lispm) }
{
    let command = Command::new(alloc, "lispm")
        .no_binary_name(true)
        .disable_help_flag(true)
        .disable_version_flag(true)
        .arg(Arg::new(alloc, "mode").required(true))?;
    let command = with_option(alloc, command, "object")?;
    let command = with_option(alloc, command, "number")?;
    with_option(alloc, command, "count")
}

/// The mode that is requested by its name and the texts of the options, those that were given.
fn asked(
    word: Option<&str>,
    object: Option<&str>,
    number: Option<&str>,
    count: Option<&str>,
) -> Option<Mode>
    ensures { result ≡ asked (option_map (λ text. text.now) word.entry) (option_map (λ text. text.now) object.entry)
        (option_map (λ text. text.now) number.entry) (option_map (λ text. text.now) count.entry) }
{
    let name = name_of(word?.as_bytes())?;
    match (name, object, number, count) {
        (ModeName::Why, Some(object), None, None) => why_mode(object.as_bytes()),
        (ModeName::Exercise, None, Some(number), Some(count)) => {
            exercise_mode(number.as_bytes(), count.as_bytes())
        }
        (_, None, None, None) => plain_mode(name),
        _ => None,
    }
}

/// The mode that the arguments after the program's name request, or none if they are refused.
///
/// Up to a first argument `--`, the argument `--x=V`, split at its first `=`, gives the option x the value V, and the argument `--x` takes
/// the argument after it as its value, whatever that is. The first `--` is skipped. Each other argument, and each argument after that
/// `--`, names the mode. The arguments are refused if an option other than `object`, `number` and `count` is given, if an option has no
/// value or is given twice, and if the mode is missing, is given twice or is no mode. `why` takes the option `object`, and `exercise` both
/// `number` and `count`; if one of these is missing, or any other option is given, the arguments are refused. A value is a number in
/// decimal digits, without a sign or a leading zero: from 0 to 1,000,000 for `count`, and from 0 to 4,294,967,295 for the others.
/// It fails only if memory runs out.
pub fn read_words(alloc: Global, words: &[String]) -> Result<Option<Mode>, NoMemory>
    ensures value { IfOk result (λ mode. mode ≡ mode_of words.now) }
    ensures at_most { IfOk result IsInRange }
{
    let command = match command(alloc) {
        Ok(command) => command,
        Err(_) => return Err(NoMemory),
    };
    match command.try_get_matches_from(words) {
        Ok(matches) => Ok(asked(
            matches.get_str("mode"),
            matches.get_str("object"),
            matches.get_str("number"),
            matches.get_str("count"),
        )),
        Err(error) => match error.kind() {
            ErrorKind::OutOfMemory => Err(NoMemory),
            _ => Ok(None),
        },
    }
}
