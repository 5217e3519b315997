//! Reading a file as its mode requires.
ghost use Rattle.std.specs.Prelude.{◌≡◌, ◌≢◌, ◌≤◌, [], false, length, take, None, Ok, Err, IfErr, IfOk, IfSome};
ghost use Rattle.outer_ports.specs.Ports.{Rose};
ghost use Rattle.line_input.specs.declared.statuses.status.RunError.TheVariants.{Read};
ghost use Rattle.line_input.specs.Reader.{IsWholeLine};
ghost use Rattle.line_input.specs.Verdict.{IsPlace, judged_as};
ghost use Rattle.line_input.specs.Verdict as lines;
ghost use Rattle.line_input.specs.WorldFile.{file_rules, start};
ghost use Rattle.world_text.specs.Limits.{IsAccepted};
ghost use Rattle.file_modes.specs.declared.trouble.FileError.TheVariants.{Input};
ghost use Rattle.file_modes.specs.Modes.{IsFor};
ghost use Rattle.file_modes.specs.Reading.{WasRead};

use crate::FileError;
use crate::sexpr::read_sexpr;
use command_words::FileMode;
use line_input::{InputReader, LineReader, LineSpan, RunError, WorldFile};
use lisp_graph::World;
use outer_ports::Source;
use std::alloc::Global;

/// Goes past the next line, if it is `cons AREA V V`, its line feed is buffered, and it is accepted. Otherwise the place is unchanged.
#[inline(always)]
fn buffered_cons(place: &mut InputReader<WorldFile>, reader: &LineReader) -> Option<LineSpan>
    requires { IsPlace place.old }
    ensures found { IfSome result (IsWholeLine reader.now) }
    ensures at_most { IfSome result (λ _. length reader.now.bytes ≤ 32769) }
    ensures judged { IfSome result (λ found. judged_as file_rules place.old (take found.length reader.now.bytes) found.size ≡ Ok place.new) }
    ensures stays_sound { IsPlace place.new }
    ensures none { result ≡ None → place.new ≡ place.old }
{
    if !place.has_room_for_a_line() {
        return None;
    }
    let length = place.judge.builder.cons_before_feed(reader.bytes())?;
    place.advance(length + 1);
    Some(LineSpan {
        length,
        size: length + 1,
    })
}

/// Judges one line after another, up to the end of the file or the first trouble. Most lines are conses, and are judged where they are buffered.
fn judge_world<S: Source>(
    alloc: Global,
    reader: &mut LineReader,
    source: &mut S,
) -> Result<World, RunError>
    requires bytes { reader.old.bytes ≡ [] }
    requires ended { reader.old.ended ≡ false }
    ensures judged { lines.WasRead file_rules start (S.left source.old) (S.left source.new) result }
    ensures read { IfErr result (λ trouble. trouble ≡ Read → Rose (S.faults source.old) (S.faults source.new)) }
    ensures fits { IfOk result IsAccepted }
    ensures never_falls { S.faults source.old ≤ S.faults source.new }
    ensures no_fault { result ≢ Err Read → S.faults source.new ≡ S.faults source.old }
{
    let mut place = InputReader::start(WorldFile::start(alloc));
    loop {
        if let Some(cons) = buffered_cons(&mut place, reader) {
            reader.pass(cons.size);
            continue;
        }
        let found = match reader.next(source, place.enough()) {
            Ok(Some(found)) => found,
            Ok(None) => return place.close(),
            Err(_) => return Err(RunError::Read),
        };
        let text = &reader.bytes()[..found.length];
        match place.line(alloc, text, found.size) {
            Ok(()) => {}
            Err(trouble) => return Err(trouble),
        }
        reader.pass(found.size);
    }
}

/// The world of a world file, which is read through one buffer of 32,769 bytes up to its end or its first bad line. The trouble is that of
/// the first line that breaks a rule; or the source failed, or memory ran out.
pub fn read_world<S: Source>(alloc: Global, source: &mut S) -> Result<World, RunError>
    ensures judged { lines.WasRead file_rules start (S.left source.old) (S.left source.new) result }
    ensures read { IfErr result (λ trouble. trouble ≡ Read → Rose (S.faults source.old) (S.faults source.new)) }
    ensures no_fault { result ≢ Err Read → S.faults source.new ≡ S.faults source.old }
    ensures accepted { IfOk result IsAccepted }
    ensures never_falls { S.faults source.old ≤ S.faults source.new }
{
    let mut reader = match LineReader::new(alloc) {
        Ok(reader) => reader,
        Err(_) => return Err(RunError::Memory),
    };
    judge_world(alloc, &mut reader, source)
}

/// The world of a file: for `Compile` of a text of S-expressions, for the other modes of a world file.
pub fn read_file<S: Source>(
    alloc: Global,
    mode: FileMode,
    source: &mut S,
) -> Result<World, FileError>
    ensures judged { WasRead mode (S.left source.old) (S.left source.new) result }
    ensures read { IfErr result (λ trouble. trouble ≡ Input Read → Rose (S.faults source.old) (S.faults source.new)) }
    ensures no_fault { result ≢ Err (Input Read) → S.faults source.new ≡ S.faults source.old }
    ensures fits { IfOk result (IsFor mode) }
{
    match mode {
        FileMode::Compile => read_sexpr(alloc, source),
        _ => match read_world(alloc, source) {
            Ok(world) => Ok(world),
            Err(trouble) => Err(FileError::Input(trouble)),
        },
    }
}
