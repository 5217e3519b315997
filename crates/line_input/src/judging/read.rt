//! Reading an input line by line.
ghost use Rattle.std.specs.Prelude.{◌≡◌, ◌≢◌, ◌≤◌, [], false, Err, IfErr, IfOk};
ghost use Rattle.outer_ports.specs.Ports.{Rose};
ghost use Rattle.line_input.specs.declared.statuses.status.RunError.TheVariants.{Read};
ghost use Rattle.line_input.specs.Verdict.{WasRead};

use crate::judging::input::InputReader;
use crate::judging::judge::LineJudge;
use crate::lines::LineReader;
use crate::statuses::RunError;
use outer_ports::Source;
use std::alloc::Global;

/// Judges one line after another, up to the end of the input or the first trouble.
fn judge_lines<J: LineJudge + Drop, S: Source>(
    alloc: Global,
    judge: J,
    reader: &mut LineReader,
    source: &mut S,
) -> Result<J::Whole, RunError>
    requires bytes { reader.old.bytes ≡ [] }
    requires ended { reader.old.ended ≡ false }
    ensures judged { WasRead J.rules judge (S.left source.old) (S.left source.new) result }
    ensures read { IfErr result (λ trouble. trouble ≡ Read → Rose (S.faults source.old) (S.faults source.new)) }
    ensures fits { IfOk result J.fits }
    ensures never_falls { S.faults source.old ≤ S.faults source.new }
    ensures no_fault { result ≢ Err Read → S.faults source.new ≡ S.faults source.old }
{
    let mut place = InputReader::start(judge);
    loop {
        let found = match reader.next(source, place.enough()) {
            Ok(Some(found)) => found,
            Ok(None) => return place.close(),
            Err(_) => return Err(RunError::Read),
        };
        let text = &reader.bytes()[..found.length];
        match place.line(alloc, text, found.size) {
            Ok(()) => {}
            Err(trouble) => return Err(trouble),
        }
        reader.pass(found.size);
    }
}

/// Reads an input through one buffer of 32,769 bytes, up to its end or its first bad line, and returns what its lines mean. The
/// trouble is that of the first line that breaks a rule; or the source failed, or memory ran out.
pub fn read_lines<J: LineJudge + Drop, S: Source>(
    alloc: Global,
    judge: J,
    source: &mut S,
) -> Result<J::Whole, RunError>
    ensures judged { WasRead J.rules judge (S.left source.old) (S.left source.new) result }
    ensures read { IfErr result (λ trouble. trouble ≡ Read → Rose (S.faults source.old) (S.faults source.new)) }
    ensures fits { IfOk result J.fits }
    ensures never_falls { S.faults source.old ≤ S.faults source.new }
    ensures no_fault { result ≢ Err Read → S.faults source.new ≡ S.faults source.old }
{
    let mut reader = match LineReader::new(alloc) {
        Ok(reader) => reader,
        Err(_) => return Err(RunError::Memory),
    };
    judge_lines(alloc, judge, &mut reader, source)
}
