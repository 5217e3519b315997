//! A run over a file.
ghost use Rattle.std.specs.Prelude.{◌≡◌, ◌≢◌, Err, IfErr};
ghost use Rattle.outer_ports.specs.Ports.{FailedLast, Rose};
ghost use Rattle.line_input.specs.declared.statuses.status.Status.TheVariants.{ReadFailed as read_failed, WriteFailed as write_failed};
ghost use Rattle.line_input.specs.declared.statuses.status.RunError.TheVariants.{Read};
ghost use Rattle.line_input.specs.Statuses.{Closed};
ghost use Rattle.file_modes.specs.declared.trouble.FileError.TheVariants.{Input};
ghost use Rattle.file_modes.specs.Outcome.{Ran, WasAnswered, outcome_status, outcome_text};

use crate::mode::text_of;
use crate::read::read_file;
use crate::trouble::{FileError, report_file_error};
use command_words::FileMode;
use line_input::Status;
use lisp_graph::Text;
use outer_ports::{Sink, Source, give_all};
use std::alloc::Global;

/// The answer to a file: the text that the mode requests, or the trouble.
fn answer<S: Source>(alloc: Global, mode: FileMode, source: &mut S) -> Result<Text, FileError>
    ensures value { WasAnswered mode (S.left source.old) (S.left source.new) result }
    ensures read { IfErr result (λ trouble. trouble ≡ Input Read → Rose (S.faults source.old) (S.faults source.new)) }
    ensures no_fault { result ≢ Err (Input Read) → S.faults source.new ≡ S.faults source.old }
{
    let world = read_file(alloc, mode, source)?;
    match text_of(alloc, mode, &world) {
        Ok(text) => Ok(text),
        Err(trouble) => Err(FileError::Input(trouble)),
    }
}

/// Writes an answer, or the error line of a trouble, and returns how the run ended.
fn write_answer<K: Sink>(sink: &mut K, answer: &Result<Text, FileError>) -> Status
    ensures written { Closed (K.stands sink.old) (K.stands sink.new) (outcome_text answer.now) (outcome_status answer.now) result }
    ensures write { result ≡ write_failed → Rose (K.faults sink.old) (K.faults sink.new) }
    ensures last { result ≡ write_failed → FailedLast (K.faults sink.old) (K.faults sink.new) (K.failed sink.new) }
    ensures no_fault { result ≢ write_failed → K.faults sink.new ≡ K.faults sink.old }
{
    match answer {
        Ok(text) => match give_all(sink, text.as_slice()) {
            Ok(()) => Status::Done,
            Err(_) => Status::WriteFailed,
        },
        Err(trouble) => report_file_error(sink, trouble),
    }
}

/// Reads a file and writes what the mode requests of its world. Nothing is written before the file is read. The status is `Done` only
/// if the file was read to its end and has a world, and everything requested was written; `Refused` or `NoSpace` if a line of it
/// or a piece of a text of S-expressions is refused, and `Refused` if that text has more than 2^40 bytes; `NoObject` if a world
/// file is accepted and has no object with the requested number; `ReadFailed`, `NoMemory` and `WriteFailed` if the source
/// failed, memory ran out or the sink failed. In a text of S-expressions quotas aren't checked: `NoSpace` means that its areas need
/// more regions than there are. The sink's count of failed calls is unchanged except at `WriteFailed`, the source's except at
/// `WriteFailed` and `ReadFailed`.
pub fn run_mode<S: Source, K: Sink>(
    alloc: Global,
    mode: FileMode,
    source: &mut S,
    sink: &mut K,
) -> Status
    ensures ran { Ran mode (S.left source.old) (S.left source.new) (K.stands sink.old) (K.stands sink.new)
        (Rose (S.faults source.old) (S.faults source.new)) result }

    // A status reports a device's failure only if the device's count of failed calls rose. Otherwise the count is unchanged.
    ensures read { result ≡ read_failed → Rose (S.faults source.old) (S.faults source.new) }
    ensures write { result ≡ write_failed → Rose (K.faults sink.old) (K.faults sink.new) }
    ensures last { result ≡ write_failed → FailedLast (K.faults sink.old) (K.faults sink.new) (K.failed sink.new) }
    ensures source_no_fault { result ≢ read_failed → result ≢ write_failed → S.faults source.new ≡ S.faults source.old }
    ensures sink_no_fault { result ≢ write_failed → K.faults sink.new ≡ K.faults sink.old }
{
    let answer = answer(alloc, mode, source);
    write_answer(sink, &answer)
}
