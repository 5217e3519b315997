//! The top call.
ghost use Rattle.std.specs.Prelude.{◌≡◌, ◌≢◌, ◌⊎◌, ℕ, List, [], Some, Ok};
ghost use Rattle.outer_ports.specs.Ports.{FailedLast, Rose};
ghost use Rattle.line_input.specs.Statuses.{Closed, code, trouble_line};
ghost use Rattle.band_run.specs.declared.reading.command.BandCommand.{BandCommand};
ghost use Rattle.band_run.specs.Verdict.{verdict};
ghost use Rattle.band_run.specs.Answers.{Answers};
ghost use Rattle.band_run.specs.Outcome.{Ran};

use crate::input::answer_input;
use band_store::BandDisk;
use line_input::{RunError, Status, report};
use outer_ports::{Sink, Source};
use std::alloc::Global;

/// Everything that a program over saved bands does. `words` are the program's arguments. It takes none: if there is one it
/// returns 7 and writes the line `error: usage`, or returns 1 if the sink fails in that.
///
/// Otherwise the whole input is read and judged, and only then are its commands run, on a store that is closed at first. It returns 0
/// if all of them were answered, 1 if the sink failed, 2 or 4 if a line is refused, 3 if the source failed, and 5
/// if memory ran out; the replies to the commands before were written then. A disk that fails has no status: a command in which it
/// fails is answered `fault`.
pub fn run_bands<S: Source, K: Sink, D: BandDisk>(
    alloc: Global,
    words: &[String],
    source: &mut S,
    sink: &mut K,
    disk: &mut D,
) -> u8
    // For an input, the run is as its status says, and the replies are those of one run of its commands.
    ensures ran { words.now ≡ [] → ((status : Status) × (result ≡ code status)
        × Ran (S.left source.old) (S.left source.new) (K.stands sink.old) (K.stands sink.new)
        (Answers D.bytes D.space D.images D.clock D.images_since D.faults D.changes disk.old disk.new)
        (Rose (S.faults source.old) (S.faults source.new)) status) }

    // If there is an argument, no byte is taken, and the disk is unchanged.
    ensures usage { words.now ≢ [] → ((status : Status) × (result ≡ code status)
        × Closed (K.stands sink.old) (K.stands sink.new) (trouble_line RunError.Usage) Status.Usage status) }
    ensures only { result ≡ 7 → words.now ≢ [] }
    ensures untaken { words.now ≢ [] → source.new ≡ source.old }
    ensures unchanged { words.now ≢ [] → disk.new ≡ disk.old }

    // The disk is also unchanged if the input is refused or wasn't read.
    ensures unopened { (result ≡ 2) ⊎ (result ≡ 3) ⊎ (result ≡ 4) → disk.new ≡ disk.old }

    // A device's failure is reported only if its count of failed calls rose.
    ensures read { result ≡ 3 → Rose (S.faults source.old) (S.faults source.new) }
    ensures write { result ≡ 1 → Rose (K.faults sink.old) (K.faults sink.new) }

    // If the sink failed, exactly one of its calls did, and that was the latest, so nothing was written after it.
    ensures last { result ≡ 1 → FailedLast (K.faults sink.old) (K.faults sink.new) (K.failed sink.new) }

    // Otherwise the count is unchanged. If the sink fails, the source may have failed before it.
    ensures source_no_fault { result ≢ 3 → result ≢ 1 → S.faults source.new ≡ S.faults source.old }
    ensures sink_no_fault { result ≢ 1 → K.faults sink.new ≡ K.faults sink.old }

    // An input that keeps the rules is answered, unless a device fails or memory runs out.
    ensures accepted { words.now ≡ [] → (i : List ℕ) (commands : List BandCommand) → S.left source.old ≡ Some i → verdict i ≡ Ok commands
        → (Rose (S.faults source.old) (S.faults source.new) → ⊥) → (Rose (K.faults sink.old) (K.faults sink.new) → ⊥) → (result ≡ 0) ⊎ (result ≡ 5) }
{
    if !words.is_empty() {
        return report(sink, &RunError::Usage).code();
    }
    answer_input(alloc, source, sink, disk).code()
}
