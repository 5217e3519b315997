//! Reading an input line by line.
ghost use Rattle.std.specs.Prelude.{◌≡◌, ◌≢◌, ◌≤◌, Err, IfErr};
ghost use Rattle.outer_ports.specs.Ports.{Rose};
ghost use Rattle.line_input.specs.declared.statuses.status.RunError.TheVariants.{Read};
ghost use Rattle.line_input.specs.Verdict.{WasRead};
ghost use Rattle.band_run.specs.Verdict.{band_rules, start};

use crate::reading::command::Commands;
use crate::reading::input::BandInput;
use line_input::{RunError, read_lines};
use outer_ports::Source;
use std::alloc::Global;

/// The commands of an input, which is read through one buffer of 32,769 bytes up to its end or its first bad line. All of it is
/// read before any command is answered. The trouble is that of the first line that breaks a rule; or the source failed, or memory
/// ran out.
pub fn read_bands<S: Source>(alloc: Global, source: &mut S) -> Result<Commands, RunError>
    ensures judged { WasRead band_rules start (S.left source.old) (S.left source.new) result }
    ensures read { IfErr result (λ trouble. trouble ≡ Read → Rose (S.faults source.old) (S.faults source.new)) }
    ensures never_falls { S.faults source.old ≤ S.faults source.new }
    ensures no_fault { result ≢ Err Read → S.faults source.new ≡ S.faults source.old }
{
    read_lines(alloc, BandInput::start(alloc), source)
}
