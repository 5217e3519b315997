//! Reading a text of S-expressions.
ghost use Rattle.std.specs.Prelude.{◌≡◌, ◌≢◌, Err, IfErr, IfOk};
ghost use Rattle.outer_ports.specs.Ports.{Rose};
ghost use Rattle.line_input.specs.declared.statuses.status.RunError.TheVariants.{Read};
ghost use Rattle.file_modes.specs.declared.trouble.FileError.TheVariants.{Input};
ghost use Rattle.file_modes.specs.Modes.{IsDumpable};
ghost use Rattle.file_modes.specs.Reading.{WasRead, trouble_of};

use crate::FileError;
use crate::read_all::read_all;
use command_words::FileMode;
use line_input::RunError;
use lisp_graph::World;
use outer_ports::Source;
use sexpr_text::{SexprFault, compile_sexpr};
use std::alloc::Global;

/// The longest text, in bytes.
const LONGEST: usize = 1 << 40;

/// The trouble with a text that, for this reason (`fault`), gives no world.
fn trouble_of(fault: SexprFault) -> FileError
    ensures { result ≡ trouble_of fault }
{
    match fault {
        SexprFault::NoMemory => FileError::Input(RunError::Memory),
        _ => FileError::Text(fault),
    }
}

/// The world that a text of S-expressions means. The text is taken up to its end, or until it has more than 2^40 bytes. Quotas aren't
/// checked.
pub fn read_sexpr<S: Source>(alloc: Global, source: &mut S) -> Result<World, FileError>
    ensures judged { WasRead FileMode.Compile (S.left source.old) (S.left source.new) result }
    ensures read { IfErr result (λ trouble. trouble ≡ Input Read → Rose (S.faults source.old) (S.faults source.new)) }
    ensures no_fault { result ≢ Err (Input Read) → S.faults source.new ≡ S.faults source.old }
    ensures ok { IfOk result IsDumpable }
{
    let bytes = match read_all(alloc, LONGEST, source) {
        Ok(bytes) => bytes,
        Err(trouble) => return Err(FileError::Input(trouble)),
    };
    match compile_sexpr(alloc, &bytes) {
        Ok(world) => Ok(world),
        Err(fault) => Err(trouble_of(fault)),
    }
}
