//! The arguments of a program.
ghost use Rattle.std.specs.Prelude.{◌≡◌, ◌⊎◌, IfErr};

use crate::RunError;
use std::{env, io};

fn collected(rt: &HostRuntime) -> io::Result<Vec<String>> {
    let mut words = Vec::new(rt.alloc());
    for word in env::args(rt)?.skip(1) {
        words.push(word)?;
    }
    Ok(words)
}

/// The arguments of the program, or what is reported if they can't be read: one of them isn't UTF-8, or memory ran out.
pub fn read_arguments(rt: &HostRuntime) -> Result<Vec<String>, RunError>
    ensures err { IfErr result (λ trouble. (trouble ≡ RunError.Memory) ⊎ (trouble ≡ RunError.Usage)) }
{
    match collected(rt) {
        Ok(words) => Ok(words),
        Err(fault) => Err(match fault.kind() {
            io::ErrorKind::OutOfMemory => RunError::Memory,
            _ => RunError::Usage,
        }),
    }
}
