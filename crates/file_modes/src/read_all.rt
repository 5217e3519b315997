//! Reading a whole text from a source.
ghost use Rattle.std.specs.Prelude.{◌≡◌, ◌≢◌, ◌≤◌, ◌<◌, ◌^◌, [], length, Err, IfErr, IfOk};
ghost use Rattle.outer_ports.specs.Ports.{Rose};
ghost use Rattle.line_input.specs.declared.statuses.status.RunError.TheVariants.{Read};
ghost use Rattle.file_modes.specs.Taken.{WasTaken};

use line_input::RunError;
use outer_ports::Source;
use std::alloc::{AllocError, Global};

/// The most bytes that are requested in a call.
const PIECE: usize = 65_536;

/// A buffer for the next bytes.
fn piece_buffer(alloc: Global) -> Result<Vec<u8>, AllocError>
    ensures { IfOk result (λ piece. 0 < length piece.items) }
{
    vec![in alloc; 0; PIECE]
}

/// Appends what a source gives to `bytes`, which is empty, up to the end or until there are more than `limit` bytes. It is taken through `piece`.
fn gather<S: Source>(
    limit: usize,
    source: &mut S,
    piece: &mut [u8],
    bytes: Vec<u8>,
) -> Result<Vec<u8>, RunError>
    requires at_most { limit ≤ 2 ^ 40 }
    requires at_least { 0 < length piece.old }
    requires empty { bytes.items ≡ [] }
    ensures taken { WasTaken limit (S.left source.old) (S.left source.new) result }
    ensures read { IfErr result (λ trouble. trouble ≡ Read → Rose (S.faults source.old) (S.faults source.new)) }
    ensures no_fault { result ≢ Err Read → S.faults source.new ≡ S.faults source.old }
{
    let mut bytes = bytes;
    while bytes.len() <= limit {
        let count = match source.take(piece) {
            Ok(count) => count,
            Err(_) => return Err(RunError::Read),
        };
        if count == 0 {
            return Ok(bytes);
        }
        match bytes.extend_from_slice(&piece[..count]) {
            Ok(()) => {}
            Err(_) => return Err(RunError::Memory),
        }
    }
    Ok(bytes)
}

/// What a source gives, up to its end or until there are more than `limit` bytes.
pub fn read_all<S: Source>(alloc: Global, limit: usize, source: &mut S) -> Result<Vec<u8>, RunError>
    requires { limit ≤ 2 ^ 40 }
    ensures taken { WasTaken limit (S.left source.old) (S.left source.new) result }
    ensures read { IfErr result (λ trouble. trouble ≡ Read → Rose (S.faults source.old) (S.faults source.new)) }
    ensures no_fault { result ≢ Err Read → S.faults source.new ≡ S.faults source.old }
{
    match piece_buffer(alloc) {
        Ok(mut piece) => gather(limit, source, &mut piece, Vec::new(alloc)),
        Err(_) => Err(RunError::Memory),
    }
}
