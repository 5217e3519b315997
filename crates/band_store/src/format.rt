//! The bytes of a record.
ghost use Rattle.std.specs.Prelude.{◌≡◌, ◌+◌, ◌<◌, ◌≤◌, ◌++◌, ℕ, List, [], ◌∷◌, length, min, IfOk, MatchOption};
ghost use Rattle.band_store.specs.Format.{record_of};
ghost use Rattle.band_store.specs.Gates.{HasNoHead, IsGate, IsHead};

use byteorder::{BigEndian, ByteOrder};
use lisp_graph::{Name, NoMemory};
use std::alloc::Global;

/// The first bytes of a store.
pub const HEADER: &[u8; 8] = b"LISPBND1";

/// The most bytes of a text.
pub const LONGEST_TEXT: u64 = 1_048_576;

/// The most bytes of a record before its text, including its gate.
pub const LONGEST_HEAD: usize = 22;

/// What is at a gate.
#[derive(Debug, Drop)]
pub enum HeaderState {
    /// The gate is closed.
    Shut,
    /// The gate is open, and is followed by a record of this name, with a text of this many bytes, and by a gate.
    Record { name: Name, size: u32 },
    /// The gate is open, and isn't followed by a record and a gate.
    Broken,
}

/// The name and the length of the text, if these bytes begin with those of a record.
fn read_head(bytes: &[u8]) -> Option<(Name, u32)>
    ensures { MatchOption result (HasNoHead bytes.now) (λ head. IsHead head.0 head.1 bytes.now) }
{
    let [len, rest @ ..] = bytes else {
        return None;
    };
    let len = *len as usize;
    if rest.len() < len + 4 {
        return None;
    }
    let (word, rest) = rest.split_at(len);
    let name = Name::read(word)?;
    let size = BigEndian::read_u32(rest);
    if u64::from(size) > LONGEST_TEXT {
        return None;
    }
    Some((name, size))
}

/// What is at a gate. The bytes are the gate and at most 21 bytes after it; from the gate on the disk has `left` bytes.
pub fn read_gate(bytes: &[u8], left: u64) -> HeaderState
    requires at_least { 0 < length bytes.now }
    requires size { length bytes.now ≡ min 22 left }
    ensures { (rest : List ℕ) → length bytes.now + length rest ≡ left → IsGate (bytes.now ++ rest) result }
{
    if bytes[0] != 1 {
        return HeaderState::Shut;
    }
    let Some((name, size)) = read_head(&bytes[1..]) else {
        return HeaderState::Broken;
    };
    if 7 + name.len() + u64::from(size) > left {
        return HeaderState::Broken;
    }
    HeaderState::Record { name, size }
}

/// The bytes of a record after its gate, followed by a closed gate.
pub fn record_bytes(alloc: Global, name: &[u8], text: &[u8]) -> Result<Vec<u8>, NoMemory>
    requires name { length name.now ≤ 16 }
    requires text { length text.now ≤ 1048576 }
    ensures { IfOk result (λ bytes. bytes.items ≡ record_of (record { name = name.now; text = text.now }) ++ 0 ∷ []) }
{
    let mut size = [0; 4];
    BigEndian::write_u32(&mut size, text.len() as u32);
    let mut bytes = Vec::with_capacity(alloc, name.len() + text.len() + 6)?;
    bytes.push(name.len() as u8)?;
    bytes.extend_from_slice(name)?;
    bytes.extend_from_slice(&size)?;
    bytes.extend_from_slice(text)?;
    bytes.push(0)?;
    Ok(bytes)
}
