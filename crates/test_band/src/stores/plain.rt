//! A plain reading of a disk's bytes.
ghost use Rattle.std.specs.Prelude.{◌<◌, length};

use band_store::OpenFault;
use std::test::Fail;

// The places of the name and the text of a record.
#[derive(Clone, Copy, Debug, Drop)]
pub struct Piece {
    name: usize,
    len: usize,
    text: usize,
    size: usize,
}

// This many bytes from a place on, or none if the bytes end before.
fn part(bytes: &[u8], at: usize, len: usize) -> &[u8] {
    if at <= bytes.len() && len <= bytes.len() - at {
        &bytes[at..at + len]
    } else {
        &[]
    }
}

fn byte(bytes: &[u8], at: usize) -> u8 {
    if at < bytes.len() { bytes[at] } else { 0 }
}

fn is_plain_name(name: &[u8]) -> bool {
    let Some(first) = name.first() else {
        return false;
    };
    name.len() <= 16
        && first.is_ascii_lowercase()
        && name.iter().all(|b| b.is_ascii_lowercase() || b.is_ascii_digit() || *b == b'-')
}

// The record after the open gate at this place, if a record with a gate after it is there.
fn piece_at(bytes: &[u8], gate: usize) -> Option<Piece>
    requires { gate < length bytes.now }
{
    let len = usize::from(byte(bytes, gate + 1));
    let name = gate + 2;
    if !is_plain_name(part(bytes, name, len)) {
        return None;
    }
    let four = name + len;
    let size = u32::from_be_bytes([
        byte(bytes, four),
        byte(bytes, four + 1),
        byte(bytes, four + 2),
        byte(bytes, four + 3),
    ]) as usize;
    let text = four + 4;
    if size > 1_048_576 || text + size >= bytes.len() {
        return None;
    }
    Some(Piece {
        name,
        len,
        text,
        size,
    })
}

// A plain reading of a disk's bytes: adds its records to the list, and returns why the bytes are refused, if they are.
pub fn read(bytes: &[u8], pieces: &mut Vec<Piece>) -> Result<Option<OpenFault>, Fail> {
    if bytes.len() < 9 || !bytes.starts_with(b"LISPBND1") {
        return Ok(Some(OpenFault::NotAStore));
    }
    let mut gate = 8;
    for _ in 0..bytes.len() {
        if gate >= bytes.len() || bytes[gate] != 1 {
            return Ok(None);
        }
        let Some(piece) = piece_at(bytes, gate) else {
            return Ok(Some(OpenFault::Damaged { at: gate as u64 }));
        };
        pieces.push(piece)?;
        gate = piece.text.saturating_add(piece.size);
    }
    Ok(None)
}

// The last of these records that has this name.
pub fn last<'a>(bytes: &'a [u8], pieces: &[Piece], name: &[u8]) -> Option<&'a [u8]> {
    let mut found = None;
    for piece in pieces {
        if part(bytes, piece.name, piece.len) == name {
            found = Some(part(bytes, piece.text, piece.size));
        }
    }
    found
}

// How many names they have.
pub fn names(bytes: &[u8], pieces: &[Piece]) -> u32 {
    let mut count: u32 = 0;
    for (i, piece) in pieces.iter().enumerate() {
        let name = part(bytes, piece.name, piece.len);
        if last(bytes, &pieces[i + 1..], name).is_none() {
            count = count.saturating_add(1);
        }
    }
    count
}
