//! Overwriting bytes in memory that was allocated before.
ghost use Rattle.std.specs.Prelude.{◌≡◌, ◌+◌, ◌<◌, ◌≤◌, ◌++◌, [], ◌∷◌, length, replicate, vec_capacity, vec_len};
ghost use Rattle.band_disk.specs.Disks.{overwritten};

/// Appends an item to a list that has room for it.
pub fn put<T: Drop>(list: &mut Vec<T>, item: T)
    requires { vec_len list.old < vec_capacity list.old }
    ensures items { list.new.items ≡ list.old.items ++ item ∷ [] }
    ensures capacity { vec_capacity list.old ≤ vec_capacity list.new }
{
    list.push(item).unwrap();
}

/// Appends bytes to a list that has room for them.
pub fn append(list: &mut Vec<u8>, bytes: &[u8])
    requires { vec_len list.old + length bytes.now ≤ vec_capacity list.old }
    ensures items { list.new.items ≡ list.old.items ++ bytes.now }
    ensures capacity { vec_capacity list.old ≤ vec_capacity list.new }
{
    list.extend_from_slice(bytes).unwrap();
}

/// Overwrites bytes with a piece that lies within them.
fn lay(bytes: &mut [u8], at: usize, piece: &[u8])
    requires { at + length piece.now ≤ length bytes.old }
    ensures { bytes.new ≡ overwritten at piece.now bytes.old }
{
    bytes[at..at + piece.len()].copy_from_slice(piece);
}

/// Sets `len` bytes to one value, within the bytes.
fn fill(bytes: &mut [u8], at: usize, len: usize, byte: u8)
    requires { at + len ≤ length bytes.old }
    ensures { bytes.new ≡ overwritten at (replicate len byte) bytes.old }
{
    bytes[at..at + len].fill(byte);
}

/// Overwrites the bytes from a position on with a piece, which may reach past their end.
#[tactic(auto, using(crate::proofs::OverwrittenBytes::overwritten_parts))]
pub fn overwrite(bytes: &mut Vec<u8>, at: usize, piece: &[u8])
    requires at_most { at ≤ vec_len bytes.old }
    requires room { at + length piece.now ≤ vec_capacity bytes.old }
    ensures items { bytes.new.items ≡ overwritten at piece.now bytes.old.items }
    ensures capacity { vec_capacity bytes.old ≤ vec_capacity bytes.new }
{
    let within = piece.len().min(bytes.len() - at);
    lay(bytes, at, &piece[..within]);
    append(bytes, &piece[within..]);
}

/// Sets `len` bytes from a position on to one value; they may reach past the end.
#[tactic(auto, using(crate::proofs::OverwrittenBytes::spoiled_parts))]
pub fn spoil(bytes: &mut Vec<u8>, at: usize, len: usize, byte: u8)
    requires at_most { at ≤ vec_len bytes.old }
    requires room { at + len ≤ vec_capacity bytes.old }
    ensures items { bytes.new.items ≡ overwritten at (replicate len byte) bytes.old.items }
    ensures capacity { vec_capacity bytes.old ≤ vec_capacity bytes.new }
{
    let end = bytes.len().max(at + len);
    let within = len.min(bytes.len() - at);
    fill(bytes, at, within, byte);
    bytes.resize(end, byte).unwrap();
}

/// Replaces the bytes with those of a slice.
pub fn replace(bytes: &mut Vec<u8>, with: &[u8])
    requires { length with.now ≤ vec_capacity bytes.old }
    ensures items { bytes.new.items ≡ with.now }
    ensures capacity { vec_capacity bytes.old ≤ vec_capacity bytes.new }
{
    bytes.clear();
    append(bytes, with);
}
