//! Bytes at the front of a buffer.
ghost use Rattle.std.specs.Prelude.{◌≡◌, ◌+◌, ◌-◌, ◌≤◌, ◌++◌, length, take, drop};

/// Copies the piece into the buffer after its first `len` bytes, which stay unchanged.
#[inline(always)]
pub fn copy_at(room: &mut [u8], len: usize, piece: &[u8])
    requires { len + length piece.now ≤ length room.old }
    ensures { take (len + length piece.now) room.new ≡ take len room.old ++ piece.now }
{
    room[len..len + piece.len()].copy_from_slice(piece);
}

/// Drops `front` of the first `len` bytes of the buffer, and moves the others to its front.
pub(crate) fn drop_front(room: &mut [u8], front: usize, len: usize)
    requires order { front ≤ len }
    requires at_most { len ≤ length room.old }
    ensures { take (len - front) room.new ≡ drop front (take len room.old) }
{
    room.copy_within(front..len, 0);
}
