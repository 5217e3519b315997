//! The most frequent lines of replies, found at the front of a text by a comparison of eight bytes as one number.
ghost use Rattle.std.specs.Prelude.{◌≡◌, ◌++◌, true, codes, IfSome};
ghost use Rattle.std.specs.Int.{to_le_bytes, w64};

// The first eight bytes of a text as one number, the first byte in its lowest place, and the text after them.
#[inline(always)]
fn eight_bytes(text: &[u8]) -> Option<(u64, &[u8])>
    ensures { IfSome result (λ x. text.now ≡ to_le_bytes w64 x.0 ++ x.1.now) }
{
    let [a, b, c, d, e, f, g, h, rest @ ..] = text else {
        return None;
    };
    let number = u64::from_le_bytes([*a, *b, *c, *d, *e, *f, *g, *h]);
    Some((number, rest))
}

// Whether the bytes of this number are these.
#[inline(always)]
fn is_front(number: u64, bytes: &[u8; 8]) -> bool
    ensures { result ≡ true → to_le_bytes w64 number ≡ bytes.now }
{
    number == u64::from_le_bytes(*bytes)
}

/// The text after the line `ok`.
#[inline(always)]
pub(crate) fn after_ok(text: &[u8]) -> Option<&[u8]>
    ensures { IfSome result (λ rest. text.now ≡ codes "ok\n" ++ rest.now) }
{
    match text {
        [b'o', b'k', b'\n', rest @ ..] => Some(rest),
        _ => None,
    }
}

/// The text after the line `wrong-type`.
#[inline(always)]
pub(crate) fn after_wrong_type(text: &[u8]) -> Option<&[u8]>
    ensures { IfSome result (λ rest. text.now ≡ codes "wrong-type\n" ++ rest.now) }
{
    let (front, more) = eight_bytes(text)?;
    if !is_front(front, b"wrong-ty") {
        return None;
    }
    match more {
        [b'p', b'e', b'\n', rest @ ..] => Some(rest),
        _ => None,
    }
}

/// The text after `exhausted` and a space.
#[inline(always)]
pub(crate) fn after_exhausted(text: &[u8]) -> Option<&[u8]>
    ensures { IfSome result (λ rest. text.now ≡ codes "exhausted " ++ rest.now) }
{
    let (front, more) = eight_bytes(text)?;
    if !is_front(front, b"exhauste") {
        return None;
    }
    match more {
        [b'd', b' ', rest @ ..] => Some(rest),
        _ => None,
    }
}
