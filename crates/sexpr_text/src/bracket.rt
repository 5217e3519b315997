//! Brackets, which say what a form is.
ghost use Rattle.std.specs.Prelude.{◌≡◌};
ghost use Rattle.sexpr_text.specs.Brackets.{closed_by, opened_by};

/// What a pair of brackets contains.
#[derive(Clone, Copy, Debug, PartialEq, Eq)]
pub enum Bracket {
    /// Conses that are charged 2 words each.
    Round,
    /// Conses that are charged 3 words each.
    Square,
    /// The code and the fields of a block.
    Curly,
}

/// The bracket that this byte opens.
pub fn opened_by(byte: u8) -> Option<Bracket>
    ensures { result ≡ opened_by byte }
{
    match byte {
        b'(' => Some(Bracket::Round),
        b'[' => Some(Bracket::Square),
        b'{' => Some(Bracket::Curly),
        _ => None,
    }
}

/// The bracket that this byte closes.
pub fn closed_by(byte: u8) -> Option<Bracket>
    ensures { result ≡ closed_by byte }
{
    match byte {
        b')' => Some(Bracket::Round),
        b']' => Some(Bracket::Square),
        b'}' => Some(Bracket::Curly),
        _ => None,
    }
}
