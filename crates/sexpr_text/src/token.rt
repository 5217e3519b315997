//! Pieces of a text, and the tokens that they spell.
ghost use Rattle.std.specs.Prelude.{◌≡◌, ◌-◌, ◌<◌, ◌≤◌, length};
ghost use Rattle.sexpr_text.specs.Tokens.{label_in, plain_token, token_of};

use crate::Bracket;
use crate::bracket::{closed_by, opened_by};
use lisp_graph::{Areas, Name, Value};
use world_text::{area_of, number_in, value_of};

/// What a piece of a text is.
#[derive(Clone, Copy, Debug, PartialEq, Eq)]
pub enum Token {
    /// `root`
    Root,
    /// `end-sexpr`
    EndSexpr,
    /// The dot before the last cdr of a list form.
    Dot,
    /// `nil` or an integer.
    Atom(Value),
    /// `#k=`, before a form.
    Label(u32),
    /// `#k#`, the object of a label.
    Again(u32),
    /// A name followed by an opening bracket, and the area of this name, if there is one.
    Open { area: Option<u8>, bracket: Bracket },
    /// A closing bracket.
    Close(Bracket),
    /// No token.
    Unknown,
    /// The end of the text.
    End,
}

/// A piece of a text, and the line in which it begins, counted from 1.
#[derive(Clone, Copy, Debug, PartialEq, Eq)]
pub struct Piece {
    pub line: u64,
    pub token: Token,
}

/// The number of a label, from its spelling without the last byte.
fn label_in(front: &[u8]) -> Option<u32>
    ensures { result ≡ label_in front.now }
{
    if front.is_empty() || front[0] != b'#' {
        return None;
    }
    number_in(0, u32::MAX, &front[1..])
}

/// The token without a bracket, `=` or `#` at its end.
fn plain_token(piece: &[u8]) -> Token
    ensures { result ≡ plain_token piece.now }
{
    if piece == b"root".as_slice() {
        return Token::Root;
    }
    if piece == b"end-sexpr".as_slice() {
        return Token::EndSexpr;
    }
    if piece == b".".as_slice() {
        return Token::Dot;
    }
    match value_of(piece) {
        None | Some(Value::Ref(_)) => Token::Unknown,
        Some(value) => Token::Atom(value),
    }
}

/// The token that a piece with at least one byte spells, if areas have these names.
pub fn token_of(areas: &Areas, piece: &[u8]) -> Token
    requires at_least { 0 < length piece.now }
    requires at_most { length areas.now ≤ 16 }
    ensures { result ≡ token_of areas.now piece.now }
{
    let last = piece[piece.len() - 1];
    let front = &piece[..piece.len() - 1];
    if let Some(bracket) = opened_by(last) {
        if Name::read(front).is_none() {
            return Token::Unknown;
        }
        let area = area_of(areas, front).map(|area| area as u8);
        return Token::Open { area, bracket };
    }
    if let Some(bracket) = closed_by(last) {
        return if front.is_empty() {
            Token::Close(bracket)
        } else {
            Token::Unknown
        };
    }
    if last == b'=' {
        return label_in(front).map_or(Token::Unknown, Token::Label);
    }
    if last == b'#' {
        return label_in(front).map_or(Token::Unknown, Token::Again);
    }
    plain_token(piece)
}
