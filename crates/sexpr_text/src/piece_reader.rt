//! Reading a text piece by piece.
ghost use Rattle.std.specs.Prelude.{◌≡◌, ◌≤◌, ℕ, List, length, IfSome};
ghost use Rattle.lisp_graph.specs.declared.world.AreaRule.{AreaRule};
ghost use Rattle.sexpr_text.specs.Pieces.{pieces_from, pieces_left};

use crate::pieces::{is_stop, line_past, piece_length, skip_white};
use crate::token::token_of;
use crate::{Piece, Token};
use lisp_graph::{Areas, Value};
use std::marker::Model;
use world_text::leading_value;

/// The first piece of a text that begins with an integer, and the text after it. If the piece is more than an integer, or the text
/// ends with it, the result is None.
#[inline(always)]
fn integer_piece(text: &[u8]) -> Option<(Token, &[u8])>
    ensures value { IfSome result (λ x. (areas : List AreaRule) (past line : ℕ)
        → pieces_left (record { line = line; token = x.0 }) areas past line x.1.now ≡ pieces_from areas past 0 line text.now) }
    ensures at_most { IfSome result (λ x. length x.1.now ≤ length text.now) }
{
    let (value, rest) = leading_value(text)?;
    if rest.is_empty() || !is_stop(rest[0]) {
        return None;
    }
    match value {
        Value::Fix(_) => Some((Token::Atom(value), rest)),
        Value::Nil | Value::Ref(_) => None,
    }
}

/// Shows one piece of a text after another. Contracts see the pieces that remain; the last one is the end of the text.
#[derive(Drop)]
pub struct PieceReader<'a> {
    areas: &'a Areas,
    piece: Piece,
    /// The text after the piece; it begins in the line `line`.
    rest: &'a [u8],
    line: u64,
    /// The number of the line after the last one of the text.
    past: u64,
}

impl<'a> Model for PieceReader<'a> {
    ghost use Rattle.std.specs.Prelude.{List, length, ◌<◌, ◌≤◌, ◌+◌, ◌^◌};
    ghost use Rattle.sexpr_text.specs.declared.token.Piece.{Piece};
    ghost use Rattle.sexpr_text.specs.Pieces.{pieces_left};

    ghost Value = { List Piece };

    ghost view = { λ r. pieces_left r.piece r.areas.now r.past r.line r.rest.now };

    ghost invariant = { λ r. (length r.areas.now ≤ 16) × (r.line + length r.rest.now < 2 ^ 63) };
}

impl<'a> PieceReader<'a> {
    ghost use Rattle.std.specs.Prelude.{◌≡◌, ◌+◌, ◌<◌, ◌≤◌, ◌^◌, false, length, drop};
    ghost use Rattle.sexpr_text.specs.Pieces.{is_end, line_at, pieces_from, pieces_of, token_at};

    /// A reader at the first piece of a text that begins in this line.
    fn at_first(areas: &'a Areas, past: u64, line: u64, text: &'a [u8]) -> PieceReader<'a>
        requires at_most { length areas.now ≤ 16 }
        requires in_range { line + length text.now < 2 ^ 63 }
        ensures { result ≡ pieces_from areas.now past 0 line text.now }
    {
        let (line, text) = skip_white(line, text);
        if let Some((token, rest)) = integer_piece(text) {
            return PieceReader {
                areas,
                piece: Piece { line, token },
                rest,
                line,
                past,
            };
        }
        if text.is_empty() {
            let piece = Piece {
                line: past,
                token: Token::End,
            };
            return PieceReader {
                areas,
                piece,
                rest: text,
                line,
                past,
            };
        }
        let size = piece_length(text);
        let token = token_of(areas, &text[..size]);
        PieceReader {
            areas,
            piece: Piece { line, token },
            rest: &text[size..],
            line,
            past,
        }
    }

    /// A reader at the first piece of a text that begins in this line.
    pub fn new(areas: &'a Areas, line: u64, text: &'a [u8]) -> PieceReader<'a>
        requires at_most { length areas.now ≤ 16 }
        requires in_range { line + length text.now < 2 ^ 63 }
        ensures { result ≡ pieces_of areas.now line text.now }
    {
        PieceReader::at_first(areas, line_past(line, text), line, text)
    }

    pub fn token(&self) -> Token
        ensures { result ≡ token_at self.now }
    {
        self.piece.token
    }

    /// The line in which the piece begins.
    pub fn line(&self) -> u64
        ensures { result ≡ line_at self.now }
    {
        self.piece.line
    }

    /// Goes on to the next piece. The text must not end here.
    pub fn advance(&mut self)
        requires { is_end (token_at self.old) ≡ false }
        ensures { self.new ≡ drop 1 self.old }
    {
        *self = PieceReader::at_first(self.areas, self.past, self.line, self.rest);
    }
}
