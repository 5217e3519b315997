//! Which tokens the grammar allows in a place, and how a piece is refused.
ghost use Rattle.std.specs.Prelude.{◌≡◌, ◌<◌, false, IfSome, OnOk};
ghost use Rattle.sexpr_text.specs.Brackets.{same_bracket};
ghost use Rattle.sexpr_text.specs.declared.fault.SexprFault.TheVariants.{Bad as a_fault};
ghost use Rattle.sexpr_text.specs.Pieces.{is_end, line_at, token_at};
ghost use Rattle.sexpr_text.specs.Reading.{MayGive, closes, integer_at, is_dot, misplaced, natural_below, surplus};

use crate::piece_reader::PieceReader;
use crate::{Bracket, SexprFault, SexprReason, Token};
use lisp_graph::Value;

fn same_bracket(one: Bracket, other: Bracket) -> bool
    ensures { result ≡ same_bracket one other }
{
    match one {
        Bracket::Round => matches!(other, Bracket::Round),
        Bracket::Square => matches!(other, Bracket::Square),
        Bracket::Curly => matches!(other, Bracket::Curly),
    }
}

/// Whether the token closes this bracket.
pub fn closes(bracket: Bracket, token: Token) -> bool
    ensures { result ≡ closes bracket token }
{
    match token {
        Token::Close(other) => same_bracket(bracket, other),
        _ => false,
    }
}

/// Why the grammar doesn't allow a token.
pub fn misplaced(token: Token) -> SexprReason
    ensures { result ≡ misplaced token }
{
    match token {
        Token::Unknown => SexprReason::BadToken,
        Token::End => SexprReason::NoEnd,
        _ => SexprReason::BadForm,
    }
}

/// The refusal of the next piece for this reason.
pub fn refusal(pieces: &PieceReader, reason: SexprReason) -> SexprFault
    ensures { result ≡ a_fault (line_at pieces.now) reason }
{
    SexprFault::Bad {
        line: pieces.line(),
        reason,
    }
}

/// The number, if it is at least 0 and below the count.
pub fn natural_below(count: u32, number: i32) -> Option<u32>
    ensures value { result ≡ natural_below count number }
    ensures in_range { IfSome result (λ n. n < count) }
{
    if number < 0 {
        return None;
    }
    let number = number as u32;
    if number < count { Some(number) } else { None }
}

/// The integer that the next piece is.
pub fn integer_at(pieces: &PieceReader) -> Result<i32, SexprFault>
    ensures value { MayGive (λ x. x) result (integer_at pieces.now) }
    ensures some { OnOk result (is_end (token_at pieces.now) ≡ false) }
{
    match pieces.token() {
        Token::Atom(Value::Fix(number)) => Ok(number),
        token => Err(refusal(pieces, misplaced(token))),
    }
}

/// Whether the token is the dot before the last cdr.
pub fn is_dot(token: Token) -> bool
    ensures { result ≡ is_dot token }
{
    matches!(token, Token::Dot)
}

/// Why a token can't begin a 2,048th field.
pub fn surplus(token: Token) -> SexprReason
    ensures { result ≡ surplus token }
{
    match token {
        Token::Atom(_) | Token::Label(_) | Token::Again(_) => SexprReason::TooManyFields,
        Token::Open { area: Some(_), .. } => SexprReason::TooManyFields,
        Token::Open { area: None, .. } => SexprReason::NoArea,
        _ => misplaced(token),
    }
}
