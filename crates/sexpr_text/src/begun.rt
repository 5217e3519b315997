//! The beginning of an expression.
ghost use Rattle.std.specs.Prelude.{◌≡◌, false, OnOk};
ghost use Rattle.sexpr_text.specs.declared.token.Token.TheVariants.{Label as a_label};
ghost use Rattle.sexpr_text.specs.Pieces.{is_end, token_at};
ghost use Rattle.sexpr_text.specs.Begun.{beginning};
ghost use Rattle.sexpr_text.specs.Reading.{MayGive, again, begun, block_begun, code_at, form_begun, object_begun};

use crate::grammar::{integer_at, misplaced, natural_below, refusal};
use crate::labels::Labels;
use crate::piece_reader::PieceReader;
use crate::{Bracket, SexprFault, SexprReason, Token};
use lisp_graph::Value;

/// What remains to be read of an expression whose beginning was read.
#[derive(Clone, Copy, Debug, PartialEq, Eq)]
pub enum Inside {
    Nothing,
    /// The conses of a list form, up to the closing bracket.
    Conses { area: u8, bracket: Bracket },
    /// The fields of a block, up to the closing bracket.
    Block { area: u8, code: u16 },
}

/// The beginning of an expression: its value, and what remains to be read of it.
#[derive(Clone, Copy, Debug, PartialEq, Eq)]
pub struct OpenExpression {
    pub value: Value,
    pub inside: Inside,
}

/// The code of a block.
#[tactic(auto, unfolding(crate::specs::Reading::code_at))]
fn code_at(pieces: &PieceReader) -> Result<u16, SexprFault>
    ensures value { MayGive (λ x. x) result (code_at pieces.now) }
    ensures some { OnOk result (is_end (token_at pieces.now) ≡ false) }
{
    let number = integer_at(pieces)?;
    match natural_below(65_536, number) {
        Some(code) => Ok(code as u16),
        None => Err(refusal(pieces, SexprReason::BadNumber)),
    }
}

/// A block, from the piece after its bracket.
#[tactic(auto, unfolding(crate::specs::Reading::block_begun))]
fn block_begun(pieces: &mut PieceReader, area: u8) -> Result<Inside, SexprFault>
    ensures { MayGive (λ inside. (inside, pieces.new)) result (block_begun pieces.old area) }
{
    let code = code_at(pieces)?;
    pieces.advance();
    Ok(Inside::Block { area, code })
}

/// A form, from its bracket on.
fn form_begun(pieces: &mut PieceReader) -> Result<Inside, SexprFault>
    ensures { MayGive (λ inside. (inside, pieces.new)) result (form_begun pieces.old) }
{
    match pieces.token() {
        Token::Open {
            area: Some(area),
            bracket,
        } => {
            pieces.advance();
            match bracket {
                Bracket::Curly => block_begun(pieces, area),
                Bracket::Round | Bracket::Square => Ok(Inside::Conses { area, bracket }),
            }
        }
        Token::Open { area: None, .. } => Err(refusal(pieces, SexprReason::NoArea)),
        token => Err(refusal(pieces, misplaced(token))),
    }
}

/// A form, whose first object gets the next name.
#[tactic(auto, unfolding(crate::specs::Reading::object_begun))]
fn object_begun(
    labels: &Labels,
    pieces: &mut PieceReader,
    next: u64,
) -> Result<OpenExpression, SexprFault>
    ensures { MayGive (λ b. beginning b labels.now pieces.new) result (object_begun next labels.now pieces.old) }
{
    let inside = form_begun(pieces)?;
    Ok(OpenExpression {
        value: Value::Ref(next),
        inside,
    })
}

/// The object of a label.
#[tactic(auto, unfolding(crate::specs::Reading::again))]
fn again(
    labels: &Labels,
    pieces: &mut PieceReader,
    label: u32,
) -> Result<OpenExpression, SexprFault>
    requires { is_end (token_at pieces.old) ≡ false }
    ensures { MayGive (λ b. beginning b labels.now pieces.new) result (again labels.now pieces.old label) }
{
    let Some(name) = labels.name_of(label) else {
        return Err(refusal(pieces, SexprReason::NoLabel { label }));
    };
    pieces.advance();
    Ok(OpenExpression {
        value: Value::Ref(name),
        inside: Inside::Nothing,
    })
}

/// A form, from the piece after its new label.
fn labelled(
    labels: &mut Labels,
    pieces: &mut PieceReader,
    next: u64,
    label: u32,
) -> Result<OpenExpression, SexprFault>
    requires { token_at pieces.old ≡ a_label label }
    ensures { MayGive (λ b. beginning b labels.new pieces.new) result (begun next labels.old pieces.old) }
{
    if labels.name_of(label).is_some() {
        return Err(refusal(pieces, SexprReason::LabelTwice));
    }
    labels.add(label, next)?;
    pieces.advance();
    object_begun(labels, pieces, next)
}

/// The beginning of an expression; the next new object gets the name `next`.
pub fn begin(
    labels: &mut Labels,
    pieces: &mut PieceReader,
    next: u64,
) -> Result<OpenExpression, SexprFault>
    ensures { MayGive (λ b. beginning b labels.new pieces.new) result (begun next labels.old pieces.old) }
{
    match pieces.token() {
        Token::Atom(value) => {
            pieces.advance();
            Ok(OpenExpression {
                value,
                inside: Inside::Nothing,
            })
        }
        Token::Again(label) => again(labels, pieces, label),
        Token::Label(label) => labelled(labels, pieces, next, label),
        _ => object_begun(labels, pieces, next),
    }
}
