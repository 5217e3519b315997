//! The roots of a text, up to its end.
ghost use Rattle.std.specs.Prelude.{◌≡◌, ◌<◌, ◌≤◌, [], length, false, true, replicate, IfOk, OnOk};
ghost use Rattle.lisp_graph.specs.declared.object.Value.TheVariants.{Nil as a_nil};
ghost use Rattle.sexpr_text.specs.Pieces.{is_end, token_at};
ghost use Rattle.sexpr_text.specs.Reading.{MayGive};
ghost use Rattle.sexpr_text.specs.Roots.{Rooted, ended, register_at, root_at, roots_from};
ghost use Rattle.sexpr_text.specs.Rooting.{rooted};

use crate::forms::Forms;
use crate::grammar::{integer_at, misplaced, natural_below, refusal};
use crate::piece_reader::PieceReader;
use crate::{Parsed, SexprFault, SexprReason, Token};
use lisp_graph::{Fields, NoMemory, Value};
use std::alloc::Global;

/// A value for each of at most 256 registers, and which of them have a root.
#[derive(Drop)]
pub struct Registers {
    pub roots: Fields,
    pub given: [bool; 256],
}

impl Registers {
    /// `nil` for each register.
    pub fn new(alloc: Global, count: u32) -> Result<Registers, NoMemory>
        ensures value { IfOk result (λ registers. registers.roots ≡ replicate count a_nil) }
        ensures given { IfOk result (λ registers. registers.given ≡ replicate 256 false) }
    {
        let mut roots = Fields::new(alloc);
        roots.pad(count as usize, Value::Nil)?;
        Ok(Registers {
            roots,
            given: [false; 256],
        })
    }
}

/// The register of a root; it must have none yet.
#[tactic(auto, unfolding(crate::specs::Roots::register_at))]
fn register_at(registers: &Registers, pieces: &PieceReader) -> Result<usize, SexprFault>
    requires { length registers.now.roots ≤ 256 }
    ensures value { MayGive (λ x. x) result (register_at (length registers.now.roots) registers.now.given pieces.now) }
    ensures some { OnOk result (is_end (token_at pieces.now) ≡ false) }
    ensures in_range { IfOk result (λ register. register < length registers.now.roots) }
{
    let number = integer_at(pieces)?;
    let Some(register) = natural_below(registers.roots.len() as u32, number) else {
        return Err(refusal(pieces, SexprReason::NoRegister));
    };
    let register = register as usize;
    if registers.given[register] {
        return Err(refusal(pieces, SexprReason::RegisterTwice));
    }
    Ok(register)
}

/// Reads the register and the expression after `root`.
#[tactic(auto, unfolding(crate::specs::Roots::root_at))]
fn root(forms: &mut Forms, registers: &mut Registers) -> Parsed
    requires at_most { length registers.old.roots ≤ 256 }
    requires idle { forms.old.tasks.items ≡ [] }
    ensures value { MayGive (λ _. (rooted registers.new forms.new, forms.new.pieces)) result (root_at (rooted registers.old forms.old) forms.old.pieces) }
    ensures takes { OnOk result (length forms.new.pieces < length forms.old.pieces) }
    ensures done { OnOk result (forms.new.tasks.items ≡ []) }
    ensures count { OnOk result (length registers.new.roots ≡ length registers.old.roots) }
{
    let register = register_at(registers, &forms.pieces)?;
    forms.pieces.advance();
    let value = forms.expression()?;
    registers.roots.set(register, value);
    registers.given[register] = true;
    Ok(())
}

/// Tests that the text ends here.
fn ended(forms: &Forms) -> Parsed
    ensures { (r : Rooted) → MayGive (λ _. r) result (ended r forms.now.pieces) }
{
    match forms.pieces.token() {
        Token::End => Ok(()),
        _ => Err(refusal(&forms.pieces, SexprReason::TextAfterEnd)),
    }
}

/// Reads the roots up to the end of the text.
pub fn roots(forms: &mut Forms, registers: &mut Registers) -> Parsed
    requires at_most { length registers.old.roots ≤ 256 }
    requires idle { forms.old.tasks.items ≡ [] }
    ensures { MayGive (λ _. rooted registers.new forms.new) result (roots_from (length forms.old.pieces) (rooted registers.old forms.old) forms.old.pieces) }
{
    loop {
        match forms.pieces.token() {
            Token::Root => {
                forms.pieces.advance();
                root(forms, registers)?;
            }
            Token::EndSexpr => {
                forms.pieces.advance();
                return ended(forms);
            }
            token => return Err(refusal(&forms.pieces, misplaced(token))),
        }
    }
}
