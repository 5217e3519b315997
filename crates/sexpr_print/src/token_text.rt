//! Tokens as text.
ghost use Rattle.std.specs.Prelude.{◌≡◌, ◌++◌, ◌∷◌, [], OnOk, codes, decimal, pos};
ghost use Rattle.lisp_graph.specs.declared.object.Value.TheVariants.{Fix as a_fix};
ghost use Rattle.sexpr_text.specs.declared.token.Token.TheVariants.{Atom as an_atom};
ghost use Rattle.sexpr_text.specs.Brackets.{closing, opening};
ghost use Rattle.sexpr_print.specs.Spelling.{binds, is_close, token_text};

use lisp_graph::{AreaRule, NoMemory, Text, Value};
use sexpr_text::{Bracket, Token};
use world_text::{name_of, push_number, push_value};

fn opening(bracket: Bracket) -> u8
    ensures { result ≡ opening bracket }
{
    match bracket {
        Bracket::Round => b'(',
        Bracket::Square => b'[',
        Bracket::Curly => b'{',
    }
}

fn closing(bracket: Bracket) -> u8
    ensures { result ≡ closing bracket }
{
    match bracket {
        Bracket::Round => b')',
        Bracket::Square => b']',
        Bracket::Curly => b'}',
    }
}

/// Adds `#`, the number of a label and the byte after it.
#[tactic(auto, using(std::proofs::Common::append_assoc))]
fn push_label(text: &mut Text, label: u32, end: u8) -> Result<(), NoMemory>
    ensures { OnOk result (text.new ≡ text.old ++ (codes "#" ++ decimal label ++ end ∷ [])) }
{
    text.push(b'#')?;
    push_number(text, u64::from(label))?;
    text.push(end)
}

/// Adds the bytes of a token.
#[tactic(auto, using(std::proofs::Common::append_assoc))]
fn push_token(text: &mut Text, areas: &[AreaRule], token: Token) -> Result<(), NoMemory>
    ensures { OnOk result (text.new ≡ text.old ++ token_text areas.now token) }
{
    match token {
        Token::Root => text.push_all(b"root"),
        Token::EndSexpr => text.push_all(b"end-sexpr"),
        Token::Dot => text.push(b'.'),
        Token::Atom(value) => push_value(text, value),
        Token::Label(label) => push_label(text, label, b'='),
        Token::Again(label) => push_label(text, label, b'#'),
        Token::Open {
            area: Some(area),
            bracket,
        } => {
            text.push_all(name_of(areas, area))?;
            text.push(opening(bracket))
        }
        Token::Close(bracket) => text.push(closing(bracket)),
        Token::Open { area: None, .. } | Token::Unknown | Token::End => Ok(()),
    }
}

/// A number as a token.
pub fn number_token(number: u16) -> Token
    ensures { result ≡ an_atom (a_fix (pos number)) }
{
    Token::Atom(Value::Fix(i32::from(number)))
}

/// Whether no space may separate the token from the next.
fn binds(token: Token) -> bool
    ensures { result ≡ binds token }
{
    matches!(token, Token::Label(_) | Token::Open { .. })
}

/// Whether no space may separate the token from the one before.
fn is_close(token: Token) -> bool
    ensures { result ≡ is_close token }
{
    matches!(token, Token::Close(_))
}

/// A text to which tokens are added.
#[derive(Drop)]
pub struct TokenText {
    pub text: Text,
    /// The next token needs no space before it.
    pub joined: bool,
}

impl TokenText {
    ghost use Rattle.std.specs.Prelude.{◌≡◌, ◌++◌, ◌∷◌, [], true, OnOk};
    ghost use Rattle.sexpr_print.specs.Writing.{Adds, label_tokens};

    /// Adds a token, and a space before it if one is needed.
    #[tactic(auto, using(std::proofs::Common::append_assoc))]
    pub fn add(&mut self, areas: &[AreaRule], token: Token) -> Result<(), NoMemory>
        ensures { OnOk result (Adds areas.now (token ∷ []) self.old self.new) }
    {
        if !self.joined && !is_close(token) {
            self.text.push(b' ')?;
        }
        push_token(&mut self.text, areas, token)?;
        self.joined = binds(token);
        Ok(())
    }

    /// Adds the label of an object, if it has one.
    pub fn add_label(&mut self, areas: &[AreaRule], label: Option<u32>) -> Result<(), NoMemory>
        ensures { OnOk result (Adds areas.now (label_tokens label) self.old self.new) }
    {
        match label {
            Some(label) => self.add(areas, Token::Label(label)),
            None => Ok(()),
        }
    }

    /// Ends the line.
    pub fn end_line(&mut self) -> Result<(), NoMemory>
        ensures text { OnOk result (self.new.text ≡ self.old.text ++ 10 ∷ []) }
        ensures after { OnOk result (self.new.joined ≡ true) }
    {
        self.text.push(b'\n')?;
        self.joined = true;
        Ok(())
    }
}
