//! Reads the most frequent commands at the front of a text, with one look at each byte. The caller looks at what follows the command: nothing
//! if the text is a line, and a line feed if it goes on. In each other case the line is read by `command`, which accepts it or gives the reason
//! for its refusal. The first four bytes are compared as one number: `words` is the text after them if the first word has three letters and a
//! space follows it, and `after_four` is the same text in all other cases.
ghost use Rattle.std.specs.Prelude.{◌≡◌, ◌≤◌, ◌++◌, ◌∷◌, List, codes, IfSome};
ghost use Rattle.std.specs.Int.{to_le_bytes, w32};
ghost use Rattle.lisp_graph.specs.declared.world.AreaRule.{AreaRule};
ghost use Rattle.trace_text.specs.Commands.{InLimits};
ghost use Rattle.trace_text.specs.Pairs.{pair_name};
ghost use Rattle.trace_text.specs.Fast.{LeadsCommand, LeadsCons, LeadsItems, LeadsList, LeadsSet};

use crate::fast_blocks::{get, grow, make, put, size};
use crate::front::{
    four_bytes, is_eq, is_word, number_and_space, plain_value, register_and_space, spaced_register,
    two_registers,
};
use crate::pair::PairKind;
use lisp_graph::{Areas, CommandHead, Request, Value};
use store_word::Space;
use world_text::{behind_space, leading_area};

/// The text after a command, if the text begins with one.
pub type Rest<'a> = Option<&'a [u8]>;

/// The register and the value of `set R V`, and the text after them
#[inline(always)]
fn set_words<'a>(space: &Space, words: &'a [u8]) -> Option<(u8, Value, &'a [u8])>
    requires { space.now.registers ≤ 256 }
    ensures { IfSome result (λ x. LeadsSet space.now.registers (codes "set " ++ words.now) x.0 x.1 x.2.now) }
{
    let (to, word) = number_and_space(words)?;
    let (value, rest) = plain_value(word)?;
    if to >= space.registers {
        return None;
    }
    Some((to as u8, value, rest))
}

/// `set R V`
#[inline(always)]
fn set<'a>(space: &Space, words: &'a [u8], command: &mut Request) -> Rest<'a>
    requires { space.now.registers ≤ 256 }
    ensures { IfSome result (λ rest. (areas : List AreaRule) → LeadsCommand space.now areas (codes "set " ++ words.now) command.new rest.now) }
{
    let (to, value, rest) = set_words(space, words)?;
    command.set(CommandHead::Set { to, value });
    Some(rest)
}

/// The first register of `cons R AREA S T`, the area, the other two registers, and the text after them
type ConsWords<'a> = Option<(u8, u8, u8, u8, &'a [u8])>;

#[inline(always)]
fn cons_words<'a>(space: &Space, areas: &Areas, after_four: &'a [u8]) -> ConsWords<'a>
    requires { InLimits space.now areas.now }
    ensures { IfSome result (λ x. LeadsCons space.now areas.now (codes "cons" ++ after_four.now) x.0 x.1 x.2 x.3 x.4.now) }
{
    let words = behind_space(after_four)?;
    let (to, named) = register_and_space(space.registers, words)?;
    let (area, more) = leading_area(areas, named)?;
    let last = behind_space(more)?;
    let (car, cdr, rest) = two_registers(space.registers, last)?;
    Some((to, area as u8, car, cdr, rest))
}

/// `cons R AREA S T`
#[inline(always)]
fn cons<'a>(space: &Space, areas: &Areas, after_four: &'a [u8], command: &mut Request) -> Rest<'a>
    requires { InLimits space.now areas.now }
    ensures { IfSome result (λ rest. LeadsCommand space.now areas.now (codes "cons" ++ after_four.now) command.new rest.now) }
{
    let (to, area, car, cdr, rest) = cons_words(space, areas, after_four)?;
    command.set(CommandHead::Cons { to, area, car, cdr });
    Some(rest)
}

/// What precedes the registers of `list R AREA S ..`, and the text after it
#[inline(always)]
fn list_front<'a>(space: &Space, areas: &Areas, after_four: &'a [u8]) -> Option<(u8, u8, &'a [u8])>
    requires { InLimits space.now areas.now }
    ensures { IfSome result (λ x. LeadsList space.now areas.now (codes "list" ++ after_four.now) x.0 x.1 x.2.now) }
{
    let words = behind_space(after_four)?;
    let (to, named) = register_and_space(space.registers, words)?;
    let (area, items) = leading_area(areas, named)?;
    Some((to, area as u8, items))
}

/// Reads the registers of a list, from 1 to 1,024 with a space before each, and returns the text after them.
fn spaced_items<'a>(
    registers: u32,
    to: u8,
    area: u8,
    text: &'a [u8],
    command: &mut Request,
) -> Rest<'a>
    requires { registers ≤ 256 }
    ensures { IfSome result (λ rest. LeadsItems registers text.now to area command.new rest.now) }
{
    command.begin_list(to, area);
    let mut rest = text;
    let mut count = 0usize;
    while let Some((item, after)) = spaced_register(registers, rest) {
        if count == 1_024 {
            return None;
        }
        command.push(item);
        count += 1;
        rest = after;
    }
    if count == 0 { None } else { Some(rest) }
}

/// `list R AREA S ..`
#[inline(always)]
fn list<'a>(space: &Space, areas: &Areas, after_four: &'a [u8], command: &mut Request) -> Rest<'a>
    requires { InLimits space.now areas.now }
    ensures { IfSome result (λ rest. LeadsCommand space.now areas.now (codes "list" ++ after_four.now) command.new rest.now) }
{
    let (to, area, items) = list_front(space, areas, after_four)?;
    let rest = spaced_items(space.registers, to, area, items, command)?;
    Some(rest)
}

/// The first word of a command of two registers, and the text after the space that follows it. `front` is the number of the first four bytes.
#[inline(always)]
fn leading_pair<'a>(
    front: u32,
    after_four: &'a [u8],
    text: &'a [u8],
) -> Option<(PairKind, &'a [u8])>
    requires { text.now ≡ to_le_bytes w32 front ++ after_four.now }
    ensures { IfSome result (λ x. text.now ≡ pair_name x.0 ++ 32 ∷ x.1.now) }
{
    if is_word(front, b"car ") {
        return Some((PairKind::Car, after_four));
    }
    if is_word(front, b"cdr ") {
        return Some((PairKind::Cdr, after_four));
    }
    if is_word(front, b"move") {
        let words = behind_space(after_four)?;
        return Some((PairKind::Move, words));
    }
    if is_word(front, b"rpla") {
        return match after_four {
            [b'c', b'a', b' ', words @ ..] => Some((PairKind::Rplaca, words)),
            [b'c', b'd', b' ', words @ ..] => Some((PairKind::Rplacd, words)),
            _ => None,
        };
    }
    if is_eq(front) {
        return Some((PairKind::Eq, &text[3..]));
    }
    None
}

/// A command of two registers
#[inline(always)]
fn pair<'a>(
    space: &Space,
    front: u32,
    after_four: &'a [u8],
    text: &'a [u8],
    command: &mut Request,
) -> Rest<'a>
    requires at_most { space.now.registers ≤ 256 }
    requires agrees { text.now ≡ to_le_bytes w32 front ++ after_four.now }
    ensures { IfSome result (λ rest. (areas : List AreaRule) → LeadsCommand space.now areas text.now command.new rest.now) }
{
    let (kind, words) = leading_pair(front, after_four, text)?;
    let (first, second, rest) = two_registers(space.registers, words)?;
    command.set(kind.with(first, second));
    Some(rest)
}

/// The same as `read_fast` for every command except `set`. It isn't inlined, so that `read_fast` is short enough to be inlined into the loop over
/// the lines of a trace.
#[inline(never)]
fn read_other<'a>(space: &Space, areas: &Areas, text: &'a [u8], command: &mut Request) -> Rest<'a>
    requires { InLimits space.now areas.now }
    ensures { IfSome result (λ rest. LeadsCommand space.now areas.now text.now command.new rest.now) }
{
    let (front, after_four) = four_bytes(text)?;
    if is_word(front, b"get ") {
        return get(space, after_four, command);
    }
    if is_word(front, b"put ") {
        return put(space, after_four, command);
    }
    if is_word(front, b"cons") {
        return cons(space, areas, after_four, command);
    }
    if is_word(front, b"list") {
        return list(space, areas, after_four, command);
    }
    if is_word(front, b"make") {
        return make(space, areas, after_four, command);
    }
    if is_word(front, b"size") {
        return size(space, after_four, command);
    }
    if is_word(front, b"grow") {
        return grow(space, after_four, command);
    }
    pair(space, front, after_four, text, command)
}

/// The text after the command with which this text begins, if that is one of the most frequent commands. The command is written to `command`.
#[inline(always)]
pub fn read_fast<'a>(
    space: &Space,
    areas: &Areas,
    text: &'a [u8],
    command: &mut Request,
) -> Rest<'a>
    requires { InLimits space.now areas.now }
    ensures { IfSome result (λ rest. LeadsCommand space.now areas.now text.now command.new rest.now) }
{
    let (front, after_four) = four_bytes(text)?;
    if is_word(front, b"set ") {
        return set(space, after_four, command);
    }
    read_other(space, areas, text, command)
}
