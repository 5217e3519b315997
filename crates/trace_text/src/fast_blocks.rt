//! Reads the commands of blocks at the front of a text, as `fast` does the others.
ghost use Rattle.std.specs.Prelude.{◌≡◌, ◌≤◌, ◌<◌, ◌++◌, ◌∷◌, List, decimal, codes, IfSome};
ghost use Rattle.lisp_graph.specs.declared.world.AreaRule.{AreaRule};
ghost use Rattle.trace_text.specs.Commands.{InLimits};
ghost use Rattle.trace_text.specs.Fast.{LeadsCommand, LeadsGet, LeadsMake, LeadsPut};

use crate::fast::Rest;
use crate::front::{leading_any, leading_register, number_and_space, register_and_space};
use lisp_graph::{Areas, CommandHead, Request};
use store_word::Space;
use world_text::{behind_space, leading_area};

/// The numbers of `get R S I`, and the text after them
#[inline(always)]
fn get_words<'a>(space: &Space, words: &'a [u8]) -> Option<(u8, u8, u32, &'a [u8])>
    requires { space.now.registers ≤ 256 }
    ensures { IfSome result (λ x. LeadsGet space.now.registers (codes "get " ++ words.now) x.0 x.1 x.2 x.3.now) }
{
    let (to, more) = number_and_space(words)?;
    let (from, last) = number_and_space(more)?;
    let (index, rest) = leading_any(last)?;
    if to >= space.registers || from >= space.registers {
        return None;
    }
    Some((to as u8, from as u8, index, rest))
}

/// `get R S I`
#[inline(always)]
pub fn get<'a>(space: &Space, words: &'a [u8], command: &mut Request) -> Rest<'a>
    requires { space.now.registers ≤ 256 }
    ensures { IfSome result (λ rest. (areas : List AreaRule) → LeadsCommand space.now areas (codes "get " ++ words.now) command.new rest.now) }
{
    let (to, from, index, rest) = get_words(space, words)?;
    command.set(CommandHead::Get { to, from, index });
    Some(rest)
}

/// The numbers of `put R I S`, and the text after them
#[inline(always)]
fn put_words<'a>(space: &Space, words: &'a [u8]) -> Option<(u8, u32, u8, &'a [u8])>
    requires { space.now.registers ≤ 256 }
    ensures { IfSome result (λ x. LeadsPut space.now.registers (codes "put " ++ words.now) x.0 x.1 x.2 x.3.now) }
{
    let (target, more) = number_and_space(words)?;
    let (index, last) = number_and_space(more)?;
    let (from, rest) = leading_any(last)?;
    if target >= space.registers || from >= space.registers {
        return None;
    }
    Some((target as u8, index, from as u8, rest))
}

/// `put R I S`
#[inline(always)]
pub fn put<'a>(space: &Space, words: &'a [u8], command: &mut Request) -> Rest<'a>
    requires { space.now.registers ≤ 256 }
    ensures { IfSome result (λ rest. (areas : List AreaRule) → LeadsCommand space.now areas (codes "put " ++ words.now) command.new rest.now) }
{
    let (target, index, from, rest) = put_words(space, words)?;
    command.set(CommandHead::Put {
        target,
        index,
        from,
    });
    Some(rest)
}

/// A number up to `high`, and the text after it.
#[inline(always)]
fn leading_small(high: u16, text: &[u8]) -> Option<(u16, &[u8])>
    ensures { IfSome result (λ x. (x.0 ≤ high) × (text.now ≡ decimal x.0 ++ x.1.now)) }
{
    let (number, rest) = leading_any(text)?;
    if number <= u32::from(high) {
        Some((number as u16, rest))
    } else {
        None
    }
}

/// The register, the area, the code and the length of `make R AREA CODE N`, and the text after them
type MakeWords<'a> = Option<(u8, u8, u16, u16, &'a [u8])>;

#[inline(always)]
fn make_words<'a>(space: &Space, areas: &Areas, after_four: &'a [u8]) -> MakeWords<'a>
    requires { InLimits space.now areas.now }
    ensures { IfSome result (λ x. LeadsMake space.now areas.now (codes "make" ++ after_four.now) x.0 x.1 x.2 x.3 x.4.now) }
{
    let words = behind_space(after_four)?;
    let (to, named) = register_and_space(space.registers, words)?;
    let (area, more) = leading_area(areas, named)?;
    let last = behind_space(more)?;
    let (code, tail) = leading_small(65_535, last)?;
    let behind = behind_space(tail)?;
    let (length, rest) = leading_small(2_047, behind)?;
    Some((to, area as u8, code, length, rest))
}

/// `make R AREA CODE N`
#[inline(always)]
pub fn make<'a>(
    space: &Space,
    areas: &Areas,
    after_four: &'a [u8],
    command: &mut Request,
) -> Rest<'a>
    requires { InLimits space.now areas.now }
    ensures { IfSome result (λ rest. LeadsCommand space.now areas.now (codes "make" ++ after_four.now) command.new rest.now) }
{
    let (to, area, code, length, rest) = make_words(space, areas, after_four)?;
    command.set(CommandHead::Make {
        to,
        area,
        code,
        length,
    });
    Some(rest)
}

/// The register and the length of `grow R N`, and the text after them
#[inline(always)]
fn grow_words<'a>(space: &Space, after_four: &'a [u8]) -> Option<(u8, u16, &'a [u8])>
    requires { space.now.registers ≤ 256 }
    ensures { IfSome result (λ x. (x.0 < space.now.registers) × (x.1 ≤ 2047) × (codes "grow" ++ after_four.now ≡ codes "grow " ++ decimal x.0 ++ 32 ∷ decimal x.1 ++ x.2.now)) }
{
    let words = behind_space(after_four)?;
    let (target, last) = register_and_space(space.registers, words)?;
    let (length, rest) = leading_small(2_047, last)?;
    Some((target, length, rest))
}

/// `grow R N`
#[inline(always)]
pub fn grow<'a>(space: &Space, after_four: &'a [u8], command: &mut Request) -> Rest<'a>
    requires { space.now.registers ≤ 256 }
    ensures { IfSome result (λ rest. (areas : List AreaRule) → LeadsCommand space.now areas (codes "grow" ++ after_four.now) command.new rest.now) }
{
    let (target, length, rest) = grow_words(space, after_four)?;
    command.set(CommandHead::Grow { target, length });
    Some(rest)
}

/// The register of `size R`, and the text after it
#[inline(always)]
fn size_words<'a>(space: &Space, after_four: &'a [u8]) -> Option<(u8, &'a [u8])>
    requires { space.now.registers ≤ 256 }
    ensures { IfSome result (λ x. (x.0 < space.now.registers) × (codes "size" ++ after_four.now ≡ codes "size " ++ decimal x.0 ++ x.1.now)) }
{
    let words = behind_space(after_four)?;
    leading_register(space.registers, words)
}

/// `size R`
#[inline(always)]
pub fn size<'a>(space: &Space, after_four: &'a [u8], command: &mut Request) -> Rest<'a>
    requires { space.now.registers ≤ 256 }
    ensures { IfSome result (λ rest. (areas : List AreaRule) → LeadsCommand space.now areas (codes "size" ++ after_four.now) command.new rest.now) }
{
    let (of, rest) = size_words(space, after_four)?;
    command.set(CommandHead::Size { of });
    Some(rest)
}
