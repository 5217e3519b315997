//! The text of a world.
ghost use Rattle.std.specs.Prelude.{◌≡◌, ◌≤◌, ◌++◌, [], ◌∷◌, length, true, IfOk, OnOk};
ghost use Rattle.lisp_graph.specs.Graph.{IsGraph, RefersBelow};
ghost use Rattle.lisp_graph.specs.World.{IsWorld, opening};
ghost use Rattle.lisp_graph.specs.Groups.{is_nil};
ghost use Rattle.sexpr_text.specs.declared.token.Token.TheVariants.{EndSexpr as an_end};
ghost use Rattle.sexpr_print.specs.Lines.{PrintsLines, PrintsRegister};
ghost use Rattle.sexpr_print.specs.Spelling.{IsPrint, header_text, lines_text};

use crate::printed::Printed;
use crate::printer::{Printer, is_nil};
use crate::sharing::reached_references;
use crate::token_text::{TokenText, number_token};
use lisp_graph::{NoMemory, Text, Value, World};
use sexpr_text::Token;
use std::alloc::Global;
use world_text::{push_areas, push_capacity, push_space};

/// The lines before the roots.
#[tactic(auto, using(std::proofs::Common::append_assoc))]
fn header(alloc: Global, world: &World) -> Result<TokenText, NoMemory>
    requires { world.now.space.levels ≤ 6 }
    ensures text { IfOk result (λ line. line.text ≡ header_text world.now.space world.now.areas) }
    ensures after { IfOk result (λ line. line.joined ≡ true) }
{
    let mut text = Text::new(alloc);
    text.push_all(b"sexpr-world 1\n")?;
    push_space(&mut text, &world.space)?;
    push_areas(&mut text, world.areas.as_slice())?;
    push_capacity(&mut text, &world.space)?;
    Ok(TokenText { text, joined: true })
}

/// Prints the line of a register, unless it is nil.
fn print_register(
    printer: &mut Printer,
    world: &World,
    register: u8,
    value: Value,
) -> Result<(), NoMemory>
    requires graph { IsGraph (opening world.now) }
    requires size { length printer.old.printed.counts ≡ length world.now.objects }
    requires refers { RefersBelow (length world.now.objects) value }
    requires idle { printer.old.tasks.items ≡ [] }
    requires open { printer.old.text.joined ≡ true }
    ensures { OnOk result (PrintsRegister world.now register value printer.old printer.new) }
{
    if is_nil(value) {
        return Ok(());
    }
    let areas = world.areas.as_slice();
    printer.text.add(areas, Token::Root)?;
    printer.text.add(areas, number_token(u16::from(register)))?;
    printer.print(world, value)?;
    printer.text.end_line()
}

/// Prints a line for each register that isn't nil.
fn print_roots(printer: &mut Printer, world: &World) -> Result<(), NoMemory>
    requires graph { IsGraph (opening world.now) }
    requires at_most { length world.now.roots ≤ 256 }
    requires size { length printer.old.printed.counts ≡ length world.now.objects }
    requires idle { printer.old.tasks.items ≡ [] }
    requires open { printer.old.text.joined ≡ true }
    ensures { OnOk result (PrintsLines world.now 0 world.now.roots printer.old printer.new) }
{
    let roots = world.roots.as_slice();
    let mut register = 0;
    while register < roots.len() {
        print_register(printer, world, register as u8, roots[register])?;
        register += 1;
    }
    Ok(())
}

/// Prints the line `end-sexpr`.
fn print_end(line: &mut TokenText, world: &World) -> Result<(), NoMemory>
    requires { line.old.joined ≡ true }
    ensures { OnOk result (line.new.text ≡ line.old.text ++ lines_text world.now.areas ((an_end ∷ []) ∷ [])) }
{
    line.add(world.areas.as_slice(), Token::EndSexpr)?;
    line.end_line()
}

/// The text that a world is printed as: its header, a line for each register that isn't nil, and `end-sexpr`. A world may be
/// nested as deep as memory allows; each of its objects and references is looked at a constant number of times. It fails only
/// if memory runs out, or if the world has 2^32 objects or more.
pub fn print_sexpr(alloc: Global, world: &World) -> Result<Text, NoMemory>
    requires { IsWorld world.now }
    ensures value { IfOk result (λ text. IsPrint world.now text) }
{
    let counts = reached_references(alloc, world)?;
    let mut printer = Printer {
        printed: Printed::new(alloc, counts)?,
        text: header(alloc, world)?,
        tasks: Vec::new(alloc),
    };
    print_roots(&mut printer, world)?;
    print_end(&mut printer.text, world)?;
    Ok(printer.text.text)
}
