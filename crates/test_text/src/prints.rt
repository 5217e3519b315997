//! Worlds and what is printed of them.
ghost use Rattle.std.specs.Prelude.{IfOk};
ghost use Rattle.world_text.specs.Limits.{IsAccepted};

use super::files::world_of;
use super::same::same;
use lisp_graph::{Text, World};
use sexpr_print::print_sexpr;
use std::alloc::Global;
use std::test::Fail;

const HEADER: &str =
    "space 32 32 8 1 2\narea work dynamic 9000\narea pool dynamic 100\ncapacity 0\n";

/// The world of these lines after the header.
fn world(alloc: Global, lines: &str) -> Result<World, Fail>
    ensures { IfOk result IsAccepted }
{
    let file = format!(in alloc; "lispm-world 2\n{HEADER}{lines}\nend-world")?;
    world_of(alloc, &file)
}

/// The lines of a world, and those of its print.
const PRINTS: [(&str, &str); 13] = [
    ("cons work 1 #0\nroot 0 #0", "root 0 #0=work(1 . #0#)\n"),
    (
        "run work 1 2 3\nblock work 9 #0 nil\nroot 0 #3\nroot 1 #1",
        "root 0 work{9 work[1 . #0=work[2 3]] nil}\nroot 1 #0#\n",
    ),
    ("cons work -5 6\nroot 2 #0", "root 2 work(-5 . 6)\n"),
    (
        "cons work #1 nil\ncons work #2 #2\ncons work 7 nil\nroot 0 #0",
        "root 0 work(work(#0=work(7) . #0#))\n",
    ),
    (
        "cons work 1 #1\ncons pool 2 nil\nroot 0 #0",
        "root 0 work(1 . pool(2))\n",
    ),
    (
        "cons work 1 #1\nrun work 2 3\nroot 0 #0",
        "root 0 work(1 . work[2 3])\n",
    ),
    (
        "cons work 1 #1\ncons work 2 nil\nroot 0 #0\nroot 1 #1",
        "root 0 work(1 . #0=work(2))\nroot 1 #0#\n",
    ),
    ("block work 7\nroot 0 #0", "root 0 work{7}\n"),
    ("root 3 nil\nroot 5 9", "root 5 9\n"),
    (
        "cons work 1 #0\ncons work #1 #0\nroot 0 #1",
        "root 0 #0=work(#0# . #1=work(1 . #1#))\n",
    ),
    (
        "cons work 1 #1\ncons work 2 #2\ncons work nil nil\nroot 0 #0",
        "root 0 work(1 2 nil)\n",
    ),
    (
        "block pool 65535 -2147483648 #1\nblock work 0 nil\nroot 7 #0",
        "root 7 pool{65535 -2147483648 work{0 nil}}\n",
    ),
    (
        "cons work 1 #1\nblock work 3 4\nroot 0 #0",
        "root 0 work(1 . work{3 4})\n",
    ),
];

/// The print of the world of these lines.
fn print_of(alloc: Global, lines: &str) -> Result<Text, Fail> {
    let world = world(alloc, lines)?;
    Ok(print_sexpr(alloc, &world)?)
}

#[test]
fn worlds_are_printed(rt: HostRuntime) -> Result<(), Fail> {
    let alloc = rt.alloc();
    for (text, lines) in PRINTS {
        let print = print_of(alloc, text)?;
        let want = format!(in alloc; "sexpr-world 1\n{HEADER}{lines}end-sexpr\n")?;
        same(&rt, print.as_slice(), want.as_bytes(), text);
    }
    Ok(())
}

/// The lines of a world with a list nested 4,000 deep.
fn deep_lines(alloc: Global) -> Result<String, Fail> {
    let mut lines = String::new(alloc);
    for number in 1..4000u32 {
        lines.push_str(format!(in alloc; "cons work #{number} nil\n")?.as_str())?;
    }
    lines.push_str("cons work 7 nil\nroot 0 #0")?;
    Ok(lines)
}

/// Its print.
fn deep_print(alloc: Global) -> Result<String, Fail> {
    let mut print = format!(in alloc; "sexpr-world 1\n{HEADER}root 0 ")?;
    for _ in 1..4000u32 {
        print.push_str("work(")?;
    }
    print.push_str("work(7")?;
    for _ in 0..4000u32 {
        print.push(')')?;
    }
    print.push_str("\nend-sexpr\n")?;
    Ok(print)
}

#[test]
fn deep_lists_are_printed(rt: HostRuntime) -> Result<(), Fail> {
    let print = print_of(rt.alloc(), &deep_lines(rt.alloc())?)?;
    same(
        &rt,
        print.as_slice(),
        deep_print(rt.alloc())?.as_bytes(),
        "a deep list",
    );
    Ok(())
}
