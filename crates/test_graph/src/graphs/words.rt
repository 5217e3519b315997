//! Commands and replies in a short form: a letter for the command and a character for each number, then `=`, then the reply.
//!
//! Commands: s set, m move, c cons, l list, k make, g grow, a car, d cdr, A rplaca, D rplacd, G get, P put, z size, e eq.
//! Replies: k ok, n nil, t true, c a cons, b a block, # a number, w wrong type, f no field. In `set`, N is nil; X, Y and Z
//! are the greatest number, the least one and -1.
ghost use Rattle.std.specs.Prelude.{◌≡◌, ◌<◌, ◌≤◌, length, IfSome, IsSome};
ghost use Rattle.std.specs.List.{All};
ghost use Rattle.lisp_graph.specs.Graph.{Graph};
ghost use Rattle.lisp_graph.specs.Effect.{effect};
ghost use Rattle.lisp_graph.specs.Commands.{InLimits, InRegisters, IsPlain};

use lisp_graph::{Command, Items, Reply, Value};

/// The number of the digit or the letter at a place of a word. Small letters are the numbers from 10 on, and some capitals are great ones.
fn number(word: &[u8], index: usize) -> u16
    ensures { result ≤ 2047 }
{
    match word.get(index) {
        Some(b'K') => 1023,
        Some(b'L') => 1024,
        Some(b'T') => 2046,
        Some(b'U') => 2047,
        Some(byte) if *byte < b'a' => byte.saturating_sub(b'0').min(9) as u16,
        Some(byte) => (byte - b'a').min(25) as u16 + 10,
        None => 0,
    }
}

fn register(word: &[u8], index: usize) -> u8
    ensures { result < 8 }
{
    number(word, index).min(7) as u8
}

fn area(word: &[u8]) -> u8 {
    number(word, 2).min(15) as u8
}

fn integer(word: &[u8], index: usize) -> i32 {
    match word.get(index) {
        Some(b'X') => i32::MAX,
        Some(b'Y') => i32::MIN,
        Some(b'Z') => -1,
        _ => number(word, index) as i32,
    }
}

fn value(word: &[u8], index: usize) -> Value
    ensures { IsPlain result }
{
    if word.get(index) == Some(&b'N') {
        Value::Nil
    } else {
        Value::Fix(integer(word, index))
    }
}

fn items(word: &[u8]) -> Items
    requires { length word.now ≤ 1024 }
    ensures size { length result ≡ length word.now }
    ensures registers { All (λ item. item < 8) result }
{
    let mut items = Items::new();
    for index in 0..word.len() {
        items.push(register(word, index));
    }
    items
}

/// A command that makes or grows an object.
fn maker(word: &[u8]) -> Option<Command>
    ensures program { IfSome result (λ command. (graph : Graph) → IsSome (effect graph command)) }
    ensures registers { IfSome result (λ command. InRegisters 8 command) }
    ensures limits { IfSome result (λ command. InLimits command) }
{
    match word.first() {
        Some(b'c') => Some(Command::Cons {
            to: register(word, 1),
            area: area(word),
            car: register(word, 3),
            cdr: register(word, 4),
        }),
        Some(b'l') if word.len() > 3 && word.len() < 1024 => Some(Command::List {
            to: register(word, 1),
            area: area(word),
            items: items(&word[3..]),
        }),
        Some(b'k') => Some(Command::Make {
            to: register(word, 1),
            area: area(word),
            code: number(word, 3),
            length: number(word, 4),
        }),
        Some(b'g') => Some(Command::Grow {
            target: register(word, 1),
            length: number(word, 2),
        }),
        _ => None,
    }
}

/// A command that reads or writes a part.
fn reader(word: &[u8]) -> Option<Command>
    ensures program { IfSome result (λ command. (graph : Graph) → IsSome (effect graph command)) }
    ensures registers { IfSome result (λ command. InRegisters 8 command) }
    ensures limits { IfSome result (λ command. InLimits command) }
{
    let first = register(word, 1);
    let second = register(word, 2);
    match word.first() {
        Some(b'a') => Some(Command::Car {
            to: first,
            from: second,
        }),
        Some(b'd') => Some(Command::Cdr {
            to: first,
            from: second,
        }),
        Some(b'A') => Some(Command::Rplaca {
            target: first,
            from: second,
        }),
        Some(b'D') => Some(Command::Rplacd {
            target: first,
            from: second,
        }),
        Some(b'G') => Some(Command::Get {
            to: first,
            from: second,
            index: number(word, 3) as u32,
        }),
        Some(b'P') => Some(Command::Put {
            target: first,
            index: number(word, 2) as u32,
            from: register(word, 3),
        }),
        _ => None,
    }
}

/// The command of a word.
pub fn command(word: &[u8]) -> Option<Command>
    ensures program { IfSome result (λ command. (graph : Graph) → IsSome (effect graph command)) }
    ensures registers { IfSome result (λ command. InRegisters 8 command) }
    ensures limits { IfSome result (λ command. InLimits command) }
{
    match word.first() {
        Some(b's') => Some(Command::Set {
            to: register(word, 1),
            value: value(word, 2),
        }),
        Some(b'm') => Some(Command::Move {
            to: register(word, 1),
            from: register(word, 2),
        }),
        Some(b'z') => Some(Command::Size {
            of: register(word, 1),
        }),
        Some(b'e') => Some(Command::Eq {
            left: register(word, 1),
            right: register(word, 2),
        }),
        Some(b'c' | b'l' | b'k' | b'g') => maker(word),
        _ => reader(word),
    }
}

/// The reply of a word.
pub fn reply(word: &[u8]) -> Option<Reply> {
    match word.first() {
        Some(b'k') => Some(Reply::Fine),
        Some(b'n') => Some(Reply::Nil),
        Some(b't') => Some(Reply::True),
        Some(b'c') => Some(Reply::Cons),
        Some(b'w') => Some(Reply::WrongType),
        Some(b'#') => Some(Reply::Number(integer(word, 1))),
        Some(b'f') => Some(Reply::NoField {
            length: number(word, 1),
        }),
        Some(b'b') => Some(Reply::Block {
            code: number(word, 1),
            length: number(word, 2),
        }),
        _ => None,
    }
}
