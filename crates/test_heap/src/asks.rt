//! Whether a machine can run a command.
ghost use Rattle.std.specs.Prelude.{◌≡◌, ◌<◌, length, true, IsTrue, IsSome};
ghost use Rattle.std.specs.List.{All};
ghost use Rattle.lisp_graph.specs.Graph.{Graph};
ghost use Rattle.lisp_graph.specs.Effect.{effect};
ghost use Rattle.lisp_graph.specs.Commands.{InLimits, InRegisters, IsPlain};
ghost use Rattle.paged_machine.specs.Asks.{is_replied};
ghost use Rattle.paged_machine.specs.Holding.{CanRun};

use lisp_graph::{Command, Value};

// Whether each of these is below a count.
fn all_below(items: &[u8], count: u32) -> bool
    ensures { IsTrue result → All (λ item. item < count) items.now }
{
    items.iter().all(|item| u32::from(*item) < count)
}

fn is_plain(value: Value) -> bool
    ensures { IsTrue result → IsPlain value }
{
    match value {
        Value::Nil => true,
        Value::Fix(_) => true,
        Value::Ref(_) => false,
    }
}

/// Whether a machine with this many registers and areas has what a command names, and the command is answered by a reply.
pub(crate) fn can_run(command: &Command, registers: u32, areas: u64) -> bool
    ensures runs { IsTrue result → CanRun registers areas command.now }
    ensures replied { IsTrue result → is_replied command.now ≡ true }
    ensures registers { IsTrue result → InRegisters registers command.now }
    ensures limits { IsTrue result → InLimits command.now }
{
    match command {
        Command::Set { to, value } if u32::from(*to) < registers && is_plain(*value) => true,
        Command::Move { to, from } if u32::from(*to) < registers && u32::from(*from) < registers =>
            true,
        Command::Cons { to, area, car, cdr }
            if u32::from(*to) < registers
                && u32::from(*car) < registers
                && u32::from(*cdr) < registers
                && u64::from(*area) < areas => true,
        Command::List { to, area, items }
            if u32::from(*to) < registers
                && u64::from(*area) < areas
                && items.len() >= 1
                && all_below(items.as_slice(), registers) => true,
        Command::Make {
            to,
            area,
            code: _,
            length,
        } if u32::from(*to) < registers && u64::from(*area) < areas && *length <= 2047 => true,
        Command::Grow { target, length } if u32::from(*target) < registers && *length <= 2047 =>
            true,
        Command::Car { to, from } if u32::from(*to) < registers && u32::from(*from) < registers =>
            true,
        Command::Cdr { to, from } if u32::from(*to) < registers && u32::from(*from) < registers =>
            true,
        Command::Rplaca { target, from }
            if u32::from(*target) < registers && u32::from(*from) < registers => true,
        Command::Rplacd { target, from }
            if u32::from(*target) < registers && u32::from(*from) < registers => true,
        Command::Get { to, from, index: _ }
            if u32::from(*to) < registers && u32::from(*from) < registers => true,
        Command::Put {
            target,
            index: _,
            from,
        } if u32::from(*target) < registers && u32::from(*from) < registers => true,
        Command::Size { of } if u32::from(*of) < registers => true,
        Command::Eq { left, right }
            if u32::from(*left) < registers && u32::from(*right) < registers => true,
        Command::Flip { .. } => true,
        Command::Scavenge { .. } => true,
        Command::Reclaim => true,
        Command::PageOut { .. } => true,
        _ => false,
    }
}

/// Whether a command is one of the program.
pub(crate) fn is_program(command: &Command) -> bool
    ensures { (graph : Graph) → IsTrue result → IsSome (effect graph command.now) }
{
    match command {
        Command::Set { .. } => true,
        Command::Move { .. } => true,
        Command::Cons { .. } => true,
        Command::List { .. } => true,
        Command::Make { .. } => true,
        Command::Grow { .. } => true,
        Command::Car { .. } => true,
        Command::Cdr { .. } => true,
        Command::Rplaca { .. } => true,
        Command::Rplacd { .. } => true,
        Command::Get { .. } => true,
        Command::Put { .. } => true,
        Command::Size { .. } => true,
        Command::Eq { .. } => true,
        _ => false,
    }
}
