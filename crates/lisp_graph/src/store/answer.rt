//! Which call executes a command.
ghost use Rattle.std.specs.Prelude.{◌≡◌, length, IsSome, IfOk, OnErr};
ghost use Rattle.lisp_graph.specs.Graph.{IsGraph};
ghost use Rattle.lisp_graph.specs.Effect.{Allocates, Answers, effect};
ghost use Rattle.lisp_graph.specs.Commands.{InLimits, InRegisters};
ghost use Rattle.lisp_graph.specs.Store.{graph_of};

use super::Store;
use crate::{Command, Reply};
use store_word::NoMemory;

impl Store {
    pub(crate) fn answer(&mut self, command: &Command) -> Result<Reply, NoMemory>
        requires graph { IsGraph (graph_of self.old) }
        requires can { IsSome (effect (graph_of self.old) command.now) }
        requires registers { InRegisters (length self.old.registers) command.now }
        requires in_range { InLimits command.now }
        ensures ok { IfOk result (λ reply. Answers (graph_of self.old) command.now reply (graph_of self.new)) }
        ensures err { OnErr result (graph_of self.new ≡ graph_of self.old) }
        ensures cause { OnErr result (Allocates (graph_of self.old) command.now) }
    {
        match command {
            Command::Set { to, value } => Ok(self.set(*to, *value)),
            Command::Move { to, from } => Ok(self.copy_register(*to, *from)),
            Command::Cons { to, area, car, cdr } => self.cons(*to, *area, *car, *cdr),
            Command::List { to, area, items } => self.list(*to, *area, items),
            Command::Make {
                to,
                area,
                code,
                length,
            } => self.make(*to, *area, *code, *length),
            Command::Grow { target, length } => self.grow(*target, *length),
            Command::Car { to, from } => Ok(self.car(*to, *from)),
            Command::Cdr { to, from } => Ok(self.cdr(*to, *from)),
            Command::Rplaca { target, from } => Ok(self.rplaca(*target, *from)),
            Command::Rplacd { target, from } => Ok(self.rplacd(*target, *from)),
            Command::Get { to, from, index } => Ok(self.get(*to, *from, *index)),
            Command::Put {
                target,
                index,
                from,
            } => Ok(self.put(*target, *index, *from)),
            Command::Size { of } => Ok(self.size(*of)),
            Command::Eq { left, right } => Ok(self.eq(*left, *right)),
            // The other commands concern memory, not the graph: they have no effect, and the contract excludes them.
            _ => unreachable!(),
        }
    }
}
