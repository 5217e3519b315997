//! A command as it is read, in a place that is used for one command after another.
ghost use Rattle.std.specs.Prelude.{◌≡◌, [], false};
ghost use Rattle.lisp_graph.specs.Request.{HasRoom, command_with, is_list, with_item};

use crate::{Command, CommandHead, Items};
use std::marker::Model;

/// One command. The registers of a list have a place of their own, so that each other command is written by a few bytes. Contracts see it as the
/// command.
#[derive(Debug, Drop)]
pub struct Request {
    short: CommandHead,
    items: Items,
}

impl Model for Request {
    ghost use Rattle.lisp_graph.specs.declared.command.Command.{Command};
    ghost use Rattle.lisp_graph.specs.Request.{command_with};

    ghost Value = { Command };

    ghost view = { λ r. command_with r.short r.items };
}

impl Request {
    /// The command `stats`.
    pub fn new() -> Request
        ensures { result ≡ Command.Stats }
    {
        Request::with_short(CommandHead::Stats)
    }

    /// A command other than a list.
    fn with_short(short: CommandHead) -> Request
        requires { is_list short ≡ false }
        ensures { result ≡ command_with short [] }
    {
        Request {
            short,
            items: Items::new(),
        }
    }

    /// The same command.
    pub fn of(command: &Command) -> Request
        ensures { result ≡ command.now }
    {
        match command {
            Command::Set { to, value } => Request::with_short(CommandHead::Set {
                to: *to,
                value: *value,
            }),
            Command::Move { to, from } => Request::with_short(CommandHead::Move {
                to: *to,
                from: *from,
            }),
            Command::Cons { to, area, car, cdr } => Request::with_short(CommandHead::Cons {
                to: *to,
                area: *area,
                car: *car,
                cdr: *cdr,
            }),
            Command::List { to, area, items } => Request {
                short: CommandHead::List {
                    to: *to,
                    area: *area,
                },
                items: items.copy(),
            },
            Command::Make {
                to,
                area,
                code,
                length,
            } => Request::with_short(CommandHead::Make {
                to: *to,
                area: *area,
                code: *code,
                length: *length,
            }),
            Command::Grow { target, length } => Request::with_short(CommandHead::Grow {
                target: *target,
                length: *length,
            }),
            Command::Car { to, from } => Request::with_short(CommandHead::Car {
                to: *to,
                from: *from,
            }),
            Command::Cdr { to, from } => Request::with_short(CommandHead::Cdr {
                to: *to,
                from: *from,
            }),
            Command::Rplaca { target, from } => Request::with_short(CommandHead::Rplaca {
                target: *target,
                from: *from,
            }),
            Command::Rplacd { target, from } => Request::with_short(CommandHead::Rplacd {
                target: *target,
                from: *from,
            }),
            Command::Get { to, from, index } => Request::with_short(CommandHead::Get {
                to: *to,
                from: *from,
                index: *index,
            }),
            Command::Put {
                target,
                index,
                from,
            } => Request::with_short(CommandHead::Put {
                target: *target,
                index: *index,
                from: *from,
            }),
            Command::Size { of } => Request::with_short(CommandHead::Size { of: *of }),
            Command::Eq { left, right } => Request::with_short(CommandHead::Eq {
                left: *left,
                right: *right,
            }),
            Command::Flip { what } => Request::with_short(CommandHead::Flip { what: *what }),
            Command::Scavenge { count } => Request::with_short(CommandHead::Scavenge {
                count: *count,
            }),
            Command::Reclaim => Request::with_short(CommandHead::Reclaim),
            Command::PageOut { count } => Request::with_short(CommandHead::PageOut {
                count: *count,
            }),
            Command::Stats => Request::with_short(CommandHead::Stats),
            Command::Dump => Request::with_short(CommandHead::Dump),
        }
    }

    /// Becomes a command other than a list.
    pub fn set(&mut self, short: CommandHead)
        requires { is_list short ≡ false }
        ensures { self.new ≡ command_with short [] }
    {
        self.short = short;
    }

    /// Becomes a list of no register.
    pub fn begin_list(&mut self, to: u8, area: u8)
        ensures { self.new ≡ Command.List to area [] }
    {
        self.short = CommandHead::List { to, area };
        self.items.clear();
    }

    /// Adds a register at the end of a list of fewer than 1,024.
    pub fn push(&mut self, register: u8)
        requires { HasRoom self.old }
        ensures { self.new ≡ with_item self.old register }
    {
        self.items.push(register);
    }

    /// The command without the registers of a list, and those registers.
    pub fn parts(&self) -> (&CommandHead, &Items)
        ensures { self.now ≡ command_with result.0.now result.1.now }
    {
        (&self.short, &self.items)
    }

    /// The command, moved out of its place.
    pub fn into_command(self) -> Command
        ensures { result ≡ self }
    {
        match self.short {
            CommandHead::Set { to, value } => Command::Set { to, value },
            CommandHead::Move { to, from } => Command::Move { to, from },
            CommandHead::Cons { to, area, car, cdr } => Command::Cons { to, area, car, cdr },
            CommandHead::List { to, area } => Command::List {
                to,
                area,
                items: self.items,
            },
            CommandHead::Make {
                to,
                area,
                code,
                length,
            } => Command::Make {
                to,
                area,
                code,
                length,
            },
            CommandHead::Grow { target, length } => Command::Grow { target, length },
            CommandHead::Car { to, from } => Command::Car { to, from },
            CommandHead::Cdr { to, from } => Command::Cdr { to, from },
            CommandHead::Rplaca { target, from } => Command::Rplaca { target, from },
            CommandHead::Rplacd { target, from } => Command::Rplacd { target, from },
            CommandHead::Get { to, from, index } => Command::Get { to, from, index },
            CommandHead::Put {
                target,
                index,
                from,
            } => Command::Put {
                target,
                index,
                from,
            },
            CommandHead::Size { of } => Command::Size { of },
            CommandHead::Eq { left, right } => Command::Eq { left, right },
            CommandHead::Flip { what } => Command::Flip { what },
            CommandHead::Scavenge { count } => Command::Scavenge { count },
            CommandHead::Reclaim => Command::Reclaim,
            CommandHead::PageOut { count } => Command::PageOut { count },
            CommandHead::Stats => Command::Stats,
            CommandHead::Dump => Command::Dump,
        }
    }
}
