//! Commands without a pattern.
ghost use Rattle.std.specs.Prelude.{◌<◌};

use lisp_graph::{Command, Condemn, Items, Value};
use store_word::Levels;

/// Numbers without a pattern, and the commands that they make for 8 registers, 3 areas and 2 levels.
#[derive(Clone, Copy)]
pub(crate) struct Dice {
    pub state: u64,
}

impl Dice {
    // A number below a number of sides.
    fn roll(&mut self, sides: u32) -> u32
        requires { 0 < sides }
        ensures { result < sides }
    {
        self.state = self
            .state
            .wrapping_mul(6_364_136_223_846_793_005)
            .wrapping_add(1_442_695_040_888_963_407);
        ((self.state >> 33) % sides as u64) as u32
    }

    // A register.
    fn register(&mut self) -> u8
        ensures { result < 8 }
    {
        self.roll(8) as u8
    }

    // One to `most` registers.
    fn items(&mut self, most: u32) -> Items
        requires at_least { 0 < most }
        requires at_most { most < 1000 }
    {
        let count = self.roll(most) + 1;
        let mut items = Items::new();
        for _ in 0..count {
            items.push(self.register());
        }
        items
    }

    // The number of fields of a block: mostly small, at times the greatest.
    fn length(&mut self) -> u16
        ensures { result < 2048 }
    {
        match self.roll(8) {
            0 => self.roll(2048) as u16,
            1 => self.roll(300) as u16,
            _ => self.roll(5) as u16,
        }
    }

    // A command that makes an object.
    fn maker(&mut self, to: u8, area: u8) -> Command {
        match self.roll(6) {
            0 => Command::List {
                to,
                area,
                items: self.items(6),
            },
            1 => Command::List {
                to,
                area,
                items: self.items(400),
            },
            2 => Command::Make {
                to,
                area,
                code: self.roll(1000) as u16,
                length: self.length(),
            },
            _ => Command::Cons {
                to,
                area,
                car: self.register(),
                cdr: self.register(),
            },
        }
    }

    // A command on collections, or on pages.
    fn collector(&mut self) -> Command {
        match self.roll(8) {
            0 => Command::Flip {
                what: Condemn::Full,
            },
            1 => Command::Flip {
                what: Condemn::Chosen(Levels::one(self.roll(2) as u8 + 1)),
            },
            2 => Command::Flip {
                what: Condemn::Chosen(Levels::up_to(2)),
            },
            3 => Command::Scavenge {
                count: self.roll(5),
            },
            4 => Command::Scavenge { count: 100_000 },
            5 | 6 => Command::Reclaim,
            _ => Command::PageOut {
                count: self.roll(33),
            },
        }
    }

    // A command that reads a part, or compares.
    fn reader(&mut self, to: u8, from: u8) -> Command {
        match self.roll(6) {
            0 => Command::Move { to, from },
            1 => Command::Car { to, from },
            2 => Command::Cdr { to, from },
            3 => Command::Get {
                to,
                from,
                index: self.roll(5),
            },
            4 => Command::Size { of: from },
            _ => Command::Eq {
                left: to,
                right: from,
            },
        }
    }

    // A command that writes a part or a register, or grows a block.
    fn writer(&mut self, target: u8, from: u8) -> Command {
        match self.roll(6) {
            0 => Command::Set {
                to: target,
                value: Value::Nil,
            },
            1 => Command::Set {
                to: target,
                value: Value::Fix(from as i32),
            },
            2 => Command::Rplaca { target, from },
            3 => Command::Rplacd { target, from },
            4 => Command::Put {
                target,
                index: self.roll(5),
                from,
            },
            _ => Command::Grow {
                target,
                length: self.length(),
            },
        }
    }

    /// Any command that is answered by a reply.
    pub fn command(&mut self) -> Command {
        let to = self.register();
        let from = self.register();
        let area = self.roll(3) as u8;
        match self.roll(8) {
            0 | 1 => self.maker(to, area),
            2 => self.collector(),
            3 | 4 | 5 => self.reader(to, from),
            _ => self.writer(to, from),
        }
    }
}
