//! The graph of a session, kept as arrays: what each call has to answer, what the registers have to lead to, and what each area has to
//! be charged.
use crate::call::Call;
use lisp_graph::{AreaKind, CommandHead, Condemn, Reply};
use std::alloc::Global;
use std::test::Fail;
use store_word::Flags;

/// The kind and the quota of each area.
pub(crate) const AREAS: [(AreaKind, u32); 3] = [
    (AreaKind::Dynamic, 8192),
    (AreaKind::Ephemeral, 4096),
    (AreaKind::Static, 2048),
];

/// The greatest level.
pub(crate) const TOP: u8 = 2;

/// Nil, or an object by its number.
pub(crate) type Kept = Option<usize>;

/// An object: a block of this code, or a cons; and the index of its first part among the parts of all objects.
#[derive(Clone, Copy)]
pub(crate) struct Node {
    pub area: u8,
    pub level: u8,
    pub charge: u32,
    pub code: Option<u16>,
    pub first: usize,
    pub count: u16,
    pub held: bool,
    /// Whether the running collection has condemned it.
    pub doomed: bool,
}

#[derive(Drop)]
pub(crate) struct Graph {
    registers: [Kept; 8],
    pub nodes: Vec<Node>,
    parts: Vec<Kept>,
    // Words of husks by area and level, and by area those that the running collection has condemned.
    husks: [[u32; 3]; 3],
    gone: [u32; 3],
    aim: Option<Condemn>,
    // Whether anything except scans was called since the flip, and whether it is known for each object if it is held.
    changed: bool,
    exact: bool,
}

fn is_static(area: u8) -> bool {
    match AREAS.get(area as usize) {
        Some((AreaKind::Static, _)) => true,
        _ => false,
    }
}

// The level of a survivor.
fn survivor(what: Condemn, level: u8) -> u8 {
    match what {
        Condemn::Full => 0,
        Condemn::Chosen(_) => if level < TOP {
            level.wrapping_add(1)
        } else {
            0
        },
    }
}

// How many fields a block has after a growth to this many: one more than twice the old number at least, up to 2,047.
fn grown(count: u16, fields: u16) -> u16 {
    ((count & 4095) * 2 + 1).min(2047).max(fields)
}

// Whether a flip condemns a level.
fn condemns(what: Condemn, level: u8) -> bool {
    match what {
        Condemn::Full => true,
        Condemn::Chosen(levels) => level > 0
            && level < 8
            && (levels.bits() >> (level - 1)) & 1 == 1,
    }
}

impl Graph {
    pub fn new(alloc: Global) -> Graph {
        Graph {
            registers: [None; 8],
            nodes: Vec::new(alloc),
            parts: Vec::new(alloc),
            husks: [[0; 3]; 3],
            gone: [0; 3],
            aim: None,
            changed: false,
            exact: true,
        }
    }

    pub fn register(&self, register: u8) -> Kept {
        match self.registers.get(register as usize) {
            Some(value) => *value,
            None => None,
        }
    }

    fn set_register(&mut self, register: u8, value: Kept) {
        if let Some(place) = self.registers.get_mut(register as usize) {
            *place = value;
        }
    }

    /// The object of a value.
    pub fn node(&self, value: Kept) -> Option<Node> {
        match self.nodes.get(value?) {
            Some(node) => Some(*node),
            None => None,
        }
    }

    /// A part of an object.
    pub fn part(&self, node: Node, index: usize) -> Kept {
        match self.parts.get(node.first.wrapping_add(index)) {
            Some(value) => *value,
            None => None,
        }
    }

    // The level of an object now.
    fn level_now(&self, node: Node) -> u8 {
        match self.aim {
            Some(what) if node.doomed => survivor(what, node.level),
            _ => node.level,
        }
    }

    /// The level of the place of an object; `stale` says whether that is in from-space.
    pub fn level_at(&self, node: Node, stale: bool) -> Option<u8> {
        if stale && !node.doomed {
            None
        } else if stale {
            Some(node.level)
        } else {
            Some(self.level_now(node))
        }
    }

    /// What an area has to be charged, if it is known for each object whether it is held.
    pub fn account(&self, area: u8) -> Option<u32> {
        if !self.exact {
            return None;
        }
        let mut sum = 0u32;
        for node in &self.nodes {
            if node.held && node.area == area {
                sum = sum.wrapping_add(node.charge);
            }
        }
        if let Some(husks) = self.husks.get(area as usize) {
            for words in husks {
                sum = sum.wrapping_add(*words);
            }
        }
        match self.gone.get(area as usize) {
            Some(words) => Some(sum.wrapping_add(*words)),
            None => None,
        }
    }

    // Adds an object without parts.
    fn add(&mut self, area: u8, charge: u32, code: Option<u16>) -> Result<(), Fail> {
        let level = match AREAS.get(area as usize) {
            Some((AreaKind::Ephemeral, _)) => 1,
            _ => 0,
        };
        self.nodes.push(Node {
            area,
            level,
            charge,
            code,
            first: self.parts.len(),
            count: 0,
            held: true,
            doomed: false,
        })?;
        Ok(())
    }

    // Adds a part to the object that was added last.
    fn add_part(&mut self, value: Kept) -> Result<(), Fail> {
        self.parts.push(value)?;
        if let Some(node) = self.nodes.last_mut() {
            node.count = node.count.wrapping_add(1);
        }
        Ok(())
    }

    // Adds a list of the registers from this one on.
    fn add_list(&mut self, area: u8, item: u8, count: u16) -> Result<(), Fail> {
        for i in 0..count {
            self.add(area, 3, None)?;
            let register = (item as u32 + i as u32) % 8;
            self.add_part(self.register(register as u8))?;
            let rest = if i + 1 < count {
                Some(self.nodes.len())
            } else {
                None
            };
            self.add_part(rest)?;
        }
        Ok(())
    }

    // Puts a new object into a register.
    fn made(&mut self, to: u8, name: usize) -> Option<Reply> {
        self.set_register(to, Some(name));
        Some(Reply::Fine)
    }

    // Makes an object whose charge the quota allows.
    fn make(&mut self, call: Call) -> Result<Option<Reply>, Fail> {
        let name = self.nodes.len();
        match call {
            Call::Do(CommandHead::Cons { to, area, car, cdr }) => {
                self.add(area, 2, None)?;
                self.add_part(self.register(car))?;
                self.add_part(self.register(cdr))?;
                Ok(self.made(to, name))
            }
            Call::List {
                to,
                area,
                item,
                count,
            } => {
                self.add_list(area, item, count)?;
                Ok(self.made(to, name))
            }
            Call::Do(
                CommandHead::Make {
                    to,
                    area,
                    code,
                    length,
                },
            ) => {
                self.add(area, length as u32 + 1, Some(code))?;
                for _ in 0..length {
                    self.add_part(None)?;
                }
                Ok(self.made(to, name))
            }
            _ => Ok(None),
        }
    }

    // What a value is shown as.
    fn shown(&self, value: Kept) -> Reply {
        match self.node(value) {
            None => Reply::Nil,
            Some(Node { code: None, .. }) => Reply::Cons,
            Some(
                Node {
                    code: Some(code),
                    count,
                    ..
                },
            ) => Reply::Block {
                code,
                length: count,
            },
        }
    }

    // Copies a part of an object to a register.
    fn fetch(&mut self, to: u8, node: Node, index: usize) -> Reply {
        let value = self.part(node, index);
        self.set_register(to, value);
        self.shown(value)
    }

    // Copies the value of a register to a part of an object.
    fn store(&mut self, node: Node, index: usize, from: u8) -> Reply {
        let value = self.register(from);
        if let Some(place) = self.parts.get_mut(node.first.wrapping_add(index)) {
            *place = value;
        }
        Reply::Fine
    }

    // The block in a register, or the cons.
    fn block(&self, register: u8) -> Option<Node> {
        let node = self.node(self.register(register))?;
        node.code?;
        Some(node)
    }

    fn cons(&self, register: u8) -> Option<Node> {
        let node = self.node(self.register(register))?;
        if node.code.is_none() {
            Some(node)
        } else {
            None
        }
    }

    // Gives the block in a register at least this many fields, if the machine had room for it.
    fn grow(&mut self, target: u8, fields: u16, room: bool) -> Result<Option<Reply>, Fail> {
        let (Some(name), Some(node)) = (self.register(target), self.block(target)) else {
            return Ok(Some(Reply::WrongType));
        };
        if node.count >= fields {
            return Ok(Some(Reply::Fine));
        }
        if !room {
            return Ok(None);
        }
        let count = grown(node.count, fields);
        let first = self.parts.len();
        for i in 0..count {
            let value = if i < node.count {
                self.part(node, i as usize)
            } else {
                None
            };
            self.parts.push(value)?;
        }
        let level = self.level_now(node);
        if let Some(husks) = self.husks.get_mut(node.area as usize) {
            if let Some(words) = husks.get_mut(level as usize) {
                *words = words.wrapping_add(node.charge);
            }
        }
        if let Some(place) = self.nodes.get_mut(name) {
            place.first = first;
            place.count = count;
            place.charge = count as u32 + 1;
        }
        Ok(Some(Reply::Fine))
    }

    /// What a call that doesn't collect has to answer, if its registers, its area and its sizes exist; `room` says whether the
    /// quota allows what it needs. The graph is then the one after the call.
    pub fn play(&mut self, call: Call, room: bool) -> Result<Option<Reply>, Fail> {
        self.changed = true;
        let reply = match call {
            Call::Do(CommandHead::Grow { target, length }) => return self.grow(
                target, length, room,
            ),
            Call::Do(CommandHead::Move { to, from }) => {
                self.set_register(to, self.register(from));
                Reply::Fine
            }
            Call::Do(CommandHead::Car { to, from }) => match self.cons(from) {
                Some(node) => self.fetch(to, node, 0),
                None => Reply::WrongType,
            },
            Call::Do(CommandHead::Cdr { to, from }) => match self.cons(from) {
                Some(node) => self.fetch(to, node, 1),
                None => Reply::WrongType,
            },
            Call::Do(CommandHead::Rplaca { target, from }) => match self.cons(target) {
                Some(node) => self.store(node, 0, from),
                None => Reply::WrongType,
            },
            Call::Do(CommandHead::Rplacd { target, from }) => match self.cons(target) {
                Some(node) => self.store(node, 1, from),
                None => Reply::WrongType,
            },
            Call::Do(CommandHead::Get { to, from, index }) => match self.block(from) {
                Some(node) if index < node.count as u32 => self.fetch(to, node, index as usize),
                Some(node) => Reply::NoField { length: node.count },
                None => Reply::WrongType,
            },
            Call::Do(
                CommandHead::Put {
                    target,
                    index,
                    from,
                },
            ) => match self.block(target) {
                Some(node) if index < node.count as u32 => self.store(node, index as usize, from),
                Some(node) => Reply::NoField { length: node.count },
                None => Reply::WrongType,
            },
            Call::Do(CommandHead::Size { of }) => match self.block(of) {
                Some(node) => Reply::Number(node.count as i32),
                None => Reply::WrongType,
            },
            Call::Do(CommandHead::Eq { left, right }) => {
                if self.register(left) == self.register(right) {
                    Reply::True
                } else {
                    Reply::Nil
                }
            }
            _ if room => return self.make(call),
            _ => return Ok(None),
        };
        Ok(Some(reply))
    }

    /// What a call will be charged, and to which area; None if it makes nothing.
    pub fn wanted(&self, call: Call) -> Option<(u8, u32)> {
        match call {
            Call::Do(CommandHead::Cons { area, .. }) => Some((area, 2)),
            Call::List { area, count, .. } => Some((area, 3 * count as u32)),
            Call::Do(CommandHead::Make { area, length, .. }) => Some((area, length as u32 + 1)),
            Call::Do(CommandHead::Grow { target, length }) => {
                let node = self.block(target)?;
                Some((node.area, grown(node.count, length) as u32 + 1))
            }
            _ => None,
        }
    }

    /// Begins a collection.
    pub fn flip(&mut self, what: Condemn) {
        self.aim = Some(what);
        self.changed = false;
        for node in &mut self.nodes {
            node.doomed = node.held && !is_static(node.area) && condemns(what, node.level);
        }
        for area in 0..3u8 {
            if !is_static(area) {
                self.condemn_husks(area, what);
            }
        }
    }

    fn condemn_husks(&mut self, area: u8, what: Condemn) {
        let (Some(husks), Some(gone)) = (
            self.husks.get_mut(area as usize),
            self.gone.get_mut(area as usize),
        ) else {
            return;
        };
        for level in 0..3u8 {
            if condemns(what, level) {
                if let Some(words) = husks.get_mut(level as usize) {
                    *gone = gone.wrapping_add(*words);
                    *words = 0;
                }
            }
        }
    }

    // Which objects the registers and the objects that aren't condemned lead to.
    fn reached(&self, alloc: Global) -> Result<Vec<bool>, Fail> {
        let mut reached = vec![in alloc; false; self.nodes.len()]?;
        let mut order = Vec::new(alloc);
        for value in self.registers {
            reach(&mut reached, &mut order, value)?;
        }
        for name in 0..self.nodes.len() {
            match self.node(Some(name)) {
                Some(node) if node.held && !node.doomed => reach(
                    &mut reached,
                    &mut order,
                    Some(name),
                )?,
                _ => {}
            }
        }
        for i in 0..u64::MAX {
            let Some(name) = order.get(i as usize) else {
                return Ok(reached);
            };
            let Some(node) = self.node(Some(*name)) else {
                return Err("no object".into());
            };
            for index in 0..node.count {
                reach(&mut reached, &mut order, self.part(node, index as usize))?;
            }
        }
        Ok(reached)
    }

    /// Ends the running collection.
    pub fn reclaim(&mut self, alloc: Global) -> Result<(), Fail> {
        let Some(what) = self.aim else {
            return Ok(());
        };
        let reached = self.reached(alloc)?;
        let mut lost = false;
        for (node, is_reached) in self.nodes.iter_mut().zip(reached.iter()) {
            if node.doomed {
                node.doomed = false;
                node.held = *is_reached;
                node.level = survivor(what, node.level);
                lost = lost || !*is_reached;
            }
        }
        self.gone = [0; 3];
        self.aim = None;
        // It isn't known whether an object remains that was copied and then released: the next full collection frees it.
        if self.changed && lost {
            self.exact = false;
        } else if what == Condemn::Full && !self.changed {
            self.exact = true;
        }
        Ok(())
    }
}

// Records that a value is reached.
fn reach(reached: &mut [bool], order: &mut Vec<usize>, value: Kept) -> Result<(), Fail> {
    let Some(name) = value else {
        return Ok(());
    };
    if let Some(place) = reached.get_mut(name) {
        if !*place {
            *place = true;
            order.push(name)?;
        }
    }
    Ok(())
}
