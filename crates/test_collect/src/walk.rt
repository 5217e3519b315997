//! A walk over the words of a machine beside the graph of its session, and the units that its regions contain.
ghost use Rattle.std.specs.Prelude.{◌<◌};

use crate::graph::{Graph, Kept, Node};
use crate::machine::Machine;
use area_space::RegionTable;
use mem_port::Memory;
use std::alloc::Global;
use std::process::Abort;
use std::sync::ledger::Ledger;
use std::test::Fail;
use store_word::{CdrCode, Content, Steps, Word};

/// A machine, and whether a page call failed.
#[derive(Drop)]
pub(crate) struct Tried<M: Memory> {
    pub machine: Machine<M>,
    pub met: bool,
}

impl<M: Memory> Tried<M> {
    // The word at an address, which is read again if a swap error occurs.
    fn read<L: Ledger>(&mut self, at: u32, steps: &mut Steps<L>) -> Result<Word, Fail> {
        if let Ok(word) = self.machine.read(at, steps) {
            return Ok(word);
        }
        self.met = true;
        match self.machine.read(at, steps) {
            Ok(word) => Ok(word),
            Err(_) => Err("two faults".into()),
        }
    }

    // The address to which forwards lead.
    fn follow<L: Ledger>(&mut self, at: u32, steps: &mut Steps<L>) -> Result<u32, Fail> {
        let mut here = at;
        for _ in 0..13u32 {
            match self.read(here, steps)?.content() {
                Content::HeaderForward(next) => here = next,
                Content::GcForward(next) => here = next,
                _ => return Ok(here),
            }
        }
        Err("too many forwards".into())
    }
}

/// The places of the objects that were met, and the order in which they were.
#[derive(Drop)]
struct Walk {
    places: Vec<Option<u32>>,
    order: Vec<usize>,
}

impl Walk {
    // Tests that a word has a value.
    fn meet<M: Memory, L: Ledger>(
        &mut self,
        tried: &mut Tried<M>,
        word: Word,
        graph: &Graph,
        value: Kept,
        steps: &mut Steps<L>,
    ) -> Result<(), Fail> {
        let is_cons = match graph.node(value) {
            Some(node) => node.code.is_none(),
            None => false,
        };
        match (word.content(), value) {
            (Content::Nil, None) => Ok(()),
            (Content::List(at), Some(name)) if is_cons => self.place(tried, at, name, steps),
            (Content::Struct(at), Some(name)) if !is_cons => self.place(tried, at, name, steps),
            _ => Err("another value".into()),
        }
    }

    // Tests that an address leads to an object, and to no other.
    fn place<M: Memory, L: Ledger>(
        &mut self,
        tried: &mut Tried<M>,
        at: u32,
        name: usize,
        steps: &mut Steps<L>,
    ) -> Result<(), Fail> {
        let to = tried.follow(at, steps)?;
        match self.places.get(name) {
            Some(Some(place)) => {
                return if *place == to {
                    Ok(())
                } else {
                    Err("two places".into())
                };
            }
            Some(None) => {}
            None => return Err("no object".into()),
        }
        for place in &self.places {
            if *place == Some(to) {
                return Err("two objects".into());
            }
        }
        if let Some(place) = self.places.get_mut(name) {
            *place = Some(to);
        }
        self.order.push(name)?;
        Ok(())
    }

    // Tests the words of an object.
    fn visit<M: Memory, L: Ledger>(
        &mut self,
        rt: &impl Abort,
        tried: &mut Tried<M>,
        graph: &Graph,
        name: usize,
        steps: &mut Steps<L>,
    ) -> Result<(), Fail> {
        let Some(node) = graph.node(Some(name)) else {
            return Err("no object".into());
        };
        let at = match self.places.get(name) {
            Some(Some(at)) if *at < 0x0fff_0000 => *at,
            _ => return Err("no place".into()),
        };
        check_class(rt, tried.machine.table(), graph, node, at);
        let word = tried.read(at, steps)?;
        match node.code {
            Some(code) => {
                let length = node.count;
                assert!(rt; word.content() == Content::Header { code, length });
                for i in 0..length {
                    let field = tried.read(at + 1 + i as u32, steps)?;
                    self.meet(tried, field, graph, graph.part(node, i as usize), steps)?;
                }
                Ok(())
            }
            None => {
                self.meet(tried, word, graph, graph.part(node, 0), steps)?;
                let (rest, charge) = cdr_of(tried, word, at, steps)?;
                assert!(rt; charge == node.charge);
                self.meet(tried, rest, graph, graph.part(node, 1), steps)
            }
        }
    }
}

// The cdr of a cons, and what the cons is charged.
fn cdr_of<M: Memory, L: Ledger>(
    tried: &mut Tried<M>,
    word: Word,
    at: u32,
    steps: &mut Steps<L>,
) -> Result<(Word, u32), Fail>
    requires { at < 268369920 }
{
    match word.cdr_code() {
        CdrCode::Next => Ok((Word::list_at(at + 1), 3)),
        CdrCode::Nil => Ok((Word::nil(), 3)),
        CdrCode::Normal => {
            let second = tried.read(at + 1, steps)?;
            match second.cdr_code() {
                CdrCode::Second => Ok((second, 2)),
                CdrCode::Next => Ok((second, 3)),
                _ => Err("no second word".into()),
            }
        }
        CdrCode::Second => Err("a second word".into()),
    }
}

// Tests that the region of an object has its area and its level.
fn check_class(rt: &impl Abort, table: &RegionTable, graph: &Graph, node: Node, at: u32) {
    let class = if at / 4096 < table.regions() {
        table.class_of(at)
    } else {
        None
    };
    let found = match class {
        Some(class) => Some((class.area, Some(class.level))),
        None => None,
    };
    let stale = match class {
        Some(class) => class.stale,
        None => false,
    };
    assert!(rt; found == Some((node.area, graph.level_at(node, stale))));
}

/// Tests that the registers lead to the objects of the graph, each in one place and with its words, in regions of its area and level.
pub(crate) fn check_graph<M: Memory, L: Ledger>(
    rt: &impl Abort,
    alloc: Global,
    tried: &mut Tried<M>,
    graph: &Graph,
    steps: &mut Steps<L>,
) -> Result<(), Fail> {
    let mut walk = Walk {
        places: vec![in alloc; None; graph.nodes.len()]?,
        order: Vec::new(alloc),
    };
    for register in 0..8u8 {
        let word = match tried.machine.registers().get(register as usize) {
            Some(word) => *word,
            None => return Err("no register".into()),
        };
        walk.meet(tried, word, graph, graph.register(register), steps)?;
    }
    for i in 0..u64::MAX {
        let name = match walk.order.get(i as usize) {
            Some(name) => *name,
            None => return Ok(()),
        };
        walk.visit(rt, tried, graph, name, steps)?;
    }
    Ok(())
}

// Whether a region is in use, and not old.
fn is_live(table: &RegionTable, region: u32) -> bool {
    if region >= table.regions() {
        return false;
    }
    match table.class_of(4096 * region) {
        Some(class) => !class.stale,
        None => false,
    }
}

// Whether a word has an address in an old region.
fn names_old(table: &RegionTable, word: Word) -> bool {
    match word.address() {
        Some(at) => at / 4096 < table.regions() && table.is_old(at),
        None => false,
    }
}

// The used words of a region that isn't old; 0 if it is old or free.
fn live_used(table: &RegionTable, region: u32) -> u32 {
    if is_live(table, region) && region < table.regions() {
        table.used(region)
    } else {
        0
    }
}

/// The used words of all regions that aren't old.
pub(crate) fn live_words(table: &RegionTable) -> u64 {
    let mut sum = 0u64;
    for region in 0..table.regions() {
        sum = sum.wrapping_add(live_used(table, region) as u64);
    }
    sum
}

/// The lowest page with a used word of a region that isn't old.
pub(crate) fn lowest_live(table: &RegionTable) -> Option<u32> {
    for region in 0..table.regions() {
        if live_used(table, region) > 0 {
            return Some(16 * region);
        }
    }
    None
}

/// Whether a region is old.
pub(crate) fn has_old(table: &RegionTable) -> bool {
    for region in 0..table.regions() {
        if table.is_old(4096 * region) {
            return true;
        }
    }
    false
}

// Whether a page has an address in an old region.
fn page_names_old<M: Memory, L: Ledger>(
    tried: &mut Tried<M>,
    first: u32,
    used: u32,
    steps: &mut Steps<L>,
) -> Result<bool, Fail> {
    for i in 0..used {
        let word = tried.read(first.wrapping_add(i), steps)?;
        if names_old(tried.machine.table(), word) {
            return Ok(true);
        }
    }
    Ok(false)
}

/// The pages of regions that aren't old which have an address in an old region, or all used ones if `all` is true; and how many
/// words are used on them.
pub(crate) fn base_pages<M: Memory, L: Ledger>(
    tried: &mut Tried<M>,
    all: bool,
    steps: &mut Steps<L>,
) -> Result<(u32, u64), Fail> {
    let mut pages = 0u32;
    let mut words = 0u64;
    for region in 0..tried.machine.table().regions() {
        let used = live_used(tried.machine.table(), region);
        for page in 0..16u32 {
            let here = used.saturating_sub(256 * page).min(256);
            let first = region.wrapping_mul(4096).wrapping_add(256 * page);
            if here > 0 && (all || page_names_old(tried, first, here, steps)?) {
                pages = pages.wrapping_add(1);
                words = words.wrapping_add(here as u64);
            }
        }
    }
    Ok((pages, words))
}
