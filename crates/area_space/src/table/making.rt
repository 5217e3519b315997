//! New tables.
ghost use Rattle.std.specs.Prelude.{◌≡◌, ◌<◌, ◌≤◌, ℕ, List, IfOk};
ghost use Rattle.lisp_graph.specs.World.{AreAreas};
ghost use Rattle.lisp_graph.specs.declared.world.AreaRule.{AreaRule};
ghost use Rattle.area_space.specs.Fresh.{fresh, kinds_in, quotas_in};
ghost use Rattle.area_space.specs.Inside.{HasClasses, class_by};
ghost use Rattle.area_space.specs.Sound.{IsTable};

use super::RegionTable;
use crate::classes::Class;
use crate::page_set::PageSet;
use index_lists::Lists;
use lisp_graph::{AreaKind, AreaRule, Areas};
use std::alloc::{AllocError, Global};
use store_word::{NoMemory, REGION_PAGES, Space};

impl RegionTable {
    /// A table in which every region is free and no class is charged, for 1 to 1,024 regions, a
    /// greatest level of at most 6, and 1 to 16 areas. It takes 20 to 24 bytes for each region and
    /// 23 to 27 for each class, and no later call takes memory.
    pub fn new(alloc: Global, space: &Space, areas: &Areas) -> Result<RegionTable, NoMemory>
        requires regions { (1 ≤ space.now.regions) × (space.now.regions ≤ 1024) }
        requires levels { space.now.levels ≤ 6 }
        requires areas { AreAreas areas.now }
        ensures { IfOk result (λ table. table ≡ fresh space.now.regions space.now.levels areas.now) }
    {
        let rules = areas.as_slice();
        let quotas = quotas_of(alloc, rules)?;
        let kinds = kinds_of(alloc, rules)?;
        let count = rules.len() as u32;
        let levels = space.levels as u32 + 1;
        let numbers = 2 * (count * levels);
        let classes = classes_of(alloc, numbers, levels)?;
        let chains = Lists::new(alloc, space.regions, numbers)?;
        let mut free = PageSet::new(alloc, space.regions)?;
        free.insert_span(0, space.regions - 1);
        let used = vec![in alloc; 0u32; space.regions as usize]?;
        let marks = vec![in alloc; 0u32; space.regions as usize]?;
        let charges = vec![in alloc; 0u32; numbers as usize]?;
        let husks = vec![in alloc; 0u32; numbers as usize]?;
        let debts = vec![in alloc; 0u32; count as usize]?;
        let scan = PageSet::new(alloc, REGION_PAGES * space.regions)?;
        Ok(RegionTable {
            chains,
            free,
            used,
            marks,
            charges,
            husks,
            debts,
            quotas,
            kinds,
            classes,
            scan,
            regions: space.regions,
            areas: count,
            top: space.levels,
            aim: None,
            last: None,
            placed: 0,
        })
    }
}

// The quota of each area.
fn quotas_of(alloc: Global, rules: &[AreaRule]) -> Result<Vec<u32>, AllocError>
    ensures { IfOk result (λ quotas. quotas.items ≡ quotas_in rules.now) }
{
    let mut quotas = Vec::new(alloc);
    for i in 0..rules.len() {
        quotas.push(rules[i].quota)?;
    }
    Ok(quotas)
}

// The kind of each area.
fn kinds_of(alloc: Global, rules: &[AreaRule]) -> Result<Vec<AreaKind>, AllocError>
    ensures { IfOk result (λ kinds. kinds.items ≡ kinds_in rules.now) }
{
    let mut kinds = Vec::new(alloc);
    for i in 0..rules.len() {
        kinds.push(rules[i].kind)?;
    }
    Ok(kinds)
}

// The class of each number below a bound, in a world of this many levels.
fn classes_of(alloc: Global, count: u32, levels: u32) -> Result<Vec<Class>, AllocError>
    requires levels { 0 < levels }
    requires at_most { levels ≤ 7 }
    requires count { count ≤ 224 }
    ensures { IfOk result (λ classes. HasClasses classes.items levels count) }
{
    let mut classes = Vec::new(alloc);
    for number in 0..count {
        classes.push(class_by(number, levels))?;
    }
    Ok(classes)
}

// The class of a number, in a world of this many levels.
fn class_by(number: u32, levels: u32) -> Class
    requires levels { 0 < levels }
    requires at_most { levels ≤ 7 }
    requires in_range { number < 224 }
    ensures { result ≡ class_by levels number }
{
    let slot = number / 2;
    Class {
        area: (slot / levels) as u8,
        level: (slot % levels) as u8,
        stale: number % 2 == 1,
    }
}

/// What always holds of a table holds of one in which every region is free.
pub fn fresh_tables_are_sound()
    ensures { (regions top : ℕ) (rules : List AreaRule) → regions ≤ 1024 → top ≤ 6 → AreAreas rules → IsTable (fresh regions top rules) }
{}
