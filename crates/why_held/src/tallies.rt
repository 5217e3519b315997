//! Counts and charges by area and code.
ghost use Rattle.std.specs.Prelude.{◌≡◌, ℕ, List, [], map, Option, None, IfOk, OnOk};
ghost use Rattle.std.specs.BTreeMap.{IsOrdered, get};
ghost use Rattle.why_held.specs.declared.rows.Counted.{Counted as counted_object};
ghost use Rattle.why_held.specs.Census.{IsCensus};
ghost use Rattle.why_held.specs.Tallies.{AreTallies, Counts, HasRoom, kind_cmp, more, row_of, tally_in};

use crate::rows::{CensusRow, CensusRows, Counted, same_code};
use lisp_graph::NoMemory;
use std::alloc::Global;
use std::collections::BTreeMap;

/// How many objects there are of an area and a code, and what they are charged together.
#[derive(Clone, Copy)]
pub struct KindCount {
    count: u64,
    charge: u64,
}

/// An area and a code, and their tally.
#[derive(Clone, Copy)]
pub struct KindTally {
    area: u8,
    code: Option<u16>,
    tally: KindCount,
}

/// The tally of each area and code by its kind.
type StoredTallies = BTreeMap<(u8, Option<u16>), KindCount>;

/// The tally of each area and code of which there are objects. That of the object which was counted last is outside the map: so
/// only an object of another kind than the one before it is looked up.
#[derive(Drop)]
pub(crate) struct Tallies {
    stored: StoredTallies,
    latest: Option<KindTally>,
}

/// The tallies before any object is counted.
pub(crate) fn no_tallies(alloc: Global) -> Tallies
    ensures { AreTallies [] result }
{
    Tallies {
        stored: BTreeMap::new(alloc),
        latest: None,
    }
}

/// The tally with one more object.
fn more(tally: Option<KindCount>, charge: u32) -> KindCount
    requires { HasRoom tally }
    ensures { result ≡ more tally charge }
{
    match tally {
        None => KindCount {
            count: 1,
            charge: u64::from(charge),
        },
        Some(tally) => KindCount {
            count: tally.count + 1,
            charge: tally.charge + u64::from(charge),
        },
    }
}

/// Puts the latest tally into the map.
fn store_latest(tallies: &mut Tallies) -> Result<(), NoMemory>
    ensures after { OnOk result (tallies.new.latest ≡ None) }
    ensures unchanged { OnOk result ((area : ℕ) (code : Option ℕ) → get kind_cmp tallies.new.stored (area, code) ≡ tally_in tallies.old area code) }
{
    if let Some(latest) = tallies.latest {
        tallies
            .stored
            .insert((latest.area, latest.code), latest.tally)?;
        tallies.latest = None;
    }
    Ok(())
}

/// Counts an object of another kind than the one before it.
fn count_other(tallies: &mut Tallies, one: Counted) -> Result<(), NoMemory>
    requires { HasRoom (tally_in tallies.old one.area one.code) }
    ensures { OnOk result (Counts one tallies.old tallies.new) }
{
    store_latest(tallies)?;
    let before = tallies.stored.get(&(one.area, one.code)).copied();
    tallies.latest = Some(KindTally {
        area: one.area,
        code: one.code,
        tally: more(before, one.charge),
    });
    Ok(())
}

/// Counts an object.
pub(crate) fn count(tallies: &mut Tallies, one: Counted) -> Result<(), NoMemory>
    requires { HasRoom (tally_in tallies.old one.area one.code) }
    ensures { OnOk result (Counts one tallies.old tallies.new) }
{
    if let Some(latest) = tallies.latest {
        if latest.area == one.area && same_code(latest.code, one.code) {
            let tally = more(Some(latest.tally), one.charge);
            tallies.latest = Some(KindTally {
                area: one.area,
                code: one.code,
                tally,
            });
            return Ok(());
        }
    }
    count_other(tallies, one)
}

/// A row for each tally of the map, in their order.
fn stored_rows(alloc: Global, tallies: &StoredTallies) -> Result<CensusRows, NoMemory>
    ensures value { IfOk result (λ rows. rows ≡ map row_of tallies.now.entries) }
    ensures order { IsOrdered kind_cmp tallies.now }
{
    let mut rows = CensusRows::new(alloc);
    for (kind, tally) in tallies {
        rows.push(CensusRow {
            area: kind.0,
            code: kind.1,
            count: tally.count,
            charge: tally.charge,
        })?;
    }
    Ok(rows)
}

/// A row for each tally, in their order.
pub(crate) fn rows_of(alloc: Global, tallies: Tallies) -> Result<CensusRows, NoMemory>
    ensures { (counted : List counted_object) → AreTallies counted tallies → IfOk result (IsCensus counted) }
{
    let mut tallies = tallies;
    store_latest(&mut tallies)?;
    stored_rows(alloc, &tallies.stored)
}
