//! The text of a census.
ghost use Rattle.std.specs.Prelude.{◌≡◌, ◌≤◌, ◌++◌, ◌∷◌, List, decimal, OnOk, IfOk};
ghost use Rattle.world_text.specs.Spelling.{name_of};
ghost use Rattle.why_held.specs.declared.rows.Counted.{Counted};
ghost use Rattle.why_held.specs.CensusText.{AddUp, AddsUp, IsPart, census_line, census_text, code_text, found, line_with, lines_with, same_kind};

use crate::rows::{CensusRow, CensusRows, same_code};
use lisp_graph::{AreaRule, Areas, NoMemory, Text};
use std::alloc::Global;
use world_text::{name_of, push_number, push_spaced};

/// `cons`, or `block` and the code.
#[tactic(auto, using(std::proofs::Common::append_assoc))]
fn push_code(text: &mut Text, code: Option<u16>) -> Result<(), NoMemory>
    ensures { OnOk result (text.new ≡ text.old ++ code_text code) }
{
    match code {
        None => text.push_all(b"cons"),
        Some(code) => {
            text.push_all(b"block")?;
            push_spaced(text, u32::from(code))
        }
    }
}

/// A count and a charge, each after a space.
#[tactic(auto, using(std::proofs::Common::append_assoc))]
fn push_count(text: &mut Text, count: u64, charge: u64) -> Result<(), NoMemory>
    ensures { OnOk result (text.new ≡ text.old ++ 32 ∷ decimal count ++ 32 ∷ decimal charge) }
{
    text.push_all(b" ")?;
    push_number(text, count)?;
    text.push_all(b" ")?;
    push_number(text, charge)
}

/// The name of a row's area, and its code.
#[tactic(auto, using(std::proofs::Common::append_assoc))]
fn push_head(text: &mut Text, areas: &[AreaRule], row: CensusRow) -> Result<(), NoMemory>
    ensures { OnOk result (text.new ≡ text.old ++ name_of areas.now row.area ++ 32 ∷ code_text row.code) }
{
    text.push_all(name_of(areas, row.area))?;
    text.push_all(b" ")?;
    push_code(text, row.code)
}

/// The line of a row: `count` of its objects are reached, and have the charge `charge`. The two counts add up to the row's, and so do the
/// charges.
#[tactic(auto, using(std::proofs::Common::append_assoc))]
fn push_line(
    text: &mut Text,
    areas: &[AreaRule],
    row: CensusRow,
    count: u64,
    charge: u64,
) -> Result<(), NoMemory>
    requires count { count ≤ row.count }
    requires at_most { charge ≤ row.charge }
    ensures { OnOk result (text.new ≡ text.old ++ census_line areas.now row count charge) }
{
    push_head(text, areas, row)?;
    push_count(text, count, charge)?;
    push_count(text, row.count - count, row.charge - charge)?;
    text.push_all(b"\n")
}

/// The line of a row with the row of those that are reached, if there is one.
fn push_row(
    text: &mut Text,
    areas: &[AreaRule],
    row: CensusRow,
    reached: Option<CensusRow>,
) -> Result<(), NoMemory>
    requires { AddsUp row reached }
    ensures { OnOk result (text.new ≡ text.old ++ line_with areas.now row reached) }
{
    match reached {
        None => push_line(text, areas, row, 0, 0),
        Some(reached) => push_line(text, areas, row, reached.count, reached.charge),
    }
}

/// Whether two rows are of one area and code.
fn same_kind(row: CensusRow, other: CensusRow) -> bool
    ensures { result ≡ same_kind row other }
{
    row.area == other.area && same_code(row.code, other.code)
}

/// The first of these rows, if it is of the same kind.
fn found(row: CensusRow, reached: &[CensusRow]) -> Option<CensusRow>
    ensures { result ≡ found row reached.now }
{
    if reached.is_empty() {
        return None;
    }
    let first = reached[0];
    if same_kind(row, first) {
        Some(first)
    } else {
        None
    }
}

/// The lines of rows, each with the next of the reached rows if that is of its kind. Each row is looked at once.
fn push_rows(
    text: &mut Text,
    areas: &[AreaRule],
    rows: &[CensusRow],
    reached: &[CensusRow],
) -> Result<(), NoMemory>
    requires { AddUp rows.now reached.now }
    ensures { OnOk result (text.new ≡ text.old ++ lines_with areas.now rows.now reached.now) }
{
    let mut reached = reached;
    for row in rows {
        let next = found(*row, reached);
        push_row(text, areas, *row, next)?;
        if let Some(_) = next {
            reached = &reached[1..];
        }
    }
    Ok(())
}

/// The text of a census: a line for each row of all objects, with the counts and charges of those that are reached and of the
/// others, and a last line. It fails only if memory runs out.
pub fn census_text(
    alloc: Global,
    areas: &Areas,
    rows: &CensusRows,
    reached: &CensusRows,
) -> Result<Text, NoMemory>
    requires { (counted : List Counted) × IsPart counted rows.now reached.now }
    ensures { IfOk result (λ text. (counted : List Counted) → IsPart counted rows.now reached.now → text ≡ census_text areas.now counted rows.now) }
{
    let mut text = Text::new(alloc);
    push_rows(
        &mut text,
        areas.as_slice(),
        rows.as_slice(),
        reached.as_slice(),
    )?;
    text.push_all(b"end-census\n")?;
    Ok(text)
}
