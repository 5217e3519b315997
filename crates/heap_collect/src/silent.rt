//! The steps that a machine takes by itself before an allocation (silent steps).
ghost use Rattle.std.specs.Prelude.{◌≡◌, ◌<◌, ◌≤◌, true, false};
ghost use Rattle.area_space.specs.Frees.{outside_old};
ghost use Rattle.area_space.specs.Table.{levels_of};
ghost use Rattle.area_space.specs.View.{view};
ghost use Rattle.heap_collect.specs.Collections.{CountsUnchanged};
ghost use Rattle.heap_collect.specs.Silent.{collects_alone, flips_alone, flips_idle, full_levels_on, has_finished, is_full_on, reclaims_alone, resident_from};
ghost use Rattle.heap_collect.specs.SilentSteps.{FlipsAlone, ReclaimsAlone, SilentSteps};
ghost use Rattle.heap_collect.specs.Views.{StandsIn};

use crate::collecting::{begin_collection, end_collection};
use area_space::{Ground, RegionTable};
use lisp_graph::Condemn;
use mem_port::Memory;
use scavenger::ScanSet;
use store_word::{Levels, Space};

// The levels whose total, in words charged over all areas, has reached a capacity above 0; None if
// there are none.
fn full_levels(table: &RegionTable, space: &Space) -> Option<Levels>
    requires levels { space.now.levels < levels_of table.now }
    requires at_most { space.now.levels ≤ 6 }
    ensures { result ≡ full_levels_on table.now space.now }
{
    let mut bits = 0u8;
    for index in 0..space.levels {
        if is_full(table, space, index + 1) {
            bits += 1 << index;
        }
    }
    if bits == 0 {
        None
    } else {
        Levels::from_bits(bits)
    }
}

// Whether the total of a level has reached its capacity.
fn is_full(table: &RegionTable, space: &Space, level: u8) -> bool
    requires from { 1 ≤ level }
    requires to { level ≤ 6 }
    requires levels { level < levels_of table.now }
    ensures { result ≡ is_full_on table.now space.now level }
{
    let capacity = space.capacity[usize::from(level - 1)];
    capacity > 0 && capacity <= table.total(level)
}

// Whether some level is collected without a command.
#[inline(always)]
fn has_capacity(space: &Space) -> bool
    ensures { result ≡ collects_alone space.now }
{
    space.capacity.iter().any(|capacity| *capacity > 0)
}

// Reclaims, if the scan of a collection has finished.
#[inline(never)]
fn reclaim_alone<M: Memory>(ground: &mut Ground<M>, scan: &ScanSet, space: &Space)
    requires represented { StandsIn (view ground.old) scan.now space.now }
    ensures reclaims { ReclaimsAlone (view ground.old) (view ground.new) scan.now }
    ensures unchanged { has_finished ground.old.table scan.now ≡ false → ground.new ≡ ground.old }
    ensures resident { has_finished ground.old.table scan.now ≡ true → M.resident ground.new.mem ≡ outside_old ground.old.table (M.resident ground.old.mem) }
    ensures no_fault { CountsUnchanged (view ground.old) (view ground.new) }
{
    if scan.is_over() && ground.table.condemned().is_some() {
        end_collection(ground);
    }
}

// Flips the full levels, if no collection runs and there are any.
#[inline(never)]
fn flip_alone<M: Memory>(ground: &mut Ground<M>, scan: &mut ScanSet, space: &Space)
    requires represented { StandsIn (view ground.old) scan.old space.now }
    ensures flips { FlipsAlone (view ground.old) (view ground.new) scan.old scan.new space.now }
    ensures memory { ground.new.mem ≡ ground.old.mem }
    ensures unchanged { flips_idle ground.old.table space.now ≡ false → (ground.new ≡ ground.old) × (scan.new ≡ scan.old) }
{
    if ground.table.condemned().is_some() {
        return;
    }
    match full_levels(&ground.table, space) {
        Some(levels) => {
            begin_collection(ground, scan, Condemn::Chosen(levels));
        }
        None => {}
    }
}

/// The silent steps before an allocation, in a world in which some level is collected without a command: a
/// reclaim, if the scan of a collection has finished, and then a flip of the full levels, if no
/// collection runs and there are any. It takes no memory access, and meets no swap error.
#[inline(always)]
pub fn take_silent_steps<M: Memory>(ground: &mut Ground<M>, scan: &mut ScanSet, space: &Space)
    requires represented { StandsIn (view ground.old) scan.old space.now }
    ensures step { SilentSteps (view ground.old) (view ground.new) scan.old scan.new space.now }
    ensures idle { collects_alone space.now ≡ false → (ground.new ≡ ground.old) × (scan.new ≡ scan.old) }
    ensures memory { reclaims_alone ground.old.table scan.old space.now ≡ false → ground.new.mem ≡ ground.old.mem }
    ensures resident { M.resident ground.new.mem ≡ resident_from ground.old.table scan.old space.now (M.resident ground.old.mem) }
    ensures end { reclaims_alone ground.old.table scan.old space.now ≡ false → flips_alone ground.old.table scan.old space.now ≡ false → ground.new ≡ ground.old }
{
    if has_capacity(space) {
        reclaim_alone(ground, scan, space);
        flip_alone(ground, scan, space);
    }
}
