//! Flips and reclaims.
ghost use Rattle.std.specs.Prelude.{◌≡◌, ◌≢◌, List, None, false, length, true};
ghost use Rattle.store_word.specs.Words.{Parts};
ghost use Rattle.lisp_graph.specs.declared.command.Command.TheVariants.{Flip as FlipCommand, Reclaim as ReclaimCommand};
ghost use Rattle.area_space.specs.Frees.{outside_old};
ghost use Rattle.area_space.specs.View.{view};
ghost use Rattle.scavenger.specs.Views.{base_pages};
ghost use Rattle.heap_state.specs.Views.{RepresentsAll, StepsTo};
ghost use Rattle.heap_state.specs.lisp_meaning.Roles.{RoleMap};
ghost use Rattle.heap_state.specs.lisp_meaning.State.{State};
ghost use Rattle.heap_collect.specs.Collections.{BeginsCollection, CountsUnchanged, EndsCollection, Reclaims};
ghost use Rattle.heap_collect.specs.Views.{FreesAtMost, IsDone, IsIdle, StandsForSome};

use area_space::Ground;
use lisp_graph::{Condemn, Reply};
use mem_port::Memory;
use scavenger::ScanSet;

/// `flip`: begins a collection, and replies with the number of base pages to scan; if one runs,
/// it replies `Busy`, and nothing has changed. The swap can't fail in it.
pub fn flip<M: Memory>(ground: &mut Ground<M>, scan: &mut ScanSet, what: Condemn) -> Reply
    requires represented { StandsForSome (view ground.old) scan.old }

    // what the machine represents
    ensures step { (registers : List Parts) (k : RoleMap) (s : State) → RepresentsAll (view ground.old) scan.old registers k s
        → length registers ≡ s.space.registers → ground.old.table.regions ≡ s.space.regions
        → StepsTo (view ground.new) scan.new registers s (FlipCommand what) result }
    ensures begins { ground.old.table.aim ≡ None → BeginsCollection (view ground.old) (view ground.new) scan.old scan.new what }

    // the reply
    ensures pages { ground.old.table.aim ≡ None → result ≡ Reply.Flipped (base_pages (view ground.new) what) }
    ensures refused { ground.old.table.aim ≢ None → (result ≡ Reply.Busy) × (ground.new ≡ ground.old) × (scan.new ≡ scan.old) }

    // what is unchanged
    ensures memory { ground.new.mem ≡ ground.old.mem }
    ensures regions { ground.new.table.regions ≡ ground.old.table.regions }
{
    if ground.table.condemned().is_some() {
        return Reply::Busy;
    }
    let pages = begin_collection(ground, scan, what);
    Reply::Flipped { pages }
}

/// `reclaim`: ends the collection that runs, if its scan has finished: the old regions are free, and what
/// was in them is gone. It replies `NotDone` if a unit remains to be scanned, and `NotFlipped` if no collection
/// runs, and then nothing has changed. The swap can't fail in it.
pub fn reclaim<M: Memory>(ground: &mut Ground<M>, scan: &ScanSet) -> Reply
    requires represented { StandsForSome (view ground.old) scan.now }

    // what the machine represents
    ensures step { (registers : List Parts) (k : RoleMap) (s : State) → RepresentsAll (view ground.old) scan.now registers k s
        → StepsTo (view ground.new) scan.now registers s ReclaimCommand result }
    ensures reclaims { result ≡ Reply.Reclaimed → Reclaims (view ground.old) (view ground.new) scan.now }

    // the reply
    ensures idle { ground.old.table.aim ≡ None → result ≡ Reply.NotFlipped }
    ensures left { ground.old.table.aim ≢ None → scan.now.over ≡ false → result ≡ Reply.NotDone }
    ensures over { ground.old.table.aim ≢ None → scan.now.over ≡ true → result ≡ Reply.Reclaimed }

    // what is freed, and what is unchanged
    ensures at_most { FreesAtMost (view ground.old) (view ground.new) }
    ensures resident { result ≡ Reply.Reclaimed → M.resident ground.new.mem ≡ outside_old ground.old.table (M.resident ground.old.mem) }
    ensures unchanged { result ≢ Reply.Reclaimed → ground.new ≡ ground.old }
    ensures no_fault { CountsUnchanged (view ground.old) (view ground.new) }
{
    if ground.table.condemned().is_none() {
        return Reply::NotFlipped;
    }
    if !scan.is_over() {
        return Reply::NotDone;
    }
    end_collection(ground);
    Reply::Reclaimed
}

// Begins a collection: what is condemned becomes old, and its scan starts. It returns how many base
// pages are to be scanned. No collection may be running.
//
// It reads and writes no word; it looks only at the set of pages and the marks.
pub(crate) fn begin_collection<M: Memory>(
    ground: &mut Ground<M>,
    scan: &mut ScanSet,
    what: Condemn,
) -> u32
    requires idle { IsIdle (view ground.old) scan.old }
    ensures begins { BeginsCollection (view ground.old) (view ground.new) scan.old scan.new what }
    ensures pages { result ≡ base_pages (view ground.new) what }
    ensures memory { ground.new.mem ≡ ground.old.mem }
    ensures regions { ground.new.table.regions ≡ ground.old.table.regions }
{
    ground.condemn(what);
    scan.start(ground, what)
}

// Ends a collection whose scan has finished: the old regions are free, and what was in them is gone. Each
// condemned object that was transported remains, at its survivor's level. The swap can't fail in it.
pub(crate) fn end_collection<M: Memory>(ground: &mut Ground<M>)
    requires done { IsDone (view ground.old) }
    ensures reclaims { EndsCollection (view ground.old) (view ground.new) }
    ensures at_most { FreesAtMost (view ground.old) (view ground.new) }
    ensures resident { M.resident ground.new.mem ≡ outside_old ground.old.table (M.resident ground.old.mem) }
    ensures no_fault { CountsUnchanged (view ground.old) (view ground.new) }
{
    ground.free_old();
}
