//! Loads a world.
ghost use Rattle.std.specs.Prelude.{◌≡◌, [], false, OnOk};
ghost use Rattle.mem_port.specs.View.{AccountsForFaultsIf};
ghost use Rattle.area_space.specs.View.{view};
ghost use Rattle.heap_load.specs.Views.{RepresentsGroups, RepresentsSome, RepresentsWorld};
ghost use Rattle.lisp_graph.specs.World.{IsWorld};
ghost use Rattle.heap_load.specs.Faults.{is_fault};
ghost use Rattle.heap_load.specs.Loading.{FitsQuotas, emptied};

use crate::drafts::make_drafts;
use crate::fault::LoadFault;
use crate::filling::fill_drafts;
use crate::places::{Place, set_roots};
use area_space::Ground;
use lisp_graph::World;
use mem_port::Memory;
use std::alloc::Global;
use std::sync::ledger::Ledger;
use store_word::{Steps, Word};

/// Loads a world's objects and roots into a new machine: a ground without objects, and a register
/// for each root. The objects have to fit the quotas of their areas. It takes memory for a
/// place for each object, and frees it again.
///
/// Consecutive conses of charge 3 that form a list (the cdr of each refers to the next, the last cdr is
/// nil), up to 1,024 of them, are laid out as cells in consecutive words; any other cons is a pair of its
/// charge. If it is refused, the ground and the registers represent some world of the same space
/// and areas. `Swap` is returned only if the count of swap errors rose, and not for a world without objects.
pub fn load<M: Memory, L: Ledger>(
    alloc: Global,
    ground: &mut Ground<M>,
    registers: &mut [Word],
    world: &World,
    steps: &mut Steps<L>,
) -> Result<(), LoadFault>
    requires empty { RepresentsWorld (view ground.old) registers.old (emptied world.now) }
    requires accepted { IsWorld world.now }
    requires fits { FitsQuotas world.now }
    ensures represented { OnOk result (RepresentsWorld (view ground.new) registers.new world.now) }
    ensures groups { OnOk result (RepresentsGroups (view ground.new) registers.new world.now) }
    ensures some { RepresentsSome (view ground.new) registers.new world.now }
    ensures regions { ground.new.table.regions ≡ ground.old.table.regions }

    // Swap errors: none occurs for a world without objects.
    ensures accounted { AccountsForFaultsIf (view ground.old).mem (view ground.new).mem steps.old steps.new (is_fault result) }
    ensures succeeds { world.now.objects ≡ [] → is_fault result ≡ false }
{
    let mut places = vec![in alloc; Place::pair(0); world.objects.len() as usize]?;
    make_drafts(ground, world, &mut places, steps)?;
    fill_drafts(ground, world, &places, steps)?;
    set_roots(registers, world.roots.as_slice(), &places);
    Ok(())
}
