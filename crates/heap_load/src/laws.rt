//! Laws of the lists of objects.
ghost use Rattle.std.specs.Prelude.{◌≡◌, ◌+◌, ◌<◌, ◌≤◌, ℕ, suc, List, ◌++◌, length, map, take, slice_set, Some};
ghost use Rattle.lisp_graph.specs.declared.object.Object.{Object};
ghost use Rattle.lisp_graph.specs.declared.world.World.{World};
ghost use Rattle.lisp_graph.specs.Graph.{object_at};
ghost use Rattle.lisp_graph.specs.Groups.{to_tail};
ghost use Rattle.lisp_graph.specs.Effect.{list_from};
ghost use Rattle.block_store.specs.lisp_meaning.Changes.{with_made};
ghost use Rattle.block_store.specs.lisp_meaning.Charges.{account_now};
ghost use Rattle.block_store.specs.lisp_meaning.Opening.{opening};
ghost use Rattle.heap_load.specs.Drafts.{car_of, charge_in, filled, with_objects};

/// If objects are made after those of a world, the memory represents the world with these objects appended.
pub fn more_objects_are_made()
    ensures { (world : World) (made : List Object) → (opening (with_objects world (world.objects ++ made))).store ≡ with_made (opening world).store made 0 }
{}

/// An area is charged for those of its objects that are made, and for drafts of the first objects of a world no more than
/// for the objects.
pub fn drafts_are_charged()
    ensures value { (world : World) (made : List Object) (area : ℕ)
        → account_now (opening (with_objects world (world.objects ++ made))) area ≡ account_now (opening world) area + charge_in area made }
    ensures at_most { (world : World) (drafts : List Object) (area : ℕ) → length drafts ≤ length world.objects
        → ((i : ℕ) → i < length drafts → ((object_at drafts i).area ≡ (object_at world.objects i).area) × ((object_at drafts i).charge ≡ (object_at world.objects i).charge))
        → account_now (opening (with_objects world drafts)) area ≤ account_now (opening world) area }
{}

/// If a draft gets the parts of its object, one more object is complete.
pub fn drafts_are_filled()
    ensures { (whole drafts : List Object) (i : ℕ) → i < length whole → length drafts ≡ length whole
        → (object_at drafts i).area ≡ (object_at whole i).area → (object_at drafts i).charge ≡ (object_at whole i).charge
        → slice_set (filled i whole drafts) i (record (object_at (filled i whole drafts) i) { body = (object_at whole i).body }) ≡ filled (suc i) whole drafts }
{}

/// The conses of a group are those of a list that is made of their cars.
pub fn groups_are_lists()
    ensures { (area number count : ℕ) (objects : List Object) → to_tail area number objects ≡ Some count
        → (1 ≤ count) × (count ≤ length objects) × (take count objects ≡ list_from area number (map (λ object. car_of object.body) (take count objects))) }
{}
