//! What follows if a heap represents a state.
ghost use Rattle.lisp_graph.specs.declared.world.World.{World};
ghost use Rattle.word_graph.specs.lisp_meaning.State.{State};
ghost use Rattle.word_graph.specs.lisp_meaning.Stands.{Stands as Means};
ghost use Rattle.world_text.specs.Limits.{IsAccepted};
ghost use Rattle.heap_load.specs.Loading.{FitsQuotas};
ghost use Rattle.lisp_heap.specs.HeapView.{HeapView};
ghost use Rattle.lisp_heap.specs.Stands.{Stands, machine_of};
ghost use Rattle.lisp_heap.specs.Freed.{SilentRetains};
ghost use Rattle.lisp_heap.specs.Room.{HeapsHaveRoom};
ghost use Rattle.lisp_heap.specs.Walking.{DumpIsOfState};

/// A heap that represents a state has its meaning: each register and each object is found in its
/// words, under a naming.
pub fn standing_is_meaning()
    ensures { (heap : HeapView) (s : State) → Stands heap s → Means (machine_of heap) s }
{}

/// What a walk over a heap shows has the dump of each state that the heap represents.
pub fn walks_show_states()
    ensures { DumpIsOfState }
{}

/// The objects of a world whose lines were accepted fit the quotas of its areas, so it can be loaded.
pub fn accepted_worlds_fit()
    ensures { (world : World) → IsAccepted world → FitsQuotas world }
{}

/// In each state that a heap represents there is a place for a new object that the quota of its area
/// allows, for objects that a collection moves, and for the pair that a cell becomes.
pub fn heaps_have_room()
    ensures { HeapsHaveRoom }
{}

/// A reclaim that no command requested reduces each area's account like one that a command requested: by
/// what was freed, and to at most what the definition retains.
pub fn reclaims_free_what_went()
    ensures { SilentRetains }
{}
