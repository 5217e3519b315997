//! Each kind of change of the memory keeps the invariant.
ghost use Rattle.lisp_meaning.specs.keeping.Allocation.{AllocationKeeps};
ghost use Rattle.lisp_meaning.specs.keeping.Collecting.{CollectionsKeep};
ghost use Rattle.lisp_meaning.specs.keeping.Rewriting.{StoresKeep};
ghost use Rattle.lisp_meaning.specs.keeping.Transport.{TransportKeeps};

/// A new cons, block or list, written to blank words, charged to its class and within the quota of its area, keeps the invariant.
pub fn allocation_keeps_the_invariant()
    ensures { AllocationKeeps }
{}

/// A transport keeps the invariant: of a block; of a pair, with the cells before it; of the cells up to the end of a list; and of cells the rest of whose list is elsewhere. At most 1,024 cells follow each other.
pub fn transport_keeps_the_invariant()
    ensures { TransportKeeps }
{}

/// A store into a part of an object keeps the invariant, and so do a change of a word's content to another with the same value, the relocation of a cell as a pair, and the growth of a block.
pub fn stores_keep_the_invariant()
    ensures { StoresKeep }
{}

/// A flip and a reclaim keep the invariant, each for the state after the command; and a state for which the invariant holds is sound.
pub fn collections_keep_the_invariant()
    ensures { CollectionsKeep }
{}
