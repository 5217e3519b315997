//! The memory image of a ground.
ghost use Rattle.lisp_ground.specs.Laws.{RegionsAreChains, UsedWordsAreChains, MarksAreKept, GroundIsMachine, FreshStands, CollectionsAgree};

/// The regions of the image are those of the table's chains: live, old, or free if they are in
/// none. The used words of a live class are those of its chain.
pub fn regions_are_chains()
    ensures regions { RegionsAreChains }
    ensures used { UsedWordsAreChains }
{}

/// What always holds of a ground is the invariant of each machine with that ground, whatever its
/// registers are and whatever remains to be scanned; the law of marks is the memory's.
pub fn grounds_are_machines()
    ensures ground { GroundIsMachine }
    ensures marks { MarksAreKept }
{}

/// The page of the latest transport and the level of a survivor are those of the table; a level is in
/// a set for each layer alike, and the classes that a flip of the table condemns are those of the state.
pub fn collections_agree()
    ensures { CollectionsAgree }
{}

/// A new memory and a new table of its regions represent a world without objects.
pub fn fresh_grounds_stand()
    ensures stands { FreshStands }
{}
