//! The calls of a ground keep the state that it represents, or change it as they should.
ghost use Rattle.lisp_ground.specs.Laws.{PlaceKeeps, PlacesHaveRoom, CommitsAreAllowed, WordsKeepGrounds};
ghost use Rattle.lisp_ground.specs.Making.{NewObjectsKeepGrounds};
ghost use Rattle.lisp_ground.specs.Rewriting.{StoresChangeObjects, ObjectsAreRelocated};
ghost use Rattle.lisp_ground.specs.Collecting.{CollectionsKeepMachines};

/// A place keeps the objects that the ground represents, whether a region is opened for it or not.
pub fn places_keep_grounds()
    ensures { PlaceKeeps }
{}

/// There is room for the words of a new object that fits the quota of its area, of objects that move
/// out of an old class, and for the two of a cell that becomes a pair.
pub fn places_have_room()
    ensures { PlacesHaveRoom }
{}

/// The table's account of an area is that of its objects, so what fits the quota may be committed,
/// and so may what moves out of an old class; its total of a level is that of the level's objects
/// and husks while no collection runs.
pub fn commits_are_allowed()
    ensures { CommitsAreAllowed }
{}

/// Reads, holds and evictions keep the objects that the ground represents, and so does a store of a
/// word that has a value, if the image keeps them.
pub fn words_keep_grounds()
    ensures { WordsKeepGrounds }
{}

/// Words that are placed, committed and written, in any order, are a new pair, a new block or the
/// cells of a new list.
pub fn new_objects_keep_grounds()
    ensures { NewObjectsKeepGrounds }
{}

/// A store into a car, a cdr or a field changes that part of the object, and another content with the
/// same value changes none.
pub fn stores_change_objects()
    ensures { StoresChangeObjects }
{}

/// A cell that is relocated is a pair with another cdr, and a block that is relocated a wider one,
/// whose old words are a husk.
pub fn objects_are_laid_anew()
    ensures { ObjectsAreRelocated }
{}

/// A flip leads to the flipped state, and a reclaim after the scan to a state in which the collection
/// has ended; before it no word outside old regions has an address in one.
pub fn flips_and_reclaims_keep_machines()
    ensures { CollectionsKeepMachines }
{}
