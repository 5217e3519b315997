//! What the words at an object's place mean.
ghost use Rattle.lisp_ground.specs.Laws.{WordsAgree, FinalsArePlaces, ChargesAreWords, CellsHaveRuns, RunEndsAre};
ghost use Rattle.lisp_ground.specs.Leading.{ReferencesLead};

/// Both layers read from words the same forwards, the same final addresses, and the same number of
/// words of an object.
pub fn words_are_read_alike()
    ensures words { WordsAgree }
{}

/// Each address that a reference may have has a final address, which is the place of its object.
pub fn finals_are_places()
    ensures places { FinalsArePlaces }
{}

/// A reference leads to the object that it names; a cons and a block have their parts in the words at
/// their places.
pub fn references_lead_to_objects()
    ensures { ReferencesLead }
{}

/// The words of an object show its charge, and are all in the memory.
pub fn charges_are_words()
    ensures { ChargesAreWords }
{}

/// A compact run of at most 1,024 cells begins at each cell, and its end shows how its cells may move.
pub fn cells_have_runs()
    ensures cells { CellsHaveRuns }
    ensures end { RunEndsAre }
{}
