//! The law.
ghost use Rattle.census_laws.specs.Censuses.{CensusesAreOfStates};

/// A census of what is reached in the graph that the words of a heap show is a census of what the registers reach in each state that
/// the heap represents.
pub fn censuses_are_of_states()
    ensures { CensusesAreOfStates }
{}
