//! What the words of a ground show.
ghost use Rattle.word_graph.specs.Laws.{WordsShowObjects, WordsShowReached, WalksShowStates};

/// By any map by which a ground represents objects, its words show these objects by their places, and
/// what the registers reach is held.
pub fn words_show_objects()
    ensures { WordsShowObjects }
{}

/// What a walk over registers and what they reach requires, and what it may return.
pub fn words_show_what_is_reached()
    ensures { WordsShowReached }
{}

/// The graph that the words show is that of each state that they represent, and so is its dump.
pub fn walks_show_states()
    ensures { WalksShowStates }
{}
