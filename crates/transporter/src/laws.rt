//! Laws of calls that follow one another.
ghost use Rattle.transporter.specs.Laws.{RunsMoveTogether, TransportsAddUp, UnchangedUnmarked};

/// What two calls, one after the other, may do, one call may do: there is a later map by which
/// each word that had a value has it, the same live words in a table that only grows, scanned words
/// that stay or are fresh, marks that follow the changes, and the transports of both together.
pub fn transports_add_up()
    ensures { TransportsAddUp }
{}

/// Lists stay compact: a transport moves a compact run of cells as a whole, and none of its cells
/// except the last becomes a pair.
pub fn runs_move_together()
    ensures { RunsMoveTogether }
{}

/// Marks follow the words' changes: a page each of whose words is as before has got no mark, even
/// if others were stored there in between.
pub fn unchanged_pages_get_no_marks()
    ensures { UnchangedUnmarked }
{}
