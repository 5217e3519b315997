//! A worked text, so that a wrong definition is noticed.
ghost use Rattle.inside_text.specs.Example.{IsWorked};

/// The text of a heap after the first transport of a collection, to the byte.
pub fn text_is_as_worked()
    ensures { IsWorked }
{}
