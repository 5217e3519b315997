//! Worked runs, and runs and images that are refused, so that a wrong definition is noticed.
ghost use Rattle.lisp_meaning.specs.examples.Worked.{WorkedExamples};
ghost use Rattle.lisp_meaning.specs.examples.Refused.{RefusedExamples, RefusedSilentSteps, RefusedWork};
ghost use Rattle.lisp_meaning.specs.examples.Misread.{RefusedImages};

/// Whole inputs with the answers that some run shows to them: an exact quota, RPLACD in a full area, a list whose front is dropped, space regained, a program that works during a collection, the phases, the last level, refusals, both forwards, a grown block, silent steps, two levels, swap errors, and a circular list; and words: the end of a chain of forwards, and the unit that is next.
pub fn worked_examples()
    ensures { WorkedExamples }
{}

/// Runs that no machine may show: a collection that has paid and isn't finished, one that a `set` finishes, one that is finished and then isn't, more base pages than there are, names that are freed or kept against the rules, survivors at another level, swap errors that change something, finish a collection or occur in a command that can't meet one, and quotas that aren't exact; and words that are stale, or that may not remain to be scanned.
pub fn refused_examples()
    ensures { RefusedExamples }
{}

/// Runs that no machine may show: a silent step is omitted, is taken before the wrong command, or condemns another level.
pub fn refused_silent_steps()
    ensures { RefusedSilentSteps }
{}

/// Runs that no machine may show: a collection has paid all that it owes and yet isn't finished; a weaker rule would owe more or pay less.
pub fn refused_work()
    ensures { RefusedWork }
{}

/// Images that represent no state, each wrong in one point, beside one that is right in it: words of two objects, regions half full, words above a used end, words of husks, marks of a page, references to free regions, units to scan, accounts, classes, the phase, and what is owed.
pub fn refused_images()
    ensures { RefusedImages }
{}
