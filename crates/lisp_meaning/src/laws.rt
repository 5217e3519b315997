//! Laws of all states, all runs and all memory images.
ghost use Rattle.lisp_meaning.specs.Laws.{EveryCommandIsAnswered, RunsFollowTheGraph, IsLeastClosure, SettleLosesNone, Retention};
ghost use Rattle.lisp_meaning.specs.Laws.{InvariantStands, MeansOne, StandingIsSound, RoomSuffices, EmptyStands, NextUnitIsLeft, NextUnitIsUsed};

/// From the opening state of a whole world on, every command has an answer, and every list of commands within a machine's limits has a run.
pub fn every_command_is_answered()
    ensures { EveryCommandIsAnswered }
{}

/// The replies to a program depend on registers and objects alone: a run has the replies and the effect that it would have on a graph that is never moved or collected, except
/// for commands that are refused, because of a quota or a swap error; these change no register and no object.
pub fn runs_follow_the_graph()
    ensures { RunsFollowTheGraph }
{}

/// The closure of a set of names is the least closed set above it.
pub fn closure_is_least()
    ensures { IsLeastClosure }
{}

/// A collection loses no name that is reachable from the registers and the names that weren't condemned.
pub fn settle_loses_no_reachable_name()
    ensures { SettleLosesNone }
{}

/// An area's account after a collection is what it was before, less what was freed; and at most its husks that weren't condemned, and the charges of the names that weren't
/// condemned or are bound.
pub fn settle_frees_what_went()
    ensures { Retention }
{}

/// If the invariant holds of a machine, a role map and a state, the machine represents the state.
pub fn invariant_gives_meaning()
    ensures { InvariantStands }
{}

/// If a machine represents a state: a word represents at most one value, the state is sound, and the used words of an area are at most twice its quota.
pub fn meaning_is_sound()
    ensures value { MeansOne }
    ensures sound { StandingIsSound }
    ensures room { RoomSuffices }
{}

/// An empty machine represents the opening state of a world without objects.
pub fn empty_machine_stands()
    ensures stands { EmptyStands }
{}

/// A collection has a next unit if and only if a unit remains to be scanned, and it is one of those; while a collection runs, the next unit, if it is a word, is a used word
/// of a live region.
pub fn next_unit_is_left()
    ensures left { NextUnitIsLeft }
    ensures used { NextUnitIsUsed }
{}
