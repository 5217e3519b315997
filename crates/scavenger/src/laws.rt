//! Laws of scans.
ghost use Rattle.scavenger.specs.Laws.{CleanStays, NextIsDefined, ScansOnce, UnitsCome, UnitsStay};

/// A scan goes on over a call that preserves the ground: it stays clean, and what the call places remains to be scanned.
pub fn scans_go_on()
    ensures stays_sound { CleanStays }
    ensures units { UnitsStay }
    ensures going { UnitsCome }
{}

/// The next unit is the one that the definition of collections scans next.
pub fn next_is_defined()
    ensures { NextIsDefined }
{}

/// No unit is scanned twice.
pub fn scans_are_once()
    ensures { ScansOnce }
{}
