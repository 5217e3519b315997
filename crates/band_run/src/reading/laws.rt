//! A law of all inputs.
ghost use Rattle.band_run.specs.Spelled.{AcceptsSpellings};

/// An input is accepted if and only if it is a spelling of its commands: the lines of these commands, whose names are valid and whose
/// saves have whole world files, and then `end` with or without its line feed, in at most 2^40 bytes.
pub fn inputs_are_spelled()
    ensures { AcceptsSpellings }
{}
