//! The law of prints.
ghost use Rattle.sexpr_laws.specs.Compiled.{EachPrintIsCompiledBack};

/// The print of a world is compiled to a world that has the same dump. So it is for each world that the lines of a world file, or
/// those of an input before `trace`, mean; for each accepted world file; and for each accepted world whose integers fit their types.
pub fn prints_are_compiled_back()
    ensures { EachPrintIsCompiledBack }
{}
