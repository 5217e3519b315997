//! What holds of the commands' effects, whoever runs them.
ghost use Rattle.lisp_graph.specs.Laws.{EffectsKeepGraphs};

/// No command of the program makes a reference dangle or removes an object, and `eq` reports whether values are equal.
pub fn effects_keep_graphs()
    ensures { EffectsKeepGraphs }
{}
