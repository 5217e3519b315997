//! Laws of verdicts.
ghost use Rattle.std.specs.Prelude.{ℕ, List};
ghost use Rattle.lisp_graph.specs.store_word.declared.space.Space.{Space};
ghost use Rattle.lisp_graph.specs.declared.world.AreaRule.{AreaRule};
ghost use Rattle.lisp_graph.specs.KeyedGraph.{KeyedGraph};
ghost use Rattle.world_text.specs.Dump.{IsDump};
ghost use Rattle.dump_laws.specs.Back.{KeepsLimits};
ghost use Rattle.input_verdict.specs.Asking.{IsWholeInput};

/// A dump is the world of a whole input: the verdict on its lines before `end-world`, followed by `trace`, `dump` and `end`,
/// is that they are whole, with a world whose dump is the same text, and with one command, `dump`. Required: the space and the areas
/// are those of an accepted world, the objects keep the limits of a machine, and their charges as read fit the quotas.
pub fn dumps_are_whole_inputs()
    ensures { (graph : KeyedGraph) (space : Space) (areas : List AreaRule) (text : List ℕ) → (dump : IsDump graph space areas text)
        → KeepsLimits graph dump.keys space areas → IsWholeInput graph dump.keys space areas text }
{}
