//! The law of dumps as files.
ghost use Rattle.std.specs.Prelude.{◌≡◌, ℕ, List, Ok};
ghost use Rattle.lisp_graph.specs.store_word.declared.space.Space.{Space};
ghost use Rattle.lisp_graph.specs.declared.world.AreaRule.{AreaRule};
ghost use Rattle.lisp_graph.specs.KeyedGraph.{KeyedGraph};
ghost use Rattle.world_text.specs.Dump.{IsDump};
ghost use Rattle.line_input.specs.WorldFile.{verdict};
ghost use Rattle.file_modes.specs.dump_laws.Back.{KeepsLimits, read_world};

/// A dump is a world file: the verdict on its text, read as a file, is the world that its lines say, with the objects in the order of the
/// dump. Required: the space and the areas are those of an accepted world, the objects keep the limits of a machine, and their charges as
/// read fit the quotas.
pub fn dumps_are_world_files()
    ensures { (graph : KeyedGraph) (space : Space) (areas : List AreaRule) (text : List ℕ) → (dump : IsDump graph space areas text)
        → KeepsLimits graph dump.keys space areas → verdict text ≡ Ok (read_world graph dump.keys space areas) }
{}
