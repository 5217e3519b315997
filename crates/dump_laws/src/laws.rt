//! Laws of dumps.
ghost use Rattle.std.specs.Prelude.{◌≡◌, ℕ, List};
ghost use Rattle.trace_text.specs.store_word.declared.space.Space.{Space};
ghost use Rattle.trace_text.specs.lisp_graph.declared.world.AreaRule.{AreaRule};
ghost use Rattle.trace_text.specs.lisp_graph.declared.world.World.{World};
ghost use Rattle.trace_text.specs.lisp_graph.KeyedGraph.{KeyedGraph, keyed};
ghost use Rattle.trace_text.specs.lisp_graph.World.{opening};
ghost use Rattle.trace_text.specs.world_text.Dump.{IsDump};
ghost use Rattle.dump_laws.specs.Renamed.{GraphsHaveOneDump};
ghost use Rattle.dump_laws.specs.Back.{IsReadBack, KeepsLimits};
ghost use Rattle.dump_laws.specs.Written.{dumped};

/// A graph has one dump, and a graph that shows the same by other keys has the same one.
pub fn graphs_have_one_dump()
    ensures { GraphsHaveOneDump }
{}

/// What a dump of a world contains is a function of the world.
pub fn dumps_are_functions()
    ensures { (world : World) (text : List ℕ) → IsDump (keyed (opening world)) world.space world.areas text → text ≡ dumped world }
{}

/// The lines of a dump are accepted, as a world file, and with `trace`, `dump` and `end` instead of `end-world` as an input; the
/// world that they mean has the same dump. Required: the space and the areas are those of an accepted world, the objects are
/// within the limits of a machine, and their charges as read fit the quotas.
pub fn dumps_are_read_back()
    ensures { (graph : KeyedGraph) (space : Space) (areas : List AreaRule) (text : List ℕ) → (dump : IsDump graph space areas text)
        → KeepsLimits graph dump.keys space areas → IsReadBack graph dump.keys space areas text }
{}
