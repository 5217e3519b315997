//! Laws on every census.
ghost use Rattle.std.specs.Prelude.{ℕ, List, map};
ghost use Rattle.lisp_graph.specs.Graph.{Graph, IsGraph};
ghost use Rattle.lisp_graph.specs.KeyedGraph.{KeyedGraph, keyed};
ghost use Rattle.dump_laws.specs.Renamed.{HasSameCharges, IsRenamed};
ghost use Rattle.why_held.specs.declared.rows.CensusRow.{CensusRow as row};
ghost use Rattle.why_held.specs.Census.{IsCensus, counted_object};
ghost use Rattle.why_held.specs.CensusText.{IsPart};
ghost use Rattle.why_held.specs.Reached.{AreReached, IsReachedCensus, counted_key};

/// A graph that shows the same objects by other keys, with the same charges, has the same census.
pub fn censuses_are_of_objects()
    ensures { (name : ℕ → ℕ) (graph other : KeyedGraph) (rows : List row) → (census : IsReachedCensus graph rows)
        → IsRenamed name census.keys graph other → HasSameCharges name census.keys graph other → IsReachedCensus other rows }
{}

/// The objects that the registers of a world reach are among all its objects: each of their rows has a row of all objects of its
/// kind, which counts and charges no less.
pub fn reached_objects_are_counted()
    ensures { (graph : Graph) (keys : List ℕ) (rows some : List row) → IsGraph graph → AreReached (keyed graph) keys → IsCensus (map counted_object graph.objects) rows
        → IsCensus (map (counted_key (keyed graph)) keys) some → IsPart (map (counted_key (keyed graph)) keys) rows some }
{}
