//! Laws of what the parts add.

ghost use Rattle.std.specs.Prelude.{◌≡◌, Ok};
ghost use Rattle.cpg_schema.specs.declared.caps.Caps.{Caps};
ghost use Rattle.cpg_schema.specs.Graph.{PlainGraph};
ghost use Rattle.cpg_schema.specs.Fitting.{IsGraph, PartsFit};
ghost use Rattle.cpg_schema.specs.Sequence.{seq};
ghost use Rattle.cpg_schema.specs.Shape.{IsShaped};
ghost use Rattle.unit_rules.specs.UnitDeltas.{part_delta, unit_parts};

/// The deltas of all parts fit a well-formed shaped graph, and the graph with them is shaped.
pub fn law_units()
    ensures fit { (start : PlainGraph) → IsGraph start → IsShaped start →
        PartsFit start (part_delta start) (unit_parts start) }
    ensures shape { (caps : Caps) (start graph : PlainGraph) → IsGraph start → IsShaped start →
        seq caps start (part_delta start) (unit_parts start) ≡ Ok graph → IsShaped graph }
{}
