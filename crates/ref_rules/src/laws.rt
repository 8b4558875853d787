//! Laws of what the names add.

ghost use Rattle.std.specs.Prelude.{◌≡◌, Ok};
ghost use Rattle.cpg_schema.specs.declared.caps.Caps.{Caps};
ghost use Rattle.cpg_schema.specs.Graph.{PlainGraph};
ghost use Rattle.cpg_schema.specs.Fitting.{PartsFit};
ghost use Rattle.cpg_schema.specs.Sequence.{seq};
ghost use Rattle.cpg_schema.specs.Shape.{IsShaped};
ghost use Rattle.ref_rules.specs.RefDeltas.{part_delta, ref_parts};

/// What the names add fits every graph, and a shaped graph with it is shaped.
pub fn law_refs()
    ensures fit { (start : PlainGraph) → PartsFit start (part_delta start) (ref_parts start) }
    ensures shape { (caps : Caps) (start graph : PlainGraph) → IsShaped start →
        seq caps start (part_delta start) (ref_parts start) ≡ Ok graph → IsShaped graph }
{}
