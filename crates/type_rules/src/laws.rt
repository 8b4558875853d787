//! Laws of what the types add.

ghost use Rattle.std.specs.Prelude.{ℕ, List, ◌≡◌, Ok, Some, slice_get};
ghost use Rattle.cpg_schema.specs.declared.caps.Caps.{Caps};
ghost use Rattle.cpg_schema.specs.Graph.{PlainGraph};
ghost use Rattle.cpg_schema.specs.Fitting.{IsGraph, PartsFit};
ghost use Rattle.cpg_schema.specs.Sequence.{seq};
ghost use Rattle.cpg_schema.specs.Shape.{IsShaped};
ghost use Rattle.type_rules.specs.TypeDeltas.{part_delta, type_parts};
ghost use Rattle.type_rules.specs.Types.{position_of, type_at, type_names};

/// What the types add fits every graph, and a shaped graph with it is shaped. No name of a type
/// stands twice, and the position to which the EVAL_TYPE of a node leads is that of its type.
pub fn law_types()
    ensures fit { (start : PlainGraph) → PartsFit start (part_delta start) type_parts }
    ensures shape { (caps : Caps) (start graph : PlainGraph) → IsShaped start →
        seq caps start (part_delta start) type_parts ≡ Ok graph → IsShaped graph }
    ensures once { (graph : PlainGraph) (first second : ℕ) (name : List ℕ) →
        slice_get (type_names graph) first ≡ Some name →
        slice_get (type_names graph) second ≡ Some name → first ≡ second }
    ensures own { (graph : PlainGraph) (node : ℕ) (name : List ℕ) →
        type_at graph node ≡ Some name →
        slice_get (type_names graph) (position_of (type_names graph) name) ≡ Some name }
{}
