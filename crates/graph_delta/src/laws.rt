//! Laws by which a pass shows its own, and what follows from them of its parts in a row.

ghost use Rattle.std.specs.Prelude.{ℕ, ◌≡◌, ◌<◌, ◌≤◌, [], Ok};
ghost use Rattle.std.specs.List.{All};
ghost use Rattle.cpg_schema.specs.declared.caps.Caps.{Caps};
ghost use Rattle.cpg_schema.specs.declared.edge_kind.EdgeKind.TheVariants.{Ast};
ghost use Rattle.cpg_schema.specs.Graph.{PlainGraph};
ghost use Rattle.cpg_schema.specs.Deltas.{PlainDelta};
ghost use Rattle.cpg_schema.specs.Fitting.{Fits, IsGraph, PartsFit};
ghost use Rattle.cpg_schema.specs.Sequence.{seq};
ghost use Rattle.cpg_schema.specs.Shape.{IsShaped};

/// Where the deltas of all parts fit the graph at the start, each fits the graph after the parts
/// before it, and after so many parts the graph is well formed as it was.
pub fn law_parts_fit()
    ensures fits { (caps : Caps) (start : PlainGraph) (delta_of : ℕ → PlainDelta) (parts : ℕ) →
        PartsFit start delta_of parts → (part : ℕ) → part < parts → (graph : PlainGraph) →
        seq caps start delta_of part ≡ Ok graph → Fits graph (delta_of part) }
    ensures graph { (caps : Caps) (start : PlainGraph) (delta_of : ℕ → PlainDelta) (parts : ℕ) →
        PartsFit start delta_of parts → IsGraph start →
        (part : ℕ) → part ≤ parts → (graph : PlainGraph) →
        seq caps start delta_of part ≡ Ok graph → IsGraph graph }
{}

/// Where no part sets a property at a node of the graph, it is enough that each delta fits the
/// graph at the start.
pub fn law_parts_fit_alone()
    ensures { (start : PlainGraph) (delta_of : ℕ → PlainDelta) (parts : ℕ) →
        ((part : ℕ) → part < parts → (delta_of part).settings ≡ []) →
        ((part : ℕ) → part < parts → Fits start (delta_of part)) →
        PartsFit start delta_of parts }
{}

/// Where no part adds an AST edge, a shaped graph stays shaped.
pub fn law_stays_shaped()
    ensures { (caps : Caps) (start : PlainGraph) (delta_of : ℕ → PlainDelta) (parts : ℕ) →
        IsShaped start →
        ((k : ℕ) → k < parts → All (λ edge. ¬ (edge.kind ≡ Ast)) (delta_of k).edges) →
        (graph : PlainGraph) → seq caps start delta_of parts ≡ Ok graph → IsShaped graph }
{}
