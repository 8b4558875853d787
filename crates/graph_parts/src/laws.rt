//! Laws of the parts of a graph: in a shaped graph there is at most one of each.

ghost use Rattle.std.specs.Prelude.{ℕ, ◌≡◌, ◌<◌, length};
ghost use Rattle.cpg_schema.specs.declared.label.Label.{Label};
ghost use Rattle.cpg_schema.specs.Graph.{PlainGraph};
ghost use Rattle.cpg_schema.specs.Fitting.{IsGraph};
ghost use Rattle.cpg_schema.specs.Shape.{IsShaped};
ghost use Rattle.graph_parts.specs.Parts.{IsArgument, IsChild, IsChildOf, IsNumbered, IsPart};
ghost use Rattle.graph_parts.specs.Finds.{Finds};
ghost use Rattle.graph_parts.specs.NodesAbove.{method_at, root_at};
ghost use Rattle.graph_parts.specs.Standing.{IsFileOf, IsMethodAbove, IsNearestAbove, IsRootOf};

/// A node has at most one part k, one child of a label, one number i of a label and one argument i,
/// in whatever graph.
pub fn law_one_part()
    ensures part { (graph : PlainGraph) (k parent first second : ℕ) →
        IsPart graph k parent first → IsPart graph k parent second → first ≡ second }
    ensures child { (graph : PlainGraph) (label : Label) (parent first second : ℕ) →
        IsChildOf graph label parent first → IsChildOf graph label parent second →
        first ≡ second }
    ensures numbered { (graph : PlainGraph) (label : Label) (i parent first second : ℕ) →
        IsNumbered graph label i parent first → IsNumbered graph label i parent second →
        first ≡ second }
    ensures argument { (graph : PlainGraph) (i call first second : ℕ) →
        IsArgument graph i call first → IsArgument graph i call second → first ≡ second }
{}

/// A node of a shaped graph has at most one parent.
pub fn law_one_parent()
    ensures { (graph : PlainGraph) → IsShaped graph → (node first second : ℕ) →
        IsChild graph first node → IsChild graph second node → first ≡ second }
{}

/// There is at most one nearest node of a label above a node of a shaped graph: so at most one
/// METHOD.
pub fn law_one_above()
    ensures { (graph : PlainGraph) → IsShaped graph → (label : Label) (node first second : ℕ) →
        IsNearestAbove graph label node first → IsNearestAbove graph label node second →
        first ≡ second }
{}

/// A node of a shaped graph has one root, and at most one file.
pub fn law_one_root()
    ensures one { (graph : PlainGraph) → IsShaped graph → (node first second : ℕ) →
        IsRootOf graph node first → IsRootOf graph node second → first ≡ second }
    ensures some { (graph : PlainGraph) → IsShaped graph → IsGraph graph → (node : ℕ) →
        (root : ℕ) × IsRootOf graph node root }
    ensures file { (graph : PlainGraph) → IsShaped graph → (node first second : ℕ) →
        IsFileOf graph node first → IsFileOf graph node second → first ≡ second }
{}

/// What a definition computes from the list of the nodes above one is the root of that node and the
/// METHOD in which it stands.
pub fn law_nodes_above()
    ensures root { (graph : PlainGraph) → IsShaped graph → IsGraph graph → (node : ℕ) →
        IsRootOf graph node (root_at graph node) }
    ensures method { (graph : PlainGraph) → IsShaped graph → IsGraph graph → (node : ℕ) →
        Finds (IsMethodAbove graph node) (method_at graph node) }
{}
