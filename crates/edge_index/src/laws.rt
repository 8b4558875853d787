//! Laws of an index, for those who use it beside the graph of which it was made.

ghost use Rattle.std.specs.Prelude.{ℕ, ◌≡◌, map};
ghost use Rattle.cpg_schema.specs.declared.edge_kind.EdgeKind.{EdgeKind as Kind};
ghost use Rattle.cpg_schema.specs.Order.{in_order};
ghost use Rattle.graph_store.specs.Stored.{plain, plain_edge, IsStored, StoredGraph};
ghost use Rattle.edge_index.specs.NodeEdges.{edges_from, edges_to};
ghost use Rattle.edge_index.specs.Indexed.{all_edges, into_edges, out_edges, Indexed, IsIndexOf};
ghost use Rattle.edge_index.specs.Indexed.{LendsWithin};

/// What an index lends, with names in place of their numbers, are the plain graph's edges of that
/// node and kind, each once and in order.
pub fn law_node_edges()
    ensures out { (graph : StoredGraph) (index : Indexed) → IsIndexOf graph index →
        (id : ℕ) (kind : Kind) → map (plain_edge graph.names) (out_edges index id kind)
        ≡ edges_from (plain graph) id kind }
    ensures into { (graph : StoredGraph) (index : Indexed) → IsIndexOf graph index →
        (id : ℕ) (kind : Kind) → map (plain_edge graph.names) (into_edges index id kind)
        ≡ edges_to (plain graph) id kind }
{}

/// The edges that leave each node, one node after another and within a node one kind after another,
/// are all edges that the index lends: the plain graph's, in the order of printing.
pub fn law_all_edges()
    ensures leaving { (graph : StoredGraph) (index : Indexed) → IsStored graph →
        IsIndexOf graph index → all_edges index ≡ index.leaving }
    ensures printed { (graph : StoredGraph) (index : Indexed) → IsStored graph →
        IsIndexOf graph index →
        map (plain_edge graph.names) (all_edges index) ≡ in_order (plain graph).edges }
{}

/// What an index lends has nodes and names of its graph.
pub fn law_within()
    ensures { (graph : StoredGraph) (index : Indexed) → IsStored graph → IsIndexOf graph index →
        LendsWithin graph index }
{}
