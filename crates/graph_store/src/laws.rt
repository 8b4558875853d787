//! What is so of every graph.

ghost use Rattle.graph_store.specs.Stored.{IsStored};

use crate::graph::Graph;

/// A graph keeps to its caps and is well formed, and its names are pooled once each. This does
/// nothing when it runs.
pub fn law_stored(graph: &Graph)
    ensures { IsStored graph.now }
{
    let _nodes = graph.caps.nodes;
    let _edges = graph.caps.edges;
    graph.names.law_distinct();
}
