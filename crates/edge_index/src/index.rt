//! The index of a graph, and what it lends.

ghost use Rattle.std.specs.Prelude.{◌≡◌, ◌<◌, IfOk};
ghost use Rattle.graph_store.specs.Stored.{plain_edge};
ghost use Rattle.edge_index.specs.Indexed.{into_edges, out_edges, AreInOrder, IsIndexOf};

use crate::direction::{Arriving, Leaving};
use crate::side::Side;
use cpg_schema::EdgeKind;
use graph_store::laws::law_stored;
use graph_store::{Edge, Graph};
use std::alloc::{AllocError, Global};
use std::marker::Model;

/// The edges of each node of a graph, those that leave it and those that arrive at it.
///
/// Contracts see how many nodes the graph has, and its edges in two orders. It holds numbers of
/// nodes and of names, and is used beside the graph of which it was made.
#[derive(Drop)]
pub struct Index {
    node_count: u32,
    leaving: Side,
    arriving: Side,
}

impl Model for Index {
    ghost use Rattle.edge_index.specs.Indexed.{Indexed};
    ghost use Rattle.edge_index.specs.Kept.{IsKept};

    ghost Value = { Indexed };

    ghost view = { λ index. record {
      node_count = index.node_count;
      leaving = index.leaving.edges.items;
      arriving = index.arriving.edges.items;
    } };

    ghost invariant = { λ index. IsKept index.node_count index.leaving index.arriving };
}

/// The index of a graph.
///
/// It takes time linear in nodes and edges but for the sorting of each node's edges, which are few
/// or come nearly in order; and memory for two copies of the edges.
pub fn index_of(alloc: Global, graph: &Graph) -> Result<Index, AllocError>
    ensures { IfOk result (IsIndexOf graph.now) }
{
    law_stored(graph);
    let node_count = graph.len();
    Ok(Index {
        node_count,
        leaving: Side::of::<Leaving>(alloc, graph, node_count)?,
        arriving: Side::of::<Arriving>(alloc, graph, node_count)?,
    })
}

/// All edges of a graph in the order of printing: by from, kind, to and the variable's name.
///
/// Whoever only prints a graph needs no more of its index. It takes memory for one copy of the
/// edges, and the time of one of the index's two sides.
pub fn edges_in_order(alloc: Global, graph: &Graph) -> Result<Vec<Edge>, AllocError>
    ensures { IfOk result (λ edges.
        AreInOrder (plain_edge graph.now.names) graph.now.edges edges.items) }
{
    law_stored(graph);
    let Side { edges, starts: _ } = Side::of::<Leaving>(alloc, graph, graph.len())?;
    Ok(edges)
}

impl Index {
    /// The edges of this kind from a node, rising by `to` and then by the variable's name.
    ///
    /// They are found in time logarithmic in how many edges leave the node.
    pub fn out(&self, id: u32, kind: EdgeKind) -> &[Edge]
        requires { id < self.now.node_count }
        ensures { result.now ≡ out_edges self.now id kind }
    {
        self.leaving.of_kind::<Leaving>(id, kind)
    }

    /// The edges of this kind to a node, rising by `from` and then by the variable's name.
    ///
    /// They are found in time logarithmic in how many edges arrive at the node.
    pub fn into(&self, id: u32, kind: EdgeKind) -> &[Edge]
        requires { id < self.now.node_count }
        ensures { result.now ≡ into_edges self.now id kind }
    {
        self.arriving.of_kind::<Arriving>(id, kind)
    }

    /// All edges in the order of printing: by from, kind, to and the variable's name.
    pub fn edges(&self) -> &[Edge]
        ensures { result.now ≡ self.now.leaving }
    {
        self.leaving.edges.as_slice()
    }
}
