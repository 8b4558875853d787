//! The edges of a graph by one of their ends, cut into the rows of nodes.

ghost use Rattle.std.specs.Prelude.{◌≡◌, ◌+◌, ◌<◌, ◌^◌, ◌&&◌, ◌==◌, filter, length, IfOk};
ghost use Rattle.std.specs.List.{All};
ghost use Rattle.cpg_schema.specs.Names.{kind_rank};
ghost use Rattle.edge_index.specs.Indexed.{AreInOrder};
ghost use Rattle.edge_index.specs.Rows.{seen, AreRows, AreStarts, IsSide};

use crate::direction::Direction;
use crate::grouping::grouped;
use crate::row::{of_kind, sort_rows};
use cpg_schema::EdgeKind;
use graph_store::{Edge, Graph};
use std::alloc::{AllocError, Global};

/// The edges by one of their ends, and for each node where its edges begin. Behind the last node's
/// start stands how many edges there are.
#[derive(Drop)]
pub(crate) struct Side {
    pub(crate) edges: Vec<Edge>,
    pub(crate) starts: Vec<u32>,
}

impl Side {
    /// The edges of a graph of `count` nodes, in order.
    pub(crate) fn of<D: Direction>(
        alloc: Global,
        graph: &Graph,
        count: u32,
    ) -> Result<Side, AllocError>
        requires inside { All (λ edge. D.near_of edge < count) graph.now.edges }
        requires few { length graph.now.edges < 2 ^ 32 }
        ensures len { IfOk result (λ side. length side.starts.items ≡ count + 1) }
        ensures order { IfOk result (λ side. AreInOrder (seen D.near_of D.far_of graph.now.names)
            graph.now.edges side.edges.items) }
        ensures side { IfOk result (λ side. IsSide D.near_of side.starts.items side.edges.items) }
    {
        let mut side = grouped::<D>(alloc, graph.edges(), count)?;
        sort_rows::<D>(graph, &mut side.edges, &side.starts);
        Ok(side)
    }

    /// The edges of a node and of this kind.
    pub(crate) fn of_kind<D: Direction>(&self, node: u32, kind: EdgeKind) -> &[Edge]
        requires side { IsSide D.near_of self.now.starts.items self.now.edges.items }
        requires inside { node + 1 < length self.now.starts.items }
        ensures { result.now ≡ filter (λ edge. (D.near_of edge == node)
            && (kind_rank edge.kind == kind_rank kind)) self.now.edges.items }
    {
        let from = self.starts[node as usize] as usize;
        let to = self.starts[node as usize + 1] as usize;
        of_kind(&self.edges[from..to], kind)
    }
}
