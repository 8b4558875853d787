//! The order of the edges of one node.

ghost use Rattle.std.specs.Prelude.{◌≡◌, ◌-◌, ◌<◌, ◌==◌, [], filter, length, map};
ghost use Rattle.std.specs.Prelude.{slice_index_or, IsPermutation};
ghost use Rattle.std.specs.List.{All};
ghost use Rattle.std.specs.List.Sorted.{IsNonDecreasingBy};
ghost use Rattle.std.specs.Ordering.{nat_cmp};
ghost use Rattle.std.specs.Cmp.Lexicographic.{slice_cmp};
ghost use Rattle.cpg_schema.specs.Names.{kind_rank};
ghost use Rattle.cpg_schema.specs.Order.{edge_cmp, in_order};
ghost use Rattle.edge_index.specs.Rows.{seen, AreGrouped, AreRows, AreStarts};

use crate::direction::Direction;
use cpg_schema::EdgeKind;
use cpg_schema::laws::law_only_order;
use graph_store::{Edge, Graph};
use std::cmp::Ordering;

/// By the names of variables.
fn by_name(graph: &Graph, a: u32, b: u32) -> Ordering
    ensures { result ≡ slice_cmp nat_cmp (slice_index_or graph.now.names a [])
        (slice_index_or graph.now.names b []) }
{
    graph.variable_name(a).cmp(graph.variable_name(b))
}

/// By the near end, the kind, the far end and the variable's name.
fn compare<D: Direction>(graph: &Graph, a: &Edge, b: &Edge) -> Ordering
    ensures { result ≡ edge_cmp (seen D.near_of D.far_of graph.now.names a.now)
        (seen D.near_of D.far_of graph.now.names b.now) }
{
    let ends = D::near(a)
        .cmp(&D::near(b))
        .then(a.kind.rank().cmp(&b.kind.rank()))
        .then(D::far(a).cmp(&D::far(b)));
    match ends {
        Ordering::Equal => by_name(graph, a.variable, b.variable),
        other => other,
    }
}

/// Puts the edges of a node in order.
pub(crate) fn sort_row<D: Direction>(graph: &Graph, row: &mut [Edge])
    ensures order { map (seen D.near_of D.far_of graph.now.names) row.new
        ≡ in_order (map (seen D.near_of D.far_of graph.now.names) row.old) }
    ensures permutation { IsPermutation row.old row.new }
{
    law_only_order();
    if row.len() > 1 {
        row.sort_unstable_by(|a, b| compare::<D>(graph, a, b));
    }
}

/// Puts the edges of each node in order.
pub(crate) fn sort_rows<D: Direction>(graph: &Graph, edges: &mut [Edge], starts: &[u32])
    requires some { 0 < length starts.now }
    requires inside { All (λ edge. D.near_of edge < length starts.now - 1) graph.now.edges }
    requires starts { AreStarts D.near_of graph.now.edges starts.now }
    requires grouped { AreGrouped D.near_of graph.now.edges edges.old }
    ensures rows { AreRows D.near_of D.far_of graph.now.names (length starts.now - 1)
        graph.now.edges edges.new }
    ensures permutation { IsPermutation graph.now.edges edges.new }
{
    for node in 1..starts.len() {
        let from = starts[node - 1] as usize;
        let to = starts[node] as usize;
        sort_row::<D>(graph, &mut edges[from..to]);
    }
}

/// The edges of a kind, of a node's edges in order.
pub(crate) fn of_kind(row: &[Edge], kind: EdgeKind) -> &[Edge]
    requires { IsNonDecreasingBy (λ edge. kind_rank edge.kind) row.now }
    ensures { result.now ≡ filter (λ edge. kind_rank edge.kind == kind_rank kind) row.now }
{
    let rank = kind.rank();
    let begin = row.partition_point(|edge| edge.kind.rank() < rank);
    let end = row.partition_point(|edge| edge.kind.rank() <= rank);
    &row[begin..end]
}
