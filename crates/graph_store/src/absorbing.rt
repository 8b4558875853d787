//! A delta is added to a graph, which takes over its memory.

ghost use Rattle.std.specs.Prelude.{◌≡◌, ◌↔◌, ◌<◌, [], Some, IsTrue, length, map, OnOk, OnErr};
ghost use Rattle.cpg_schema.specs.Fitting.{Fits};
ghost use Rattle.graph_store.specs.Stored.{Grows, plain};
ghost use Rattle.graph_store.specs.GrownRows.{edge_within};
ghost use Rattle.cpg_schema.specs.Sequence.{Cap, cap_met};

use crate::applying::{ApplyStop, apply};
use crate::delta::Delta;
use crate::delta_row::{NewEdgeRow, SettingRow};
use crate::edge::Edge;
use crate::graph::Graph;
use crate::names::Names;
use crate::node_row::NodeRow;

/// Adds a delta to a graph, as `apply` does, and gives back its memory. A graph without nodes takes
/// over the delta's names, nodes and edges, which begin with the empty name as its own do.
pub fn absorb(graph: &mut Graph, delta: Delta) -> Result<(), ApplyStop>
    requires { Fits (plain graph.old) delta }
    ensures ok { OnOk result (Grows graph.old graph.new delta) }
    ensures err { OnErr result (graph.new ≡ graph.old) }
    ensures too_many_nodes { (result ≡ Err ApplyStop.TooManyNodes)
        ↔ (cap_met graph.old.caps (plain graph.old) delta ≡ Some Cap.nodes) }
    ensures too_many_edges { (result ≡ Err ApplyStop.TooManyEdges)
        ↔ (cap_met graph.old.caps (plain graph.old) delta ≡ Some Cap.edges) }
{
    if !is_bare(&graph.nodes, &graph.edges, &graph.names)
        || !is_apart(&delta.edges, &delta.settings, &delta.names)
    {
        return apply(graph, &delta);
    }
    if delta.nodes.len() > graph.caps.nodes as usize - graph.nodes.len() {
        return Err(ApplyStop::TooManyNodes);
    }
    if delta.fresh.len() + delta.edges.len() > graph.caps.edges as usize - graph.edges.len() {
        return Err(ApplyStop::TooManyEdges);
    }
    let Delta {
        names,
        nodes,
        mut fresh,
        ..
    } = delta;
    name_variables(&mut fresh, names.len());
    graph.names = names;
    graph.nodes = nodes;
    graph.edges = fresh;
    Ok(())
}

/// Whether a graph has no nodes, no edges and no name but the empty one.
fn is_bare(nodes: &[NodeRow], edges: &[Edge], names: &Names) -> bool
    ensures { IsTrue result →
        (nodes.now ≡ []) × (edges.now ≡ []) × (length names.now ≡ 1) }
{
    nodes.is_empty() && edges.is_empty() && names.len() == 1
}

/// Whether a delta has nothing to do with nodes of a graph, and has names.
fn is_apart(others: &[NewEdgeRow], settings: &[SettingRow], names: &Names) -> bool
    ensures { IsTrue result →
        (others.now ≡ []) × (settings.now ≡ []) × (0 < length names.now) }
{
    others.is_empty() && settings.is_empty() && names.len() > 0
}

/// Gives edges the number of the empty name for the variables that are none of so many names.
fn name_variables(edges: &mut [Edge], count: u32)
    ensures { edges.new ≡ map (edge_within count) edges.old }
{
    for edge in edges.iter_mut() {
        *edge = within(*edge, count);
    }
}

/// The edge with a variable that is one of so many names.
fn within(edge: Edge, count: u32) -> Edge
    ensures { result ≡ edge_within count edge }
{
    let variable = if edge.variable < count {
        edge.variable
    } else {
        0
    };
    Edge { variable, ..edge }
}
