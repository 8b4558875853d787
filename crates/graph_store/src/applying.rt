//! A delta is added to a graph.

ghost use Rattle.std.specs.Prelude.{◌≡◌, ◌↔◌, ◌+◌, ◌<◌, ◌≤◌, ◌^◌, ◌++◌, Some, length, map};
ghost use Rattle.std.specs.Prelude.{vec_capacity, OnOk, OnErr};
ghost use Rattle.std.specs.List.{All};
ghost use Rattle.cpg_schema.specs.Fitting.{Fits};
ghost use Rattle.graph_store.specs.Stored.{Grows, plain};
ghost use Rattle.graph_store.specs.Rows.{renumbered};
ghost use Rattle.graph_store.specs.DeltaRows.{edge_rows, fresh_row};
ghost use Rattle.graph_store.specs.GrownRows.{HasSmallEnds, edge_of_row, end_row_number};
ghost use Rattle.graph_store.specs.GrownRows.{row_with_value, rows_with_settings};
ghost use Rattle.cpg_schema.specs.Sequence.{Cap, cap_met};

use crate::delta::Delta;
use crate::delta_row::{EndRow, NewEdgeRow, SettingRow, ValueRow};
use crate::edge::Edge;
use crate::graph::Graph;
use crate::names::NO_NAME;
use crate::node_row::{NodeRow, renumber};
use std::alloc::AllocError;

/// Why a delta was not applied.
#[derive(Clone, Copy, Debug, PartialEq, Eq)]
pub enum ApplyStop {
    /// The graph would have more nodes than its cap.
    TooManyNodes,
    /// The graph would have more edges than its cap.
    TooManyEdges,
    /// Memory is wanting.
    Memory,
}

impl From<AllocError> for ApplyStop {
    ghost use Rattle.graph_store.specs.declared.applying.ApplyStop.TheVariants.{Memory};

    ghost from_gives = { λ _ stop. stop ≡ Memory };

    fn from(_failed: AllocError) -> ApplyStop {
        ApplyStop::Memory
    }
}

/// Adds a delta to a graph. The new node k is then the node `len + k`.
pub fn apply(graph: &mut Graph, delta: &Delta) -> Result<(), ApplyStop>
    requires { Fits (plain graph.old) delta.now }
    ensures ok { OnOk result (Grows graph.old graph.new delta.now) }
    ensures err { OnErr result (graph.new ≡ graph.old) }

    // The caps are looked at before memory is taken.
    ensures too_many_nodes { (result ≡ Err ApplyStop.TooManyNodes)
        ↔ (cap_met graph.old.caps (plain graph.old) delta.now ≡ Some Cap.nodes) }
    ensures too_many_edges { (result ≡ Err ApplyStop.TooManyEdges)
        ↔ (cap_met graph.old.caps (plain graph.old) delta.now ≡ Some Cap.edges) }
{
    if delta.nodes.len() > graph.caps.nodes as usize - graph.nodes.len() {
        return Err(ApplyStop::TooManyNodes);
    }
    let edge_count = delta.fresh.len() + delta.edges.len();
    if edge_count > graph.caps.edges as usize - graph.edges.len() {
        return Err(ApplyStop::TooManyEdges);
    }
    graph.nodes.reserve(delta.nodes.len())?;
    graph.edges.reserve(edge_count)?;
    let alloc = *graph.nodes.allocator();
    let numbers = graph.names.add_all(alloc, &delta.names)?;
    let first = graph.nodes.len() as u32;
    set_all(&mut graph.nodes, &delta.settings, &numbers);
    append_nodes(&mut graph.nodes, &delta.nodes, &numbers);
    append_edges(
        &mut graph.edges,
        &delta.fresh,
        &delta.edges,
        first,
        &numbers,
    );
    Ok(())
}

/// Sets properties at nodes.
pub(crate) fn set_all(nodes: &mut [NodeRow], settings: &[SettingRow], numbers: &[u32])
    requires { All (λ setting. setting.node < length nodes.old) settings.now }
    ensures { nodes.new ≡ rows_with_settings numbers.now settings.now nodes.old }
{
    for setting in settings {
        set_value(&mut nodes[setting.node as usize], setting, numbers);
    }
}

/// Sets a property at a node.
fn set_value(node: &mut NodeRow, setting: &SettingRow, numbers: &[u32])
    ensures { node.new ≡ row_with_value numbers.now setting.now.key setting.now.value node.old }
{
    match setting.value {
        ValueRow::Text(number) => node.set_text(setting.key, renumber(numbers, number)),
        ValueRow::Number(value) => node.set_number(setting.key, value),
    }
}

/// Appends nodes, for which there is room.
pub(crate) fn append_nodes(nodes: &mut Vec<NodeRow>, more: &[NodeRow], numbers: &[u32])
    requires { length nodes.old.items + length more.now ≤ vec_capacity nodes.old }
    ensures { nodes.new.items ≡ nodes.old.items ++ map (renumbered numbers.now) more.now }
{
    for node in more {
        let _ = nodes.push(node.renumbered(numbers));
    }
}

/// Appends edges, for which there is room. New nodes are numbered from `first` on.
pub(crate) fn append_edges(
    edges: &mut Vec<Edge>,
    fresh: &[Edge],
    others: &[NewEdgeRow],
    first: u32,
    numbers: &[u32],
)
    requires room { length edges.old.items + length fresh.now + length others.now
        ≤ vec_capacity edges.old }
    requires small { All (HasSmallEnds first) (edge_rows fresh.now others.now) }
    ensures { edges.new.items ≡ edges.old.items
        ++ map (edge_of_row first numbers.now) (edge_rows fresh.now others.now) }
{
    append_fresh(edges, fresh, first, numbers);
    append_others(edges, others, first, numbers);
}

/// Appends edges between new nodes.
fn append_fresh(edges: &mut Vec<Edge>, more: &[Edge], first: u32, numbers: &[u32])
    requires room { length edges.old.items + length more.now ≤ vec_capacity edges.old }
    requires small { All (HasSmallEnds first) (map fresh_row more.now) }
    ensures edges { edges.new.items ≡ edges.old.items
        ++ map (edge_of_row first numbers.now) (map fresh_row more.now) }
    ensures capacity { vec_capacity edges.old ≤ vec_capacity edges.new }
{
    for edge in more {
        let _ = edges.push(edge_of(&NewEdgeRow::fresh(edge), first, numbers));
    }
}

/// Appends other edges.
fn append_others(edges: &mut Vec<Edge>, more: &[NewEdgeRow], first: u32, numbers: &[u32])
    requires room { length edges.old.items + length more.now ≤ vec_capacity edges.old }
    requires small { All (HasSmallEnds first) more.now }
    ensures { edges.new.items ≡ edges.old.items ++ map (edge_of_row first numbers.now) more.now }
{
    for row in more {
        let _ = edges.push(edge_of(row, first, numbers));
    }
}

/// The edge that is added.
fn edge_of(row: &NewEdgeRow, first: u32, numbers: &[u32]) -> Edge
    requires { HasSmallEnds first row.now }
    ensures { result ≡ edge_of_row first numbers.now row.now }
{
    let variable = match numbers.get(row.variable as usize) {
        Some(variable) => *variable,
        None => 0,
    };
    Edge {
        from: node_number(row.from, first),
        kind: row.kind,
        to: node_number(row.to, first),
        variable,
    }
}

/// The number of a node, where new nodes are numbered from `first` on.
fn node_number(end: EndRow, first: u32) -> u32
    requires { end_row_number first end < 2 ^ 32 }
    ensures { result ≡ end_row_number first end }
{
    match end {
        EndRow::Old(node) => node,
        EndRow::New(position) => first + position,
    }
}
