//! The METHODs that are named `<global>`, and which of them are units.

ghost use Rattle.std.specs.Prelude.{◌≡◌, ◌-◌, ◌<◌, ◌^◌, filter, length, IfOk};
ghost use Rattle.cpg_schema.specs.Shape.{IsShaped};
ghost use Rattle.graph_store.specs.Stored.{plain, plain_edge};
ghost use Rattle.edge_index.specs.Indexed.{IsIndexOf};
ghost use Rattle.unit_rules.specs.Units.{all_nodes, is_global, is_inner, is_unit, units};

use cpg_schema::{EdgeKind, Key, Label};
use edge_index::Index;
use graph_parts::parent_of;
use graph_store::laws::law_stored;
use graph_store::{Edge, Graph};
use std::alloc::{AllocError, Global};

/// The name of the METHOD that stands for a file.
pub(crate) const GLOBAL_NAME: &[u8] = b"<global>";

/// Whether the node is a METHOD named `<global>`.
pub(crate) fn is_global(graph: &Graph, node: u32) -> bool
    requires { node < length graph.now.nodes }
    ensures { result ≡ is_global (plain graph.now) node }
{
    if graph.node(node) != Label::Method {
        return false;
    }
    match graph.text(node, Key::Name) {
        Some(name) => name == GLOBAL_NAME,
        None => false,
    }
}

/// Whether the node is a unit: a METHOD named `<global>` to which no AST edge leads.
fn is_unit(graph: &Graph, index: &Index, node: u32) -> bool
    requires index { IsIndexOf graph.now index.now }
    requires inside { node < length graph.now.nodes }
    ensures { result ≡ is_unit (plain graph.now) node }
{
    is_global(graph, node) && parent_of(graph, index, node).is_none()
}

/// The units, rising.
pub(crate) fn units(alloc: Global, graph: &Graph, index: &Index) -> Result<Vec<u32>, AllocError>
    requires index { IsIndexOf graph.now index.now }
    ensures { IfOk result (λ found. found.items ≡ units (plain graph.now)) }
{
    let mut found = Vec::new(alloc);
    for node in 0..graph.len() {
        if is_unit(graph, index, node) {
            found.push(node)?;
        }
    }
    Ok(found)
}

/// How many METHODs are named `<global>`.
fn count_global(graph: &Graph) -> u32
    ensures { result
        ≡ length (filter (is_global (plain graph.now)) (all_nodes (plain graph.now))) }
{
    let mut count = 0;
    for node in 0..graph.len() {
        if is_global(graph, node) {
            count += 1;
        }
    }
    count
}

/// Whether the edge is an AST edge to such a METHOD.
fn is_inner(graph: &Graph, edge: &Edge) -> bool
    requires { edge.now.to < length graph.now.nodes }
    ensures { result ≡ is_inner (plain graph.now) (plain_edge graph.now.names edge.now) }
{
    match edge.kind {
        EdgeKind::Ast => is_global(graph, edge.to),
        _ => false,
    }
}

/// How many AST edges lead to one.
fn count_inner(graph: &Graph) -> u32
    ensures { result ≡ length (filter (is_inner (plain graph.now)) (plain graph.now).edges) }
{
    law_stored(graph);
    let mut count = 0;
    let edges = graph.edges();
    for edge in edges {
        if is_inner(graph, edge) {
            count += 1;
        }
    }
    count
}

/// How many units there are: the METHODs named `<global>` but for those to which an AST edge leads.
/// To each of these leads one, so they are counted by their edges, in no memory.
pub(crate) fn count_units(graph: &Graph) -> u32
    requires { IsShaped (plain graph.now) }
    ensures count { result ≡ length (units (plain graph.now)) }
    ensures few { result < 2 ^ 32 - 1 }
{
    law_stored(graph);
    count_global(graph) - count_inner(graph)
}
