//! The edges that the nodes of a unit add.

ghost use Rattle.std.specs.Prelude.{◌≡◌, ◌+◌, ◌<◌, ◌≤◌, ◌∷◌, [], flat_map, length, OnOk};
ghost use Rattle.std.specs.List.{All};
ghost use Rattle.cpg_schema.specs.Deltas.{IsNewEnd};
ghost use Rattle.cpg_schema.specs.Shape.{IsShaped};
ghost use Rattle.graph_store.specs.Stored.{plain};
ghost use Rattle.edge_index.specs.Indexed.{IsIndexOf};
ghost use Rattle.graph_parts.specs.Places.{ArePlacesOf};
ghost use Rattle.unit_layers.specs.Adding.{with_edges};
ghost use Rattle.unit_rules.specs.UnitEdges.{edge_between, from_source, has_body, in_file};
ghost use Rattle.unit_rules.specs.UnitEdges.{linked, member_edges, parameter_edges, top_edges};

use cpg_schema::{EdgeKind, End, Label};
use edge_index::Index;
use graph_parts::{Places, child_of, parent_of};
use graph_store::laws::law_stored;
use graph_store::{Delta, Graph};
use std::alloc::AllocError;

/// The FILE of a unit among the new nodes, and its NAMESPACE_BLOCK.
const FILE: End = End::New(0);

const NAMESPACE_BLOCK: End = End::New(1);

/// Adds an edge without a variable.
fn join(delta: &mut Delta, from: End, kind: EdgeKind, to: End) -> Result<(), AllocError>
    requires from { IsNewEnd (length delta.old.nodes) from }
    requires to { IsNewEnd (length delta.old.nodes) to }
    ensures ok { OnOk result (delta.new ≡ with_edges (edge_between from kind to ∷ []) delta.old) }
{
    delta.edge(from, kind, to, b"")
}

/// Adds the edges of the FILE and the NAMESPACE_BLOCK of a unit.
pub(crate) fn join_top(delta: &mut Delta, unit: u32) -> Result<(), AllocError>
    requires { 1 < length delta.old.nodes }
    ensures { OnOk result (delta.new ≡ with_edges (top_edges unit) delta.old) }
{
    join(delta, NAMESPACE_BLOCK, EdgeKind::Ast, End::Old(unit))?;
    join(delta, FILE, EdgeKind::Ast, NAMESPACE_BLOCK)?;
    join(delta, NAMESPACE_BLOCK, EdgeKind::SourceFile, FILE)
}

/// Whether the method has a body: a BLOCK is its child.
fn has_body(graph: &Graph, index: &Index, method: u32) -> bool
    requires index { IsIndexOf graph.now index.now }
    requires inside { method < length graph.now.nodes }
    ensures { result ≡ has_body (plain graph.now) method }
{
    child_of(graph, index, method, Label::Block).is_some()
}

/// Adds the edges of a node of a unit.
fn join_member(
    delta: &mut Delta,
    graph: &Graph,
    index: &Index,
    places: &Places,
    node: u32,
) -> Result<(), AllocError>
    requires shaped { IsShaped (plain graph.now) }
    requires index { IsIndexOf graph.now index.now }
    requires places { ArePlacesOf (plain graph.now) places.now }
    requires inside { node < length graph.now.nodes }
    requires file { 0 < length delta.old.nodes }
    ensures { OnOk result (delta.new ≡ with_edges (member_edges (plain graph.now) node) delta.old) }
{
    law_stored(graph);
    match graph.node(node) {
        Label::Method => {
            if has_body(graph, index, node) {
                join(delta, End::Old(node), EdgeKind::SourceFile, FILE)?;
            }
            join(delta, FILE, EdgeKind::Contains, End::Old(node))
        }
        Label::TypeDecl => {
            join(delta, End::Old(node), EdgeKind::SourceFile, FILE)?;
            join(delta, FILE, EdgeKind::Contains, End::Old(node))
        }
        Label::Call => match places.method_of(node) {
            Some(method) => join(delta, End::Old(method), EdgeKind::Contains, End::Old(node)),
            None => Ok(()),
        },
        _ => Ok(()),
    }
}

/// Adds the edges of all nodes of a unit.
pub(crate) fn join_members(
    delta: &mut Delta,
    graph: &Graph,
    index: &Index,
    places: &Places,
    members: &[u32],
) -> Result<(), AllocError>
    requires shaped { IsShaped (plain graph.now) }
    requires index { IsIndexOf graph.now index.now }
    requires places { ArePlacesOf (plain graph.now) places.now }
    requires inside { All (λ node. node < length graph.now.nodes) members.now }
    requires file { 0 < length delta.old.nodes }
    ensures { OnOk result (delta.new
        ≡ with_edges (flat_map (member_edges (plain graph.now)) members.now) delta.old) }
{
    for node in members {
        join_member(delta, graph, index, places, *node)?;
    }
    Ok(())
}

/// Adds the edges of a parameter and its METHOD_PARAMETER_OUT, the new node `out`.
fn join_parameter(
    delta: &mut Delta,
    graph: &Graph,
    index: &Index,
    parameter: u32,
    out: u64,
) -> Result<(), AllocError>
    requires shaped { IsShaped (plain graph.now) }
    requires index { IsIndexOf graph.now index.now }
    requires inside { parameter < length graph.now.nodes }
    requires out { out < length delta.old.nodes }
    ensures { OnOk result (delta.new
        ≡ with_edges (parameter_edges (plain graph.now) parameter out) delta.old) }
{
    if let Some(method) = parent_of(graph, index, parameter) {
        join(delta, End::Old(method), EdgeKind::Ast, End::New(out))?;
    }
    join(
        delta,
        End::Old(parameter),
        EdgeKind::ParameterLink,
        End::New(out),
    )
}

/// Adds the edges of all parameters of a unit, whose METHOD_PARAMETER_OUTs are the new nodes from
/// 2 on.
pub(crate) fn join_parameters(
    delta: &mut Delta,
    graph: &Graph,
    index: &Index,
    parameters: &[u32],
) -> Result<(), AllocError>
    requires shaped { IsShaped (plain graph.now) }
    requires index { IsIndexOf graph.now index.now }
    requires inside { All (λ node. node < length graph.now.nodes) parameters.now }
    requires outs { length parameters.now + 2 ≤ length delta.old.nodes }
    ensures { OnOk result (delta.new
        ≡ with_edges (linked (plain graph.now) 2 parameters.now) delta.old) }
{
    let mut out = 2;
    for parameter in parameters {
        join_parameter(delta, graph, index, *parameter, out)?;
        out += 1;
    }
    Ok(())
}
