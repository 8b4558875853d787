//! Examples of what an index lends.

ghost use Rattle.std.specs.Prelude.{IfOk, IfSome};
ghost use Rattle.cpg_schema.specs.Fitting.{Fits};
ghost use Rattle.graph_store.specs.Stored.{plain};

use cpg_schema::{Caps, EdgeKind, End, Label, allows};
use edge_index::index_of;
use graph_store::{Delta, Edge, Graph, apply};
use std::alloc::AllocError;
use std::hash::RandomState;
use std::process::Abort;
use std::test::Fail;

/// Calls 0 to 2, and identifiers 3 and 4.
const LABELS: [Label; 5] = [
    Label::Call,
    Label::Call,
    Label::Call,
    Label::Identifier,
    Label::Identifier,
];

/// Edges in the order in which they are added, so that `b` has a lower number than `a` and `ab`.
const EDGES: [(u32, EdgeKind, u32, &[u8]); 9] = [
    (1, EdgeKind::Cfg, 2, b""),
    (0, EdgeKind::Ast, 2, b""),
    (3, EdgeKind::ReachingDef, 4, b"b"),
    (0, EdgeKind::Ast, 1, b""),
    (0, EdgeKind::Argument, 1, b""),
    (0, EdgeKind::Cfg, 1, b""),
    (3, EdgeKind::ReachingDef, 4, b"a"),
    (4, EdgeKind::ReachingDef, 4, b"ab"),
    (3, EdgeKind::ReachingDef, 3, b"b"),
];

/// The edges that a node has of a kind, as positions in `EDGES`.
#[derive(Clone, Copy)]
struct Row {
    node: u32,
    kind: EdgeKind,
    out: &'static [usize],
    into: &'static [usize],
}

const ROWS: [Row; 7] = [
    Row {
        node: 0,
        kind: EdgeKind::Ast,
        out: &[3, 1],
        into: &[],
    },
    Row {
        node: 0,
        kind: EdgeKind::Argument,
        out: &[4],
        into: &[],
    },
    Row {
        node: 1,
        kind: EdgeKind::Ast,
        out: &[],
        into: &[3],
    },
    Row {
        node: 1,
        kind: EdgeKind::Cfg,
        out: &[0],
        into: &[5],
    },
    Row {
        node: 2,
        kind: EdgeKind::Call,
        out: &[],
        into: &[],
    },
    Row {
        node: 3,
        kind: EdgeKind::ReachingDef,
        out: &[8, 6, 2],
        into: &[8],
    },
    Row {
        node: 4,
        kind: EdgeKind::ReachingDef,
        out: &[7],
        into: &[6, 2, 7],
    },
];

/// All edges in the order of printing.
const PRINTED: [usize; 9] = [3, 1, 4, 5, 0, 8, 6, 2, 7];

fn add_node(graph: &mut Graph, label: Label) -> Result<(), Fail> {
    let mut delta = Delta::new(graph);
    delta.node(label)?;
    apply(graph, &delta)?;
    Ok(())
}

/// The delta of one edge, where the schema allows it.
fn edge_delta(
    graph: &Graph,
    from: u32,
    kind: EdgeKind,
    to: u32,
    variable: &[u8],
) -> Result<Option<Delta>, AllocError>
    ensures { IfOk result (λ made. IfSome made (Fits (plain graph.now))) }
{
    if from >= graph.len() {
        return Ok(None);
    }
    if to >= graph.len() {
        return Ok(None);
    }
    if !allows(kind, graph.node(from), graph.node(to)) {
        return Ok(None);
    }
    let mut delta = Delta::new(graph);
    match kind {
        EdgeKind::ReachingDef => delta.edge(End::Old(from), kind, End::Old(to), variable)?,
        other => delta.edge(End::Old(from), other, End::Old(to), b"")?,
    }
    Ok(Some(delta))
}

fn graph_of_all(rt: &HostRuntime) -> Result<Graph, Fail> {
    let caps = Caps { nodes: 5, edges: 9 };
    let mut graph = Graph::new(rt.alloc(), caps, RandomState::new(rt)?)?;
    for label in LABELS {
        add_node(&mut graph, label)?;
    }
    for (from, kind, to, variable) in EDGES {
        let delta = edge_delta(&graph, from, kind, to, variable)?;
        apply(&mut graph, &delta.ok_or("the schema allows no such edge")?)?;
    }
    Ok(graph)
}

/// The edges are those at these positions in `EDGES`.
fn assert_edges(rt: &impl Abort, graph: &Graph, edges: &[Edge], positions: &[usize]) {
    assert_eq!(rt; edges.len(), positions.len());
    for (edge, position) in edges.iter().zip(positions) {
        let Some((from, kind, to, variable)) = EDGES.get(*position).copied() else {
            return panic!(rt; "no edge {position}");
        };
        assert_eq!(rt; (edge.from, edge.kind, edge.to), (from, kind, to));
        assert_eq!(rt; graph.variable_name(edge.variable), variable);
    }
}

#[test]
fn a_row_is_lent_by_the_other_end_and_then_by_the_name(rt: HostRuntime) -> Result<(), Fail> {
    let graph = graph_of_all(&rt)?;
    let index = &index_of(rt.alloc(), &graph)?;
    for row in ROWS {
        assert!(rt; row.node < graph.len());
        assert_edges(&rt, &graph, index.out(row.node, row.kind), row.out);
        assert_edges(&rt, &graph, index.into(row.node, row.kind), row.into);
    }
    Ok(())
}

#[test]
fn all_edges_are_lent_in_the_order_of_printing(rt: HostRuntime) -> Result<(), Fail> {
    let graph = graph_of_all(&rt)?;
    let index = index_of(rt.alloc(), &graph)?;
    assert_edges(&rt, &graph, index.edges(), &PRINTED);
    Ok(())
}

#[test]
fn the_empty_graph_has_an_index(rt: HostRuntime) -> Result<(), Fail> {
    let caps = Caps { nodes: 0, edges: 0 };
    let graph = Graph::new(rt.alloc(), caps, RandomState::new(&rt)?)?;
    let index = index_of(rt.alloc(), &graph)?;
    assert_eq!(rt; index.edges().len(), 0);
    Ok(())
}
