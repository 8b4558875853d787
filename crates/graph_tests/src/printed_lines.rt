//! The spelling of lines: printed text, and each public call once.
ghost use Rattle.std.specs.Prelude.{◌≡◌, ◌<◌, [], length, IfOk, IfSome};
ghost use Rattle.cpg_schema.specs.Properties.{is_number_key};
ghost use Rattle.cpg_schema.specs.Fitting.{Fits};
ghost use Rattle.graph_store.specs.Stored.{plain};

use cpg_schema::{Caps, EdgeKind, End, Key, Label, allows};
use edge_index::edges_in_order;
use graph_store::{ApplyStop, Delta, Graph, apply};
use graph_text::{LinePart, dump, print_line};
use joern_io::Tape;
use std::alloc::{AllocError, Global};
use std::hash::RandomState;
use std::test::Fail;

/// The value of a property.
#[derive(Clone, Copy)]
enum Value {
    Text(&'static [u8]),
    Number(u32),
}

/// A node's label, its properties and its line.
type Node = (Label, &'static [(Key, Value)], &'static str);

/// An edge from a node to another, with its variable and its line.
type Edge = (u32, EdgeKind, u32, &'static [u8], &'static str);

/// The nodes by their numbers, each with its line. Node 2 has every key, and gets them in another
/// order.
static NODES: [Node; 9] = [
    (
        Label::File,
        &[(Key::Name, Value::Text(b""))],
        "node 0 FILE NAME=\n",
    ),
    (Label::NamespaceBlock, &[], "node 1 NAMESPACE_BLOCK\n"),
    (
        Label::Method,
        &[
            (Key::Linkage, Value::Text(b"internal")),
            (Key::ControlStructureType, Value::Text(b"GOTO")),
            (Key::TypeFullName, Value::Text(b"int")),
            (Key::ArgumentIndex, Value::Number(0)),
            (Key::Order, Value::Number(2)),
            (Key::LineNumber, Value::Number(u32::MAX)),
            (Key::Filename, Value::Text(b"a.c")),
            (Key::Code, Value::Text(b"1 %")),
            (Key::Name, Value::Text(b"f")),
        ],
        "node 2 METHOD NAME=f CODE=1%20%25 FILENAME=a.c LINE_NUMBER=4294967295 ORDER=2 \
        ARGUMENT_INDEX=0 TYPE_FULL_NAME=int CONTROL_STRUCTURE_TYPE=GOTO LINKAGE=internal\n",
    ),
    (
        Label::MethodParameterIn,
        &[(Key::Order, Value::Number(1))],
        "node 3 METHOD_PARAMETER_IN ORDER=1\n",
    ),
    (
        Label::MethodParameterOut,
        &[],
        "node 4 METHOD_PARAMETER_OUT\n",
    ),
    (Label::ControlStructure, &[], "node 5 CONTROL_STRUCTURE\n"),
    (Label::Call, &[], "node 6 CALL\n"),
    (
        Label::Identifier,
        &[(Key::Code, Value::Text(b"x"))],
        "node 7 IDENTIFIER CODE=x\n",
    ),
    (Label::TypeNode, &[], "node 8 TYPE\n"),
];

/// The edges in the order of printing, each with its line. They are added from the last to the
/// first.
static EDGES: [Edge; 12] = [
    (0, EdgeKind::Ast, 1, b"", "edge 0 AST 1\n"),
    (2, EdgeKind::SourceFile, 0, b"", "edge 2 SOURCE_FILE 0\n"),
    (2, EdgeKind::Contains, 6, b"", "edge 2 CONTAINS 6\n"),
    (2, EdgeKind::Cfg, 6, b"", "edge 2 CFG 6\n"),
    (
        3,
        EdgeKind::ParameterLink,
        4,
        b"",
        "edge 3 PARAMETER_LINK 4\n",
    ),
    (3, EdgeKind::EvalType, 8, b"", "edge 3 EVAL_TYPE 8\n"),
    (
        3,
        EdgeKind::ReachingDef,
        7,
        b"",
        "edge 3 REACHING_DEF 7 VARIABLE=\n",
    ),
    (
        3,
        EdgeKind::ReachingDef,
        7,
        b"x y",
        "edge 3 REACHING_DEF 7 VARIABLE=x%20y\n",
    ),
    (5, EdgeKind::Condition, 6, b"", "edge 5 CONDITION 6\n"),
    (6, EdgeKind::Argument, 7, b"", "edge 6 ARGUMENT 7\n"),
    (6, EdgeKind::Call, 2, b"", "edge 6 CALL 2\n"),
    (7, EdgeKind::Ref, 3, b"", "edge 7 REF 3\n"),
];

fn is_number(key: Key) -> bool
    ensures { result ≡ is_number_key key }
{
    match key {
        Key::LineNumber | Key::Order | Key::ArgumentIndex => true,
        _ => false,
    }
}

/// Sets a property at new node 0, where its value has the form that the key asks for.
fn set(delta: &mut Delta, key: Key, value: Value) -> Result<(), AllocError>
    requires one { length delta.old.nodes ≡ 1 }
    ensures nodes { length delta.new.nodes ≡ 1 }
    ensures edges { delta.new.edges ≡ delta.old.edges }
    ensures settings { delta.new.settings ≡ delta.old.settings }
{
    match value {
        Value::Text(text) if !is_number(key) => delta.set_text(End::New(0), key, text),
        Value::Number(number) if is_number(key) => delta.set_number(End::New(0), key, number),
        _ => Ok(()),
    }
}

/// The delta of one node.
fn node_delta(graph: &Graph, label: Label, properties: &[(Key, Value)]) -> Result<Delta, AllocError>
    ensures { IfOk result (Fits (plain graph.now)) }
{
    let mut delta = Delta::new(graph);
    delta.node(label)?;
    for (key, value) in properties {
        set(&mut delta, *key, *value)?;
    }
    Ok(delta)
}

/// The delta of one edge, where the schema allows it.
fn edge_delta(
    graph: &Graph,
    from: u32,
    kind: EdgeKind,
    to: u32,
    variable: &[u8],
) -> Result<Option<Delta>, AllocError>
    ensures { IfOk result (λ made. IfSome made (Fits (plain graph.now))) }
{
    if from >= graph.len() {
        return Ok(None);
    }
    if to >= graph.len() {
        return Ok(None);
    }
    if !allows(kind, graph.node(from), graph.node(to)) {
        return Ok(None);
    }
    let mut delta = Delta::new(graph);
    match kind {
        EdgeKind::ReachingDef => delta.edge(End::Old(from), kind, End::Old(to), variable)?,
        other => delta.edge(End::Old(from), other, End::Old(to), b"")?,
    }
    Ok(Some(delta))
}

fn add_nodes(graph: &mut Graph, nodes: &[Node]) -> Result<(), Fail> {
    for (label, properties, _) in nodes {
        let delta = node_delta(graph, *label, properties)?;
        apply(graph, &delta)?;
    }
    Ok(())
}

fn add_edges(graph: &mut Graph, edges: &[Edge]) -> Result<(), Fail> {
    for (from, kind, to, variable, _) in edges.iter().rev() {
        let delta = edge_delta(graph, *from, *kind, *to, variable)?;
        apply(graph, &delta.ok_or("the schema allows no such edge")?)?;
    }
    Ok(())
}

/// The lines of these nodes and edges.
fn lines(alloc: Global, nodes: &[Node], edges: &[Edge]) -> Result<Vec<u8>, AllocError> {
    let mut lines = Vec::new(alloc);
    for (_, _, line) in nodes {
        lines.extend_from_slice(line.as_bytes())?;
    }
    for (_, _, _, _, line) in edges {
        lines.extend_from_slice(line.as_bytes())?;
    }
    Ok(lines)
}

fn all_nodes() -> &'static [Node] {
    &NODES
}

fn all_edges() -> &'static [Edge] {
    &EDGES
}

/// The lines of a graph, on a tape that has room for them.
pub(crate) fn print(alloc: Global, graph: &Graph) -> Result<Tape, Fail> {
    let edges = edges_in_order(alloc, graph)?;
    let mut tape = Tape::new(alloc, 4096, 4096, Vec::new(alloc))?;
    dump(graph, &edges, &mut tape)
        .ok()
        .ok_or("the tape has no room")?;
    Ok(tape)
}

/// How a graph answers to a node more, and how to an edge more.
fn add_more(graph: &mut Graph) -> Result<[Result<(), ApplyStop>; 2], Fail> {
    let node = node_delta(graph, Label::Block, &[(Key::Name, Value::Text(b"new"))])?;
    let to_node = apply(graph, &node);
    let edge = edge_delta(graph, 0, EdgeKind::Ast, 1, b"")?;
    let to_edge = apply(graph, &edge.ok_or("the schema allows no such edge")?);
    Ok([to_node, to_edge])
}

#[test]
fn a_graph_is_printed_node_by_node_and_edge_by_edge(rt: HostRuntime) -> Result<(), Fail> {
    let caps = Caps {
        nodes: 9,
        edges: 12,
    };
    let mut graph = Graph::new(rt.alloc(), caps, RandomState::new(&rt)?)?;
    add_nodes(&mut graph, all_nodes())?;
    add_edges(&mut graph, all_edges())?;
    let lines = lines(rt.alloc(), all_nodes(), all_edges())?;
    assert_eq!(rt; print(rt.alloc(), &graph)?.took(), lines.as_slice());

    // Each refusal leaves a graph that prints as before.
    let refusals = [Err(ApplyStop::TooManyNodes), Err(ApplyStop::TooManyEdges)];
    assert_eq!(rt; add_more(&mut graph)?, refusals);
    assert_eq!(rt; print(rt.alloc(), &graph)?.took(), lines.as_slice());
    Ok(())
}

// A value prints bytes from `!` to `~` except `%` as they are, and each other byte as `%` and two
// hexadecimal digits.
#[test]
fn a_line_is_printed_part_by_part(rt: HostRuntime) -> Result<(), Fail> {
    let line = [
        LinePart::Verbatim("refused %"),
        LinePart::Value(b"!a.c~ %\x00\x1F\x7F\n\xAB\xFFz\x80"),
        LinePart::Number(10),
        LinePart::Value(b""),
    ];
    let mut tape = Tape::new(rt.alloc(), 64, 64, Vec::new(rt.alloc()))?;
    assert_eq!(rt; print_line(&line, &mut tape), Ok(()));
    assert_eq!(rt;
        tape.took(),
        b"refused %!a.c~%20%25%00%1F%7F%0A%AB%FFz%8010\n".as_slice()
    );
    Ok(())
}
