//! Deltas on small graphs: each public call once with ample memory, and the refusals of `apply`.

ghost use Rattle.std.specs.Prelude.{◌≡◌, ◌-◌, ◌<◌, ◌^◌, ◌∷◌, [], Some, codes, IfOk};
ghost use Rattle.cpg_schema.specs.declared.end.End.TheVariants.{New, Old};
ghost use Rattle.cpg_schema.specs.declared.label.Label.TheVariants.{File, NamespaceBlock};
ghost use Rattle.cpg_schema.specs.declared.edge_kind.EdgeKind.TheVariants.{Ast};
ghost use Rattle.cpg_schema.specs.declared.key.Key.TheVariants.{Name};
ghost use Rattle.cpg_schema.specs.Graph.{bare_node};
ghost use Rattle.cpg_schema.specs.Properties.{Property};

use cpg_schema::{Caps, EdgeKind, End, Key, Label};
use graph_store::{ApplyStop, Delta, Edge, Graph, Value, apply};
use std::alloc::AllocError;
use std::hash::RandomState;
use std::test::Fail;

fn empty_graph(rt: &HostRuntime, nodes: u32, edges: u32) -> Result<Graph, Fail>
    requires { nodes < 2 ^ 32 - 1 }
    ensures { IfOk result (λ graph. graph.nodes ≡ []) }
{
    let hashes = RandomState::new(rt)?;
    Ok(Graph::new(rt.alloc(), Caps { nodes, edges }, hashes)?)
}

fn some_nodes(graph: &Graph, count: u32) -> Result<Delta, AllocError>
    ensures edges { IfOk result (λ delta. delta.edges ≡ []) }
    ensures settings { IfOk result (λ delta. delta.settings ≡ []) }
{
    let mut delta = Delta::new(graph);
    for _ in 0..count {
        delta.node(Label::Unknown)?;
    }
    Ok(delta)
}

#[test]
fn a_cap_of_one_node_takes_one_node(rt: HostRuntime) -> Result<(), Fail> {
    let mut graph = empty_graph(&rt, 1, 1)?;
    let steps = [
        (2, Err(ApplyStop::TooManyNodes)),
        (1, Ok(())),
        (1, Err(ApplyStop::TooManyNodes)),
    ];
    for (count, want) in steps {
        let delta = some_nodes(&graph, count)?;
        assert_eq!(rt; apply(&mut graph, &delta), want);
    }
    assert_eq!(rt; graph.len(), 1);
    Ok(())
}

/// `a.c` with its namespace block.
fn file_with_block(graph: &Graph) -> Result<Delta, AllocError>
    ensures { IfOk result (λ delta. delta ≡ record {
      nodes = record (bare_node File) { name = Some (codes "a.c") }
          ∷ record (bare_node NamespaceBlock) { order = Some 1 } ∷ [];
      edges = record { from = New 0; kind = Ast; to = New 1; variable = [] } ∷ [];
      settings = [];
    }) }
{
    let mut delta = Delta::new(graph);
    let file = delta.node(Label::File)?;
    let block = delta.node(Label::NamespaceBlock)?;
    delta.edge(End::New(file), EdgeKind::Ast, End::New(block), b"")?;
    delta.set_text(End::New(file), Key::Name, b"a.c")?;
    delta.set(End::New(block), Key::Order, Value::Number(1))?;
    Ok(delta)
}

/// The name of node 1.
fn name_of_block(graph: &Graph) -> Result<Delta, AllocError>
    ensures { IfOk result (λ delta. delta ≡ record {
      nodes = [];
      edges = [];
      settings = record { node = 1; key = Name; value = Property.text (codes "<global>") } ∷ [];
    }) }
{
    let mut delta = Delta::new(graph);
    delta.set_text(End::Old(1), Key::Name, b"<global>")?;
    Ok(delta)
}

/// A second edge from node 0 to node 1.
fn second_edge(graph: &Graph) -> Result<Delta, AllocError>
    ensures { IfOk result (λ delta. delta ≡ record {
      nodes = [];
      edges = record { from = Old 0; kind = Ast; to = Old 1; variable = [] } ∷ [];
      settings = [];
    }) }
{
    let mut delta = Delta::new(graph);
    delta.edge(End::Old(0), EdgeKind::Ast, End::Old(1), b"")?;
    Ok(delta)
}

/// The graph of `a.c`, with names of both nodes.
fn small_graph(rt: &HostRuntime) -> Result<Graph, Fail>
    ensures { IfOk result (λ graph. graph.nodes ≡
        record (bare_node File) { name = Some (codes "a.c") }
        ∷ record (bare_node NamespaceBlock) { name = Some (codes "<global>"); order = Some 1 }
        ∷ []) }
{
    let mut graph = empty_graph(rt, 2, 1)?;
    let first = file_with_block(&graph)?;
    apply(&mut graph, &first)?;
    let name = name_of_block(&graph)?;
    apply(&mut graph, &name)?;
    Ok(graph)
}

#[test]
fn a_graph_and_its_copy_read_alike_after_a_refusal(rt: HostRuntime) -> Result<(), Fail> {
    let mut graph = small_graph(&rt)?;
    let copy = graph.copy()?;
    let more = second_edge(&graph)?;
    assert_eq!(rt; apply(&mut graph, &more), Err(ApplyStop::TooManyEdges));
    let edge = Edge {
        from: 0,
        kind: EdgeKind::Ast,
        to: 1,
        variable: 0,
    };
    for graph in [&graph, &copy] {
        assert_eq!(rt; graph.len(), 2);
        assert_eq!(rt; graph.node(1), Label::NamespaceBlock);
        assert_eq!(rt; graph.text(0, Key::Name), Some(b"a.c".as_slice()));
        assert_eq!(rt; graph.text(1, Key::Name), Some(b"<global>".as_slice()));
        assert_eq!(rt; graph.number(1, Key::Order), Some(1));
        assert_eq!(rt; graph.number(0, Key::Order), None);
        assert_eq!(rt; graph.edges(), [edge].as_slice());
        assert_eq!(rt; graph.variable_name(0), b"".as_slice());
    }
    Ok(())
}
