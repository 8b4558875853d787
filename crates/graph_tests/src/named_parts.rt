//! The parts of a small graph, in tables.

ghost use Rattle.std.specs.Prelude.{OnOk, IfOk};
ghost use Rattle.cpg_schema.specs.Shape.{IsShaped};
ghost use Rattle.graph_store.specs.Stored.{plain};
ghost use Rattle.edge_index.specs.Indexed.{IsIndexOf};
ghost use Rattle.graph_parts.specs.Places.{ArePlacesOf};
ghost use Rattle.graph_forest.specs.declared.hang.Hang.TheVariants.{Plain, Argument as Hung};
ghost use Rattle.graph_forest.specs.Forest.{leaf, IsPlanted};
ghost use Rattle.graph_forest.specs.Planting.{Enters, Plants};
ghost use Rattle.graph_tests.specs.NamedForest.{argument_node, call_forest, global_forest};
ghost use Rattle.graph_tests.specs.NamedForest.{method_forest, named_forest, ordered};

use cpg_schema::{Caps, Label};
use edge_index::{Index, index_of};
use graph_delta::{ApplyStop, Delta, apply};
use graph_forest::{Hang, NewNode, Planter};
use graph_parts::{
    Places, argument, child_of, file_of, nearest_above, numbered, parent_of, part, places_of,
    root_of,
};
use graph_store::Graph;
use graph_store::laws::law_stored;
use std::alloc::{AllocError, Global};
use std::hash::RandomState;
use std::process::Abort;
use std::test::Fail;

/// Plants a node of this ORDER, whose children come next.
fn enter(planter: &mut Planter, label: Label, order: u32) -> Result<(), AllocError>
    ensures { OnOk result (Enters planter.old planter.new Plain (ordered label order)) }
{
    let node = NewNode {
        order: Some(order),
        ..NewNode::bare(label)
    };
    planter.enter(Hang::Plain, &node)
}

/// Plants a node of this ORDER without children.
fn plant(planter: &mut Planter, label: Label, order: u32) -> Result<(), AllocError>
    ensures { OnOk result (Plants planter.old planter.new (leaf Plain (ordered label order))) }
{
    let node = NewNode {
        order: Some(order),
        ..NewNode::bare(label)
    };
    planter.leaf(Hang::Plain, &node)
}

/// Plants an argument of this ORDER and ARGUMENT_INDEX.
fn plant_argument(planter: &mut Planter, label: Label, order: u32) -> Result<(), AllocError>
    ensures { OnOk result (Plants planter.old planter.new
        (leaf (Hung order) (argument_node label order))) }
{
    let node = NewNode {
        order: Some(order),
        argument_index: Some(order),
        ..NewNode::bare(label)
    };
    planter.leaf(Hang::Argument { index: order }, &node)
}

/// Nodes 7 to 9.
fn plant_call(planter: &mut Planter) -> Result<(), AllocError>
    ensures { OnOk result (Plants planter.old planter.new call_forest) }
{
    enter(planter, Label::Call, 1)?;
    plant_argument(planter, Label::Identifier, 1)?;
    plant_argument(planter, Label::Literal, 2)?;
    planter.leave();
    Ok(())
}

/// Nodes 4 to 10.
fn plant_method(planter: &mut Planter) -> Result<(), AllocError>
    ensures { OnOk result (Plants planter.old planter.new method_forest) }
{
    enter(planter, Label::Method, 1)?;
    plant(planter, Label::MethodParameterIn, 1)?;
    enter(planter, Label::Block, 2)?;
    plant_call(planter)?;
    planter.leave();
    plant(planter, Label::MethodReturn, 3)?;
    planter.leave();
    Ok(())
}

/// Nodes 2 to 11.
fn plant_global(planter: &mut Planter) -> Result<(), AllocError>
    ensures { OnOk result (Plants planter.old planter.new global_forest) }
{
    enter(planter, Label::Method, 1)?;
    enter(planter, Label::Block, 1)?;
    plant_method(planter)?;
    planter.leave();
    plant(planter, Label::MethodReturn, 2)?;
    planter.leave();
    Ok(())
}

/// All nodes.
fn plant_file(planter: &mut Planter) -> Result<(), AllocError>
    ensures { OnOk result (Plants planter.old planter.new named_forest) }
{
    enter(planter, Label::File, 1)?;
    enter(planter, Label::NamespaceBlock, 1)?;
    plant_global(planter)?;
    planter.leave();
    planter.leave();
    Ok(())
}

fn file_delta(alloc: Global, graph: &Graph) -> Result<Delta, AllocError>
    ensures { IfOk result IsPlanted }
{
    let mut planter = Planter::new(alloc, graph);
    plant_file(&mut planter)?;
    Ok(planter.finish())
}

fn add_to(graph: &mut Graph, delta: &Delta) -> Result<(), ApplyStop>
    requires planted { IsPlanted delta.now }
    requires shaped { IsShaped (plain graph.old) }
    ensures { OnOk result (IsShaped (plain graph.new)) }
{
    law_stored(graph);
    apply(graph, delta)?;
    Ok(())
}

fn named_graph(rt: &HostRuntime) -> Result<Graph, Fail>
    ensures { IfOk result (λ graph. IsShaped (plain graph)) }
{
    let caps = Caps {
        nodes: 12,
        edges: 13,
    };
    let mut graph = Graph::new(rt.alloc(), caps, RandomState::new(rt)?)?;
    let delta = file_delta(rt.alloc(), &graph)?;
    add_to(&mut graph, &delta)?;
    Ok(graph)
}

#[test]
fn a_part_is_found_by_its_order_and_its_label(rt: HostRuntime) -> Result<(), Fail> {
    let graph = named_graph(&rt)?;
    let index = index_of(rt.alloc(), &graph)?;
    for (node, k, want) in [
        (4, 2, Some(6)),
        (4, 3, Some(10)),
        (4, 4, None),
        (7, 2, Some(9)),
        (8, 1, None),
    ] {
        assert!(rt; node < graph.len());
        assert_eq!(rt; part(&graph, &index, node, k), want, "part {k} of {node}");
    }
    for (node, label, i, child, number) in [
        (4, Label::Block, 1, Some(6), None),
        (4, Label::MethodReturn, 3, Some(10), Some(10)),
        (4, Label::MethodParameterIn, 1, Some(5), Some(5)),
        (7, Label::Call, 1, None, None),
    ] {
        assert!(rt; node < graph.len());
        assert_eq!(rt;
            child_of(&graph, &index, node, label),
            child,
            "{label:?} of {node}"
        );
        assert_eq!(rt;
            numbered(&graph, &index, node, label, i),
            number,
            "{label:?} {i} of {node}"
        );
    }
    Ok(())
}

#[test]
fn an_argument_is_found_by_its_index(rt: HostRuntime) -> Result<(), Fail> {
    let graph = named_graph(&rt)?;
    let index = index_of(rt.alloc(), &graph)?;
    for (call, i, want) in [(7, 1, Some(8)), (7, 2, Some(9)), (7, 3, None), (6, 1, None)] {
        assert!(rt; call < graph.len());
        assert_eq!(rt;
            argument(&graph, &index, call, i),
            want,
            "argument {i} of {call}"
        );
    }
    Ok(())
}

/// Above each node its parent and its METHOD. The root is the FILE, node 0.
const PLACES: [(Option<u32>, Option<u32>); 12] = [
    (None, None),
    (Some(0), None),
    (Some(1), None),
    (Some(2), Some(2)),
    (Some(3), Some(2)),
    (Some(4), Some(4)),
    (Some(4), Some(4)),
    (Some(6), Some(4)),
    (Some(7), Some(4)),
    (Some(7), Some(4)),
    (Some(4), Some(4)),
    (Some(2), Some(2)),
];

/// What is above a node is told alike by a climb and by the walk.
fn assert_place(rt: &impl Abort, graph: &Graph, index: &Index, places: &Places, node: u32)
    requires shaped { IsShaped (plain graph.now) }
    requires index { IsIndexOf graph.now index.now }
    requires places { ArePlacesOf (plain graph.now) places.now }
{
    assert!(rt; node < graph.len());
    let Some((parent, method)) = PLACES.get(node as usize).copied() else {
        return panic!(rt; "no node {node}");
    };
    assert_eq!(rt; parent_of(graph, index, node), parent, "parent of {node}");
    assert_eq!(rt;
        nearest_above(graph, index, node, Label::Method),
        method,
        "above {node}"
    );
    assert_eq!(rt; root_of(graph, index, node), 0, "root of {node}");
    assert_eq!(rt; file_of(graph, index, node), Some(0), "file of {node}");
    assert_eq!(rt; places.method_of(node), method, "METHOD of {node}");
    assert_eq!(rt; places.root_of(node), 0, "root of {node} by the walk");
}

#[test]
fn what_is_above_a_node_is_told_by_a_climb_and_by_the_walk(rt: HostRuntime) -> Result<(), Fail> {
    let graph = named_graph(&rt)?;
    let index = index_of(rt.alloc(), &graph)?;
    let places = places_of(rt.alloc(), &graph, &index)?;
    assert_eq!(rt; graph.len(), 12);
    for node in 0..12 {
        assert_place(&rt, &graph, &index, &places, node);
    }
    Ok(())
}
