//! A forest with each way to hang, beside the graph that its delta gives.

ghost use Rattle.std.specs.Prelude.{Some, OnOk, IfOk};
ghost use Rattle.cpg_schema.specs.declared.label.Label.TheVariants.{ControlStructure, Call};
ghost use Rattle.cpg_schema.specs.declared.label.Label.TheVariants.{Identifier, Return, File};
ghost use Rattle.cpg_schema.specs.Graph.{bare_node};
ghost use Rattle.graph_forest.specs.declared.hang.Hang.TheVariants.{Plain, Argument, Condition};
ghost use Rattle.graph_forest.specs.Forest.{beside, branch, leaf, IsPlanted};
ghost use Rattle.graph_forest.specs.Ranks.{argument_index};
ghost use Rattle.graph_forest.specs.Planting.{Plants};

use cpg_schema::{Caps, EdgeKind, Key, Label};
use graph_delta::{ApplyStop, Delta, apply};
use graph_forest::{Hang, NewNode, Planter, Rank};
use graph_store::Graph;
use std::alloc::{AllocError, Global};
use std::hash::RandomState;
use std::test::Fail;

/// An IDENTIFIER of this rank.
fn plant_identifier(planter: &mut Planter, rank: Rank) -> Result<(), AllocError>
    ensures { OnOk result (Plants planter.old planter.new (leaf rank.hang
        (record (bare_node Identifier) {
          order = Some rank.order;
          argument_index = argument_index rank;
        }))) }
{
    let node = NewNode {
        order: Some(rank.order),
        argument_index: rank.argument_index(),
        ..NewNode::bare(Label::Identifier)
    };
    planter.leaf(rank.hang, &node)
}

/// `if ((*f)(x)) return;`, and a file. The callee is argument 0.
fn plant_if(planter: &mut Planter) -> Result<(), AllocError>
    ensures { OnOk result (Plants planter.old planter.new (beside
        (branch Plain (bare_node ControlStructure) (beside
        (branch Condition (bare_node Call) (beside
        (leaf (Argument 0)
        (record (bare_node Identifier) { order = Some 1; argument_index = Some 0 }))
        (leaf (Argument 1)
        (record (bare_node Identifier) { order = Some 2; argument_index = Some 1 }))))
        (leaf Plain (bare_node Return))))
        (leaf Plain (bare_node File)))) }
{
    planter.enter(Hang::Plain, &NewNode::bare(Label::ControlStructure))?;
    planter.enter(Hang::Condition, &NewNode::bare(Label::Call))?;
    plant_identifier(planter, Rank::pointer_argument(0))?;
    plant_identifier(planter, Rank::pointer_argument(1))?;
    planter.leave();
    planter.leaf(Hang::Plain, &NewNode::bare(Label::Return))?;
    planter.leave();
    planter.leaf(Hang::Plain, &NewNode::bare(Label::File))?;
    Ok(())
}

fn if_delta(alloc: Global, graph: &Graph) -> Result<Delta, AllocError>
    ensures { IfOk result IsPlanted }
{
    let mut planter = Planter::new(alloc, graph);
    plant_if(&mut planter)?;
    Ok(planter.finish())
}

fn plant_in(graph: &mut Graph, delta: &Delta) -> Result<(), ApplyStop>
    requires { IsPlanted delta.now }
{
    apply(graph, delta)
}

#[test]
fn each_way_to_hang_has_its_edges(rt: HostRuntime) -> Result<(), Fail> {
    let caps = Caps { nodes: 6, edges: 7 };
    let hashes = RandomState::new(&rt)?;
    let mut graph = Graph::new(rt.alloc(), caps, hashes)?;
    let delta = if_delta(rt.alloc(), &graph)?;
    plant_in(&mut graph, &delta)?;
    let labels = [
        Label::ControlStructure,
        Label::Call,
        Label::Identifier,
        Label::Identifier,
        Label::Return,
        Label::File,
    ];
    assert_eq!(rt; graph.len(), 6);
    for (id, order, index) in [
        (1, None, None),
        (2, Some(1), Some(0)),
        (3, Some(2), Some(1)),
    ] {
        assert!(rt; id < graph.len());
        assert_eq!(rt; graph.number(id, Key::Order), order, "at {id}");
        assert_eq!(rt; graph.number(id, Key::ArgumentIndex), index, "at {id}");
    }
    for id in 0..graph.len() {
        assert_eq!(rt;
            labels.get(id as usize).copied(),
            Some(graph.node(id)),
            "at {id}"
        );
    }
    let edges = [
        (0, EdgeKind::Ast, 1),
        (0, EdgeKind::Condition, 1),
        (1, EdgeKind::Ast, 2),
        (1, EdgeKind::Argument, 2),
        (1, EdgeKind::Ast, 3),
        (1, EdgeKind::Argument, 3),
        (0, EdgeKind::Ast, 4),
    ];
    assert_eq!(rt; graph.edges().len(), 7);
    for (edge, want) in graph.edges().iter().zip(edges) {
        assert_eq!(rt; (edge.from, edge.kind, edge.to), want);
    }
    Ok(())
}
