//! The nodes that the parts add.

ghost use Rattle.std.specs.Prelude.{◌≡◌, ◌<◌, ◌∷◌, ◌++◌, [], List, length, map, IfOk, OnOk};
ghost use Rattle.std.specs.List.{All};
ghost use Rattle.cpg_schema.specs.declared.label.Label.TheVariants.{MethodParameterIn};
ghost use Rattle.cpg_schema.specs.Graph.{PlainNode};
ghost use Rattle.graph_store.specs.Stored.{plain};
ghost use Rattle.graph_forest.specs.Nodes.{plain_node};
ghost use Rattle.unit_layers.specs.Ready.{IsRow};
ghost use Rattle.unit_rules.specs.UnitNodes.{file_node, meta_data, namespace_node, out_node};
ghost use Rattle.unit_rules.specs.Units.{labelled};

use crate::global::GLOBAL_NAME;
use cpg_schema::{Key, Label};
use graph_forest::{Hang, NewNode, Planter};
use graph_store::{Delta, Graph};
use std::alloc::{AllocError, Global};

/// Plants a node alone.
fn plant(planter: &mut Planter, node: &NewNode<'_>) -> Result<(), AllocError>
    ensures { OnOk result ((nodes : List PlainNode) → IsRow planter.old nodes →
        IsRow planter.new (nodes ++ plain_node node.now ∷ [])) }
{
    planter.leaf(Hang::Plain, node)?;
    Ok(())
}

/// The delta that adds the META_DATA.
pub(crate) fn meta_delta(alloc: Global, graph: &Graph) -> Result<Delta, AllocError>
    ensures { IfOk result (λ delta.
        delta ≡ record { nodes = meta_data ∷ []; edges = []; settings = [] }) }
{
    let mut planter = Planter::new(alloc, graph);
    let node = NewNode {
        name: Some(b"C"),
        ..NewNode::bare(Label::MetaData)
    };
    plant(&mut planter, &node)?;
    Ok(planter.finish())
}

/// Plants the FILE of a unit and its NAMESPACE_BLOCK.
fn plant_top(planter: &mut Planter, graph: &Graph, unit: u32) -> Result<(), AllocError>
    requires inside { unit < length graph.now.nodes }
    requires first { IsRow planter.old [] }
    ensures { OnOk result (IsRow planter.new
        (file_node (plain graph.now) unit ∷ namespace_node ∷ [])) }
{
    let file = NewNode {
        name: graph.text(unit, Key::Filename),
        ..NewNode::bare(Label::File)
    };
    plant(planter, &file)?;
    let block = NewNode {
        name: Some(GLOBAL_NAME),
        order: Some(1),
        ..NewNode::bare(Label::NamespaceBlock)
    };
    plant(planter, &block)
}

/// Plants the METHOD_PARAMETER_OUT of a parameter.
fn plant_out(planter: &mut Planter, graph: &Graph, parameter: u32) -> Result<(), AllocError>
    requires inside { parameter < length graph.now.nodes }
    ensures { OnOk result ((nodes : List PlainNode) → IsRow planter.old nodes →
        IsRow planter.new (nodes ++ out_node (plain graph.now) parameter ∷ [])) }
{
    let node = NewNode {
        name: graph.text(parameter, Key::Name),
        line_number: graph.number(parameter, Key::LineNumber),
        order: graph.number(parameter, Key::Order),
        type_full_name: graph.text(parameter, Key::TypeFullName),
        ..NewNode::bare(Label::MethodParameterOut)
    };
    plant(planter, &node)
}

/// The parameters among the nodes of a unit.
pub(crate) fn parameters_of(
    alloc: Global,
    graph: &Graph,
    members: &[u32],
) -> Result<Vec<u32>, AllocError>
    requires inside { All (λ node. node < length graph.now.nodes) members.now }
    ensures { IfOk result (λ parameters.
        parameters.items ≡ labelled (plain graph.now) MethodParameterIn members.now) }
{
    let mut parameters = Vec::new(alloc);
    for node in members {
        if graph.node(*node) == Label::MethodParameterIn {
            parameters.push(*node)?;
        }
    }
    Ok(parameters)
}

/// The delta that adds the nodes of a unit with these parameters, and no edges.
pub(crate) fn nodes_delta(
    alloc: Global,
    graph: &Graph,
    unit: u32,
    parameters: &[u32],
) -> Result<Delta, AllocError>
    requires inside { unit < length graph.now.nodes }
    requires parameters { All (λ node. node < length graph.now.nodes) parameters.now }
    ensures { IfOk result (λ delta. delta ≡ record {
      nodes = file_node (plain graph.now) unit
          ∷ namespace_node
          ∷ map (out_node (plain graph.now)) parameters.now;
      edges = [];
      settings = [];
    }) }
{
    let mut planter = Planter::new(alloc, graph);
    plant_top(&mut planter, graph, unit)?;
    for parameter in parameters {
        plant_out(&mut planter, graph, *parameter)?;
    }
    Ok(planter.finish())
}
