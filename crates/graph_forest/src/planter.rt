//! A planter writes down the delta of a forest.

ghost use Rattle.std.specs.Prelude.{◌≡◌, ◌<◌, ◌++◌, [], Some, length, OnOk, IfOk};
ghost use Rattle.graph_forest.specs.Forest.{leaf, edges_to};
ghost use Rattle.graph_forest.specs.Planting.{Enters, Leaves, Plants, fresh};
ghost use Rattle.graph_forest.specs.Nodes.{plain_node};

use crate::hang::Hang;
use crate::new_node::NewNode;
use crate::properties::add_node;
use cpg_schema::{EdgeKind, End};
use graph_delta::Delta;
use graph_store::Graph;
use std::alloc::{AllocError, Global};
use std::marker::Model;

/// A delta that grows by one node after another, in preorder. Contracts see the delta and the
/// positions of the open nodes, whose children may still come.
///
/// A call takes constant time, and no memory but that by which its vectors grow. Where memory is
/// wanting, nothing is said of the planter afterwards.
#[derive(Drop)]
pub struct Planter {
    delta: Delta,
    opened: Vec<u64>,
}

impl Model for Planter {
    ghost use Rattle.std.specs.Prelude.{◌<◌, length, reverse};
    ghost use Rattle.std.specs.List.{All};
    ghost use Rattle.graph_forest.specs.Planting.{Planting};

    ghost Value = { Planting };

    ghost view = { λ planter.
        record { delta = planter.delta; opened = reverse planter.opened.items } };

    ghost invariant = { λ planter.
        All (λ position. position < length planter.delta.nodes) planter.opened.items };
}

impl Planter {
    /// A planter that has planted nothing, whose delta is to be of this graph.
    pub fn new(alloc: Global, graph: &Graph) -> Planter
        ensures { result ≡ fresh }
    {
        Planter {
            delta: Delta::new(graph),
            opened: Vec::new(alloc),
        }
    }

    /// How many nodes are planted.
    pub fn count(&self) -> u64
        ensures { result ≡ length self.now.delta.nodes }
    {
        self.delta.node_count()
    }

    /// Plants a node, whose children come next.
    pub fn enter(&mut self, hang: Hang, node: &NewNode<'_>) -> Result<(), AllocError>
        ensures { OnOk result (Enters self.old self.new hang (plain_node node.now)) }
    {
        let position = self.plant(hang, node)?;
        self.opened.push(position)?;
        Ok(())
    }

    /// Ends the children of the innermost open node.
    pub fn leave(&mut self)
        ensures { Leaves self.old self.new }
    {
        self.opened.pop();
    }

    /// Plants a node without children.
    pub fn leaf(&mut self, hang: Hang, node: &NewNode<'_>) -> Result<(), AllocError>
        ensures { OnOk result (Plants self.old self.new (leaf hang (plain_node node.now))) }
    {
        self.plant(hang, node)?;
        Ok(())
    }

    /// The delta that was written down.
    pub fn finish(self) -> Delta
        ensures { result ≡ self.delta }
    {
        self.delta
    }

    /// Plants a node, and returns its position.
    fn plant(&mut self, hang: Hang, node: &NewNode<'_>) -> Result<u64, AllocError>
        ensures ok { OnOk result (Plants self.old self.new (leaf hang (plain_node node.now))) }
        ensures position { IfOk result (λ position.
            (position ≡ length self.old.delta.nodes) × (position < length self.new.delta.nodes)) }
    {
        let position = add_node(&mut self.delta, node)?;
        if let Some(parent) = self.opened.last() {
            hang_from(&mut self.delta, *parent, hang, position)?;
        }
        Ok(position)
    }
}

/// Adds the edges to a new node from its parent.
fn hang_from(delta: &mut Delta, parent: u64, hang: Hang, child: u64) -> Result<(), AllocError>
    requires parent { parent < length delta.old.nodes }
    requires child { child < length delta.old.nodes }
    ensures ok { OnOk result (delta.new ≡ record delta.old {
      edges = delta.old.edges ++ edges_to (Some parent) hang child;
    }) }
    ensures count { length delta.new.nodes ≡ length delta.old.nodes }
{
    delta.edge(End::New(parent), EdgeKind::Ast, End::New(child), b"")?;
    match hang {
        Hang::Plain => Ok(()),
        Hang::Argument { .. } => {
            delta.edge(End::New(parent), EdgeKind::Argument, End::New(child), b"")
        }
        Hang::Condition => delta.edge(End::New(parent), EdgeKind::Condition, End::New(child), b""),
    }
}
