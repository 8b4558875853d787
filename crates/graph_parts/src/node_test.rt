//! What is asked of a node.

ghost use Rattle.std.specs.Prelude.{◌<◌, ◌↔◌, IsTrue, length};
ghost use Rattle.cpg_schema.specs.Graph.{PlainNode};
ghost use Rattle.graph_store.specs.Stored.{plain};
ghost use Rattle.graph_parts.specs.Parts.{HasIndex, HasLabel, HasOrder, IsNodeWith};

use cpg_schema::{Key, Label};
use graph_store::Graph;

/// Whether the node has this label.
#[inline(always)]
pub(crate) fn has_label(graph: &Graph, node: u32, label: Label) -> bool
    requires { node < length graph.now.nodes }
    ensures { IsTrue result ↔ IsNodeWith (plain graph.now) (HasLabel label) node }
{
    graph.node(node) == label
}

/// Whether the node has this ORDER.
#[inline(always)]
pub(crate) fn has_order(graph: &Graph, node: u32, order: u32) -> bool
    requires { node < length graph.now.nodes }
    ensures { IsTrue result ↔ IsNodeWith (plain graph.now) (HasOrder order) node }
{
    graph.number(node, Key::Order) == Some(order)
}

/// Whether the node has this ARGUMENT_INDEX.
#[inline(always)]
pub(crate) fn has_index(graph: &Graph, node: u32, index: u32) -> bool
    requires { node < length graph.now.nodes }
    ensures { IsTrue result ↔ IsNodeWith (plain graph.now) (HasIndex index) node }
{
    graph.number(node, Key::ArgumentIndex) == Some(index)
}

/// A property of nodes that can be asked of each.
pub(crate) trait NodeTest {
    ghost Has: { Self → PlainNode → Type 0 };

    /// Whether the node has it.
    fn passes(&self, graph: &Graph, node: u32) -> bool
        requires inside { node < length graph.now.nodes }
        ensures { IsTrue result ↔ IsNodeWith (plain graph.now) (Has self.now) node };
}

/// To have this ORDER.
#[derive(Drop)]
pub(crate) struct OfOrder {
    pub(crate) order: u32,
}

impl NodeTest for OfOrder {
    ghost Has = { λ test node. HasOrder test.order node };

    fn passes(&self, graph: &Graph, node: u32) -> bool {
        has_order(graph, node, self.order)
    }
}

/// To have this label.
#[derive(Drop)]
pub(crate) struct OfLabel {
    pub(crate) label: Label,
}

impl NodeTest for OfLabel {
    ghost Has = { λ test node. HasLabel test.label node };

    fn passes(&self, graph: &Graph, node: u32) -> bool {
        has_label(graph, node, self.label)
    }
}

/// To have this label and this ORDER.
#[derive(Drop)]
pub(crate) struct OfBoth {
    pub(crate) label: Label,
    pub(crate) order: u32,
}

impl NodeTest for OfBoth {
    ghost Has = { λ test node. HasLabel test.label node × HasOrder test.order node };

    fn passes(&self, graph: &Graph, node: u32) -> bool {
        has_label(graph, node, self.label) && has_order(graph, node, self.order)
    }
}
