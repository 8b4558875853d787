//! The children of a node by their ORDER and label.

ghost use Rattle.std.specs.Prelude.{◌<◌, length, IfSome};
ghost use Rattle.graph_store.specs.Stored.{plain};
ghost use Rattle.edge_index.specs.Indexed.{IsIndexOf};
ghost use Rattle.graph_parts.specs.Finds.{Finds, IsLeast};
ghost use Rattle.graph_parts.specs.Parts.{IsChildWith, IsChildOf, IsNumbered, IsPart};

use crate::node_test::{NodeTest, OfBoth, OfLabel, OfOrder};
use cpg_schema::{EdgeKind, Label};
use edge_index::Index;
use graph_store::Graph;
use graph_store::laws::law_stored;

/// Part `k` of a node: its child with ORDER `k`, and the least node where there are several.
///
/// The children are looked at in the order of their numbers up to the one that is found. A
/// statement has at most four.
pub fn part(graph: &Graph, index: &Index, node: u32, k: u32) -> Option<u32>
    requires index { IsIndexOf graph.now index.now }
    requires inside { node < length graph.now.nodes }
    ensures part { Finds (IsPart (plain graph.now) k node) result }
    ensures within { IfSome result (λ part. part < length graph.now.nodes) }
{
    first_child(graph, index, node, &OfOrder { order: k })
}

/// The child of a node that has this label, and the least where there are several: so the BLOCK of
/// a METHOD, and its METHOD_RETURN.
pub fn child_of(graph: &Graph, index: &Index, node: u32, label: Label) -> Option<u32>
    requires index { IsIndexOf graph.now index.now }
    requires inside { node < length graph.now.nodes }
    ensures child { Finds (IsChildOf (plain graph.now) label node) result }
    ensures within { IfSome result (λ child. child < length graph.now.nodes) }
{
    first_child(graph, index, node, &OfLabel { label })
}

/// The child of a node that has this label and ORDER `i`, and the least where there are several: so
/// parameter `i` of a METHOD, and its METHOD_PARAMETER_OUT `i`.
pub fn numbered(graph: &Graph, index: &Index, node: u32, label: Label, i: u32) -> Option<u32>
    requires index { IsIndexOf graph.now index.now }
    requires inside { node < length graph.now.nodes }
    ensures child { Finds (IsNumbered (plain graph.now) label i node) result }
    ensures within { IfSome result (λ child. child < length graph.now.nodes) }
{
    first_child(graph, index, node, &OfBoth { label, order: i })
}

/// The least child of a node that passes a test.
fn first_child<T: NodeTest>(graph: &Graph, index: &Index, node: u32, test: &T) -> Option<u32>
    requires index { IsIndexOf graph.now index.now }
    requires inside { node < length graph.now.nodes }
    ensures child { Finds (IsLeast (IsChildWith (plain graph.now) (T.Has test.now) node)) result }
    ensures within { IfSome result (λ child. child < length graph.now.nodes) }
{
    law_stored(graph);
    let children = index.out(node, EdgeKind::Ast);
    for edge in children {
        if test.passes(graph, edge.to) {
            return Some(edge.to);
        }
    }
    None
}
