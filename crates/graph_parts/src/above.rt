//! What is above a node.

ghost use Rattle.std.specs.Prelude.{◌<◌, length, IfSome};
ghost use Rattle.cpg_schema.specs.Shape.{IsShaped};
ghost use Rattle.graph_store.specs.Stored.{plain};
ghost use Rattle.edge_index.specs.Indexed.{IsIndexOf};
ghost use Rattle.graph_parts.specs.Finds.{Finds};
ghost use Rattle.graph_parts.specs.Parts.{IsChild};
ghost use Rattle.graph_parts.specs.Standing.{IsFileOf, IsNearestAbove, IsRootOf};

use crate::node_test::has_label;
use cpg_schema::{EdgeKind, Label};
use edge_index::Index;
use graph_store::Graph;
use graph_store::laws::law_stored;

/// The parent of a node: the one from which an AST edge leads to it. It is found at once.
pub fn parent_of(graph: &Graph, index: &Index, node: u32) -> Option<u32>
    requires index { IsIndexOf graph.now index.now }
    requires inside { node < length graph.now.nodes }
    ensures parent { Finds (λ parent. IsChild (plain graph.now) parent node) result }
    ensures within { IfSome result (λ parent. parent < length graph.now.nodes) }
{
    law_stored(graph);
    match index.into(node, EdgeKind::Ast) {
        [] => None,
        [edge, ..] => Some(edge.from),
    }
}

/// The nearest node above a node that has this label. It takes as many steps as there are nodes
/// between.
///
/// A pass that asks it of many nodes, of METHODs, asks `places_of` once in its place.
pub fn nearest_above(graph: &Graph, index: &Index, node: u32, label: Label) -> Option<u32>
    requires shaped { IsShaped (plain graph.now) }
    requires index { IsIndexOf graph.now index.now }
    requires inside { node < length graph.now.nodes }
    ensures above { Finds (IsNearestAbove (plain graph.now) label node) result }
    ensures within { IfSome result (λ above. above < length graph.now.nodes) }
{
    law_stored(graph);
    let mut below = node;
    while let Some(above) = parent_of(graph, index, below) {
        if has_label(graph, above, label) {
            return Some(above);
        }
        below = above;
    }
    None
}

/// The root of the tree in which a node stands. It takes as many steps as there are nodes above.
pub fn root_of(graph: &Graph, index: &Index, node: u32) -> u32
    requires shaped { IsShaped (plain graph.now) }
    requires index { IsIndexOf graph.now index.now }
    requires inside { node < length graph.now.nodes }
    ensures root { IsRootOf (plain graph.now) node result }
    ensures within { result < length graph.now.nodes }
{
    law_stored(graph);
    let mut root = node;
    while let Some(above) = parent_of(graph, index, root) {
        root = above;
    }
    root
}

/// The file of a node: the FILE at the root of its tree. It takes as many steps as there are nodes
/// above.
pub fn file_of(graph: &Graph, index: &Index, node: u32) -> Option<u32>
    requires shaped { IsShaped (plain graph.now) }
    requires index { IsIndexOf graph.now index.now }
    requires inside { node < length graph.now.nodes }
    ensures file { Finds (IsFileOf (plain graph.now) node) result }
    ensures within { IfSome result (λ file. file < length graph.now.nodes) }
{
    let root = root_of(graph, index, node);
    if has_label(graph, root, Label::File) {
        Some(root)
    } else {
        None
    }
}
