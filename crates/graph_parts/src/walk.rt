//! The walk from the roots of a graph downwards, that tells where each node stands.

ghost use Rattle.std.specs.Prelude.{◌≡◌, ◌<◌, length, IfOk, OnOk};
ghost use Rattle.std.specs.List.{Contains};
ghost use Rattle.cpg_schema.specs.Graph.{PlainGraph};
ghost use Rattle.cpg_schema.specs.Shape.{IsShaped};
ghost use Rattle.graph_store.specs.Stored.{plain};
ghost use Rattle.edge_index.specs.Indexed.{IsIndexOf};
ghost use Rattle.graph_parts.specs.Walking.{GoesOn, HasAll, HasChildren, HasRoots};
ghost use Rattle.graph_parts.specs.Walking.{IsPlace, IsPlaced, IsWalk};

use crate::above::parent_of;
use crate::node_test::has_label;
use crate::places::NO_NODE;
use cpg_schema::{EdgeKind, Label};
use edge_index::Index;
use graph_store::Graph;
use graph_store::laws::law_stored;
use std::alloc::{AllocError, Global};

/// The METHODs and roots of the nodes to which the walk has come, and these nodes in the order in
/// which it came to them.
#[derive(Drop)]
pub(crate) struct Walk {
    pub(crate) methods: Vec<u32>,
    pub(crate) roots: Vec<u32>,
    pub(crate) order: Vec<u32>,
}

impl Walk {
    /// A walk over so many nodes that has come to none.
    pub(crate) fn new(alloc: Global, count: u32) -> Result<Walk, AllocError>
        ensures { IfOk result (λ walk. (graph : PlainGraph) → length graph.nodes ≡ count →
            IsWalk graph walk) }
    {
        Ok(Walk {
            methods: vec![in alloc; NO_NODE; count as usize]?,
            roots: vec![in alloc; NO_NODE; count as usize]?,
            order: Vec::with_capacity(alloc, count as usize)?,
        })
    }

    /// Comes to a node that stands here, where it has not come to it yet.
    fn place(&mut self, node: u32, method: u32, root: u32) -> Result<(), AllocError>
        requires inside { node < length self.old.roots.items }
        requires same { length self.old.methods.items ≡ length self.old.roots.items }
        requires real { ¬ (root ≡ NO_NODE) }
        ensures walk { OnOk result ((graph : PlainGraph) → IsWalk graph self.old →
            IsPlace graph node method root → IsWalk graph self.new) }
        ensures placed { OnOk result (IsPlaced self.new node) }
        ensures goes_on { OnOk result (GoesOn self.old self.new) }
    {
        let at = node as usize;
        if self.roots[at] == NO_NODE {
            self.order.push(node)?;
            self.methods[at] = method;
            self.roots[at] = root;
        }
        Ok(())
    }

    /// Comes to all roots.
    pub(crate) fn place_roots(&mut self, graph: &Graph, index: &Index) -> Result<(), AllocError>
        requires index { IsIndexOf graph.now index.now }
        requires walk { IsWalk (plain graph.now) self.old }
        ensures walk { OnOk result (IsWalk (plain graph.now) self.new) }
        ensures roots { OnOk result (HasRoots (plain graph.now) self.new) }
    {
        law_stored(graph);
        for node in 0..graph.len() {
            if parent_of(graph, index, node).is_none() {
                self.place(node, NO_NODE, node)?;
            }
        }
        Ok(())
    }

    /// Comes to the children of a node to which it has come.
    fn place_children(&mut self, graph: &Graph, index: &Index, node: u32) -> Result<(), AllocError>
        requires shaped { IsShaped (plain graph.now) }
        requires index { IsIndexOf graph.now index.now }
        requires walk { IsWalk (plain graph.now) self.old }
        requires come { Contains self.old.order.items node }
        ensures walk { OnOk result (IsWalk (plain graph.now) self.new) }
        ensures children { OnOk result (HasChildren (plain graph.now) node self.new) }
        ensures goes_on { OnOk result (GoesOn self.old self.new) }
    {
        law_stored(graph);
        let root = self.roots[node as usize];
        let method = if has_label(graph, node, Label::Method) {
            node
        } else {
            self.methods[node as usize]
        };
        let children = index.out(node, EdgeKind::Ast);
        for edge in children {
            self.place(edge.to, method, root)?;
        }
        Ok(())
    }

    /// Comes to all nodes below those to which it has come.
    pub(crate) fn place_below(&mut self, graph: &Graph, index: &Index) -> Result<(), AllocError>
        requires shaped { IsShaped (plain graph.now) }
        requires index { IsIndexOf graph.now index.now }
        requires walk { IsWalk (plain graph.now) self.old }
        requires roots { HasRoots (plain graph.now) self.old }
        ensures walk { OnOk result (IsWalk (plain graph.now) self.new) }
        ensures all { OnOk result (HasAll (plain graph.now) self.new) }
    {
        law_stored(graph);
        let mut next = 0;
        while next < self.order.len() {
            let node = self.order[next];
            self.place_children(graph, index, node)?;
            next += 1;
        }
        Ok(())
    }
}
