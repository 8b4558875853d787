//! Where all nodes of a graph stand.

ghost use Rattle.std.specs.Prelude.{◌≡◌, ◌<◌, Some, length, slice_get, IfOk};
ghost use Rattle.cpg_schema.specs.Shape.{IsShaped};
ghost use Rattle.graph_store.specs.Stored.{plain};
ghost use Rattle.edge_index.specs.Indexed.{IsIndexOf};
ghost use Rattle.graph_parts.specs.Places.{ArePlacesOf};

use crate::walk::Walk;
use edge_index::Index;
use graph_store::Graph;
use std::alloc::{AllocError, Global};
use std::marker::Model;

/// Stands where there is no node. A graph has fewer nodes.
pub(crate) const NO_NODE: u32 = u32::MAX;

/// For each node of a graph the METHOD above it and the root of its tree, each found at once.
///
/// It is used beside the graph of which it was made. Contracts see a list of both.
#[derive(Drop)]
pub struct Places {
    methods: Vec<u32>,
    roots: Vec<u32>,
}

impl Model for Places {
    ghost use Rattle.std.specs.Prelude.{map};
    ghost use Rattle.graph_parts.specs.Places.{Placed};
    ghost use Rattle.graph_parts.specs.Walking.{node_or_none};

    ghost Value = { Placed };

    ghost view = { λ places. record {
      methods = map node_or_none places.methods.items;
      roots = places.roots.items;
    } };
}

/// The places of all nodes, by one walk down from the roots.
///
/// It takes time linear in nodes and edges, and memory for three numbers a node, of which one is
/// given back.
pub fn places_of(alloc: Global, graph: &Graph, index: &Index) -> Result<Places, AllocError>
    requires shaped { IsShaped (plain graph.now) }
    requires index { IsIndexOf graph.now index.now }
    ensures { IfOk result (ArePlacesOf (plain graph.now)) }
{
    let mut walk = Walk::new(alloc, graph.len())?;
    walk.place_roots(graph, index)?;
    walk.place_below(graph, index)?;
    let Walk {
        methods,
        roots,
        order: _,
    } = walk;
    Ok(Places { methods, roots })
}

impl Places {
    /// The METHOD in which a node stands: the nearest above it.
    pub fn method_of(&self, node: u32) -> Option<u32>
        requires { node < length self.now.methods }
        ensures { slice_get self.now.methods node ≡ Some result }
    {
        let method = self.methods[node as usize];
        if method == NO_NODE {
            None
        } else {
            Some(method)
        }
    }

    /// The root of the tree in which a node stands.
    pub fn root_of(&self, node: u32) -> u32
        requires { node < length self.now.roots }
        ensures { slice_get self.now.roots node ≡ Some result }
    {
        self.roots[node as usize]
    }
}
