//! Vertices in the order in which they were met.

ghost use Rattle.std.specs.Prelude.{ℕ, ◌≡◌, ◌<◌, ◌↔◌, []};
ghost use Rattle.std.specs.Prelude.{length, slice_index, IfOk, IsTrue, OnErr, OnOk};
ghost use Rattle.std.specs.List.{All, Contains};
ghost use Rattle.flow_index.specs.Vertices.{Meets};

use std::alloc::{AllocError, Global};
use std::marker::Model;

/// A set of vertices, in the order in which they were met.
///
/// Contracts see how many vertices there are, and the list of those that were met.
#[derive(Drop)]
pub struct VertexSet {
    marks: Vec<bool>,
    met: Vec<u32>,
}

impl Model for VertexSet {
    ghost use Rattle.std.specs.Prelude.{length};
    ghost use Rattle.flow_index.specs.Vertices.{Vertices, AreMarked};

    ghost Value = { Vertices };

    ghost view = { λ set. record { count = length set.marks.items; met = set.met.items } };

    ghost invariant = { λ set. AreMarked set.marks.items set.met.items };
}

impl VertexSet {
    /// None of `count` vertices was met.
    pub fn new(alloc: Global, count: u32) -> Result<VertexSet, AllocError>
        ensures count { IfOk result (λ set. set.count ≡ count) }
        ensures met { IfOk result (λ set. set.met ≡ []) }
    {
        Ok(VertexSet {
            marks: Vec::from_elem(alloc, false, count as usize)?,
            met: Vec::new(alloc),
        })
    }

    /// Meets a vertex, which may have been met before.
    pub fn meet(&mut self, vertex: u32) -> Result<(), AllocError>
        requires { vertex < self.old.count }
        ensures ok { OnOk result (Meets self.old self.new vertex) }
        ensures err { OnErr result (self.new ≡ self.old) }
    {
        if !self.marks[vertex as usize] {
            self.met.push(vertex)?;
            self.marks[vertex as usize] = true;
        }
        Ok(())
    }

    /// Whether the vertex was met.
    pub fn has(&self, vertex: u32) -> bool
        ensures { IsTrue result ↔ Contains self.now.met vertex }
    {
        self.marks.get(vertex as usize).copied().unwrap_or(false)
    }

    /// The vertices that were met, in that order.
    pub fn met(&self) -> &[u32]
        ensures met { result.now ≡ self.now.met }
        ensures within { All (λ vertex. vertex < self.now.count) result.now }
    {
        self.met.as_slice()
    }
}
