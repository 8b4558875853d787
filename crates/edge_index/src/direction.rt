//! The two ends from which edges are looked at.

ghost use Rattle.std.specs.Prelude.{ℕ, ◌≡◌};
ghost use Rattle.graph_store.specs.declared.edge.Edge.{Edge};

use graph_store::Edge;

/// From which end edges are looked at.
pub(crate) trait Direction {
    ghost near_of: { Edge → ℕ };

    ghost far_of: { Edge → ℕ };

    /// The end by which the edges stand together.
    fn near(edge: &Edge) -> u32
        ensures { result ≡ near_of edge.now };

    /// The other end.
    fn far(edge: &Edge) -> u32
        ensures { result ≡ far_of edge.now };
}

/// Edges by the nodes that they leave.
pub(crate) struct Leaving;

impl Direction for Leaving {
    ghost near_of = { λ edge. edge.from };

    ghost far_of = { λ edge. edge.to };

    fn near(edge: &Edge) -> u32 {
        edge.from
    }

    fn far(edge: &Edge) -> u32 {
        edge.to
    }
}

/// Edges by the nodes at which they arrive.
pub(crate) struct Arriving;

impl Direction for Arriving {
    ghost near_of = { λ edge. edge.to };

    ghost far_of = { λ edge. edge.from };

    fn near(edge: &Edge) -> u32 {
        edge.to
    }

    fn far(edge: &Edge) -> u32 {
        edge.from
    }
}
