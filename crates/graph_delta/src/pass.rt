//! A pass over a graph.

ghost use Rattle.std.specs.Prelude.{ℕ, ◌≡◌, ◌<◌, IfOk, Ok};
ghost use Rattle.cpg_schema.specs.declared.caps.Caps.{Caps};
ghost use Rattle.cpg_schema.specs.Graph.{PlainGraph};
ghost use Rattle.cpg_schema.specs.Deltas.{PlainDelta};
ghost use Rattle.cpg_schema.specs.Fitting.{IsGraph, PartsFit};
ghost use Rattle.cpg_schema.specs.Sequence.{seq};
ghost use Rattle.cpg_schema.specs.Shape.{IsShaped};
ghost use Rattle.graph_store.specs.Stored.{StoredGraph, plain};

use graph_store::{Delta, Graph};
use std::alloc::{AllocError, Global};

/// A pass adds to a graph in parts, as one for each file or method. Each part sees the graph as it
/// was at the start, and not what other parts add, so parts can be made in any order.
///
/// What a pass means is said of the plain graph, by four members. `takes`: the graphs that it may
/// be given. `parts_of`: how many parts it has. `delta_of`: what a part adds. `is_ready`: what
/// serves all parts of a graph, as its index; it holds numbers of names, so it is said of the
/// graph as it is kept.
///
/// A pass promises two laws of every well-formed graph that it takes. `fits`: the deltas of its
/// parts fit the graph as it is at the start; so each may be applied after those before it
/// (`laws::law_parts_fit`). `shapes`: the graph with all parts is shaped, whatever the caps are, so
/// a later pass may be given it.
pub trait Pass {
    /// What is made once for all parts.
    type Ready: Drop + Sync;

    ghost takes: { Self → PlainGraph → Type 0 };

    ghost parts_of: { Self → PlainGraph → ℕ };

    ghost delta_of: { Self → PlainGraph → ℕ → PlainDelta };

    ghost is_ready: { Self → StoredGraph → Self.Ready → Type 0 };

    /// How many parts there are.
    fn parts(&self, graph: &Graph) -> u32
        requires { takes self.now (plain graph.now) }
        ensures { result ≡ parts_of self.now (plain graph.now) };

    /// What serves all parts of this graph.
    fn prepare(&self, alloc: Global, graph: &Graph) -> Result<Self::Ready, AllocError>
        requires { takes self.now (plain graph.now) }
        ensures { IfOk result (is_ready self.now graph.now) };

    /// What a part adds to the graph. Parts are numbered from 0.
    fn delta(
        &self,
        alloc: Global,
        graph: &Graph,
        ready: &Self::Ready,
        part: u32,
    ) -> Result<Delta, AllocError>
        requires takes { takes self.now (plain graph.now) }
        requires ready { is_ready self.now graph.now ready.now }
        requires inside { part < parts_of self.now (plain graph.now) }
        ensures { IfOk result (λ delta. delta ≡ delta_of self.now (plain graph.now) part) };

    // Each part's delta fits the graph as it is at the start, and no two set one key at one node.
    ghost fits: { (pass : Self) (start : PlainGraph) → IsGraph start → takes pass start →
        PartsFit start (delta_of pass start) (parts_of pass start) };

    // The graph with all parts is shaped.
    ghost shapes: { (pass : Self) (caps : Caps) (start graph : PlainGraph) → IsGraph start →
        takes pass start → seq caps start (delta_of pass start) (parts_of pass start) ≡ Ok graph →
        IsShaped graph };
}
