//! The search in two turns: out of methods, and then into them.

ghost use Rattle.std.specs.Prelude.{ℕ, ◌⊎◌, ◌<◌, ◌↔◌, IfOk, IsTrue};
ghost use Rattle.std.specs.List.{All, Contains};
ghost use Rattle.matched_paths.specs.Edges.{Crosses};
ghost use Rattle.flow_search.specs.Flowing.{IsReachedFrom};

use flow_index::{VertexSet, folded_ways, reached, ways_of};
use matched_paths::Crossing;
use std::alloc::{AllocError, Global};
use std::marker::Model;
use summary_core::Closed;

/// The vertices that data flows to from some starts. Contracts see the list of them.
#[derive(Drop)]
pub struct Reached {
    set: VertexSet,
}

impl Model for Reached {
    ghost use Rattle.std.specs.Prelude.{ℕ, List};

    ghost Value = { List ℕ };

    ghost view = { λ reached. reached.set.met };
}

/// The steps, and beside them the ends of crossings.
fn with_crossings(
    alloc: Global,
    steps: &[(u32, u32)],
    crossings: &[Crossing],
) -> Result<Vec<(u32, u32)>, AllocError>
    ensures { IfOk result (λ ways. (a b : ℕ) →
        Contains ways.items (a, b) ↔ (Contains steps.now (a, b) ⊎ Crosses crossings.now a b)) }
{
    let mut ways = ways_of(alloc, crossings)?;
    ways.extend_from_slice(steps)?;
    Ok(ways)
}

/// The vertices to which a flow leads from one of the starts, the starts among them.
///
/// It takes time linear in the flow graph and in the opens to the goals of the table's pairs, each
/// with the closes of its call.
pub fn reach(alloc: Global, closed: &Closed, starts: &[u32]) -> Result<Reached, AllocError>
    requires { All (Contains closed.now.starts) starts.now }
    ensures { IfOk result (IsReachedFrom closed.now.flow starts.now) }
{
    let flow = closed.flow();
    let steps = folded_ways(alloc, flow, closed.pairs())?;
    let out = with_crossings(alloc, &steps, flow.closes.items())?;
    let turns = reached(alloc, flow.vertices, &out, starts)?;
    let into = with_crossings(alloc, &steps, flow.opens.items())?;
    let set = reached(alloc, flow.vertices, &into, turns.met())?;
    Ok(Reached { set })
}

impl Reached {
    /// Whether a flow leads to the vertex. It takes no memory.
    pub fn has(&self, vertex: u32) -> bool
        ensures { IsTrue result ↔ Contains self.now vertex }
    {
        self.set.has(vertex)
    }
}
