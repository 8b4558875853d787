//! The wanted goals of a flow graph.

ghost use Rattle.std.specs.Prelude.{ℕ, ◌≡◌, ◌<◌, ◌↔◌, IfOk, IsTrue};
ghost use Rattle.std.specs.List.{All, Contains};
ghost use Rattle.matched_paths.specs.Edges.{IsGoal};
ghost use Rattle.matched_paths.specs.Wanted.{HasEdge, IsMet};
ghost use Rattle.flow_index.specs.Ways.{AreAmong};
ghost use Rattle.summary_core.specs.Board.{AreWanted};

use flow_index::{VertexSet, reached, ways_of};
use matched_paths::FlowGraph;
use std::alloc::{AllocError, Global};

/// The goals of a flow graph.
fn goals(alloc: Global, flow: &FlowGraph) -> Result<VertexSet, AllocError>
    ensures { IfOk result (λ set. (vertex : ℕ) →
        Contains set.met vertex ↔ IsGoal flow.now vertex) }
{
    let mut set = VertexSet::new(alloc, flow.vertices)?;
    for entry in flow.opens.items() {
        set.meet(entry.to)?;
    }
    Ok(set)
}

/// All edges, whatever their labels.
fn edges(alloc: Global, flow: &FlowGraph) -> Result<Vec<(u32, u32)>, AllocError>
    ensures edges { IfOk result (λ ways. (a b : ℕ) →
        Contains ways.items (a, b) ↔ HasEdge flow.now a b) }
    ensures within { IfOk result (λ ways. AreAmong flow.now.vertices ways.items) }
{
    let mut ways = ways_of(alloc, flow.opens.items())?;
    let closes = ways_of(alloc, flow.closes.items())?;
    ways.extend_from_slice(&closes)?;
    ways.extend_from_slice(flow.flat.items())?;
    Ok(ways)
}

/// The vertices that the starts lead to along edges of any labels.
fn met(alloc: Global, flow: &FlowGraph, starts: &[u32]) -> Result<VertexSet, AllocError>
    requires { All (λ start. start < flow.now.vertices) starts.now }
    ensures { IfOk result (λ set. (vertex : ℕ) →
        Contains set.met vertex ↔ IsMet flow.now starts.now vertex) }
{
    let ways = edges(alloc, flow)?;
    let set = reached(alloc, flow.vertices, &ways, starts)?;
    Ok(set)
}

/// Whether the vertex was met in both sets.
fn in_both(goals: &VertexSet, met: &VertexSet, vertex: u32) -> bool
    ensures { IsTrue result ↔ (Contains goals.now.met vertex × Contains met.now.met vertex) }
{
    goals.has(vertex) && met.has(vertex)
}

/// The wanted goals, rising.
pub(crate) fn wanted_goals(
    alloc: Global,
    flow: &FlowGraph,
    starts: &[u32],
) -> Result<Vec<u32>, AllocError>
    requires { All (λ start. start < flow.now.vertices) starts.now }
    ensures { IfOk result (λ goals. AreWanted flow.now starts.now goals.items) }
{
    let goals = goals(alloc, flow)?;
    let met = met(alloc, flow, starts)?;
    let mut wanted = Vec::new(alloc);
    for vertex in 0..flow.vertices {
        if in_both(&goals, &met, vertex) {
            wanted.push(vertex)?;
        }
    }
    Ok(wanted)
}
