//! What stays the same while facts are found.

ghost use Rattle.std.specs.Prelude.{◌≡◌, map, IfOk};
ghost use Rattle.path_facts.specs.Facts.{IsGround};

use flow_index::{Chains, CrossingIndex};
use matched_paths::FlowGraph;
use std::alloc::{AllocError, Global};

/// The flat edges of a flow graph by where they begin, and its crossings.
#[derive(Drop)]
pub(crate) struct Ground {
    pub(crate) flat: Chains,
    pub(crate) crossings: CrossingIndex,
}

/// The flat edges by where they begin.
fn flat(alloc: Global, flow: &FlowGraph) -> Result<Chains, AllocError>
    ensures count { IfOk result (λ chains. chains.count ≡ flow.now.vertices) }
    ensures keys { IfOk result (λ chains. chains.keys ≡ map (λ edge. edge.0) flow.now.flat) }
{
    let keys: Vec<u32> = flow.flat.items().iter().map(|edge| edge.0).collect(alloc)?;
    let chains = Chains::of(alloc, flow.vertices as usize, keys)?;
    Ok(chains)
}

impl Ground {
    pub(crate) fn of(alloc: Global, flow: &FlowGraph) -> Result<Ground, AllocError>
        ensures { IfOk result (IsGround flow.now) }
    {
        let flat = flat(alloc, flow)?;
        let crossings = CrossingIndex::of(alloc, flow)?;
        Ok(Ground { flat, crossings })
    }
}
