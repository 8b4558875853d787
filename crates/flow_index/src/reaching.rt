//! Which vertices edges lead to from some starts.

ghost use Rattle.std.specs.Prelude.{ℕ, ◌≡◌, ◌<◌, ◌↔◌, length, map, slice_index, IfOk, OnOk};
ghost use Rattle.std.specs.List.{All, Contains};
ghost use Rattle.flow_index.specs.Ways.{AreAmong, IsReached};
ghost use Rattle.flow_index.specs.Vertices.{FollowsAll, Grows};

use crate::chains::Chains;
use crate::vertex_set::VertexSet;
use std::alloc::{AllocError, Global};

/// Meets the ends of all ways that leave the vertex.
fn follow(
    ways: &[(u32, u32)],
    chains: &Chains,
    from: u32,
    set: &mut VertexSet,
) -> Result<(), AllocError>
    requires ways { AreAmong set.old.count ways.now }
    requires keys { chains.now.keys ≡ map (λ way. way.0) ways.now }
    requires from { from < chains.now.count }
    ensures grows { OnOk result (Grows (λ to. Contains ways.now (from, to)) set.old set.new) }
    ensures all { OnOk result (FollowsAll ways.now from set.new) }
{
    let mut next = chains.last(from);
    while let Some(position) = next {
        set.meet(ways[position as usize].1)?;
        next = chains.before(position);
    }
    Ok(())
}

/// The vertices to which the ways lead from the starts, the starts among them.
pub fn reached(
    alloc: Global,
    count: u32,
    ways: &[(u32, u32)],
    starts: &[u32],
) -> Result<VertexSet, AllocError>
    requires ways { AreAmong count ways.now }
    requires starts { All (λ start. start < count) starts.now }
    ensures count { IfOk result (λ set. set.count ≡ count) }
    ensures reached { IfOk result (λ set. (vertex : ℕ) →
        Contains set.met vertex ↔ IsReached ways.now starts.now vertex) }
{
    let keys: Vec<u32> = ways.iter().map(|way| way.0).collect(alloc)?;
    let chains = Chains::of(alloc, count as usize, keys)?;
    let mut set = VertexSet::new(alloc, count)?;
    for start in starts {
        set.meet(*start)?;
    }
    for next in 0..usize::MAX {
        if next == set.met().len() {
            return Ok(set);
        }
        let from = set.met()[next];
        follow(ways, &chains, from, &mut set)?;
    }
    Err(AllocError) // No list has so many vertices.
}
