//! The search from one goal.

ghost use Rattle.std.specs.Prelude.{ℕ, ◌≡◌, ◌↔◌, IfOk, OnOk};
ghost use Rattle.std.specs.List.{Contains};
ghost use Rattle.std.specs.List.Sorted.{IsStrictlyIncreasing};
ghost use Rattle.matched_paths.specs.Edges.{IsGoal};
ghost use Rattle.summary_core.specs.Searches.{IsEndOf, IsFoundOf};

use crate::found::{Found, Goal};
use crate::mirror::Mirror;
use flow_index::{VertexSet, folded_ways, reached};
use joern_io::List;
use matched_paths::{Crossing, FlowGraph};
use std::alloc::{AllocError, Global};

/// Puts numbers in order, each once.
fn put_in_order(numbers: &mut Vec<u32>)
    ensures rise { IsStrictlyIncreasing numbers.new.items }
    ensures same { (n : ℕ) → Contains numbers.new.items n ↔ Contains numbers.old.items n }
{
    numbers.sort_unstable();
    numbers.dedup();
}

/// The vertices of the set from which closes leave, rising.
fn outs_among(alloc: Global, closes: &[Crossing], set: &VertexSet) -> Result<Vec<u32>, AllocError>
    ensures rise { IfOk result (λ outs. IsStrictlyIncreasing outs.items) }
    ensures outs { IfOk result (λ outs. (out : ℕ) →
        Contains outs.items out ↔ IsEndOf (λ close. close.from) set.now.met closes.now out) }
{
    let mut outs = Vec::new(alloc);
    for close in closes {
        if set.has(close.from) {
            outs.push(close.from)?;
        }
    }
    put_in_order(&mut outs);
    Ok(outs)
}

/// The vertices at which opens arrive from vertices of the set, rising.
fn goals_met(alloc: Global, opens: &[Crossing], set: &VertexSet) -> Result<Vec<u32>, AllocError>
    ensures rise { IfOk result (λ goals. IsStrictlyIncreasing goals.items) }
    ensures goals { IfOk result (λ goals. (goal : ℕ) →
        Contains goals.items goal ↔ IsEndOf (λ entry. entry.to) set.now.met opens.now goal) }
{
    let mut goals = Vec::new(alloc);
    for entry in opens {
        if set.has(entry.from) {
            goals.push(entry.to)?;
        }
    }
    put_in_order(&mut goals);
    Ok(goals)
}

/// What is found from the goal over the mirror's pairs.
///
/// It takes time linear in the flow graph and in the closes of the outs of the pairs, each with
/// the opens of its call to the goal.
pub fn outs(
    alloc: Global,
    flow: &FlowGraph,
    mirror: &Mirror,
    goal: Goal,
) -> Result<Found, AllocError>
    requires { IsGoal flow.now goal.vertex }
    ensures { IfOk result (IsFoundOf flow.now mirror.now goal.vertex) }
{
    let pairs = mirror.pairs();
    let ways = folded_ways(alloc, flow, pairs)?;
    let set = reached(alloc, flow.vertices, &ways, &[goal.vertex])?;
    let outs = outs_among(alloc, flow.closes.items(), &set)?;
    let asked = goals_met(alloc, flow.opens.items(), &set)?;
    Ok(Found {
        outs: List::of(outs),
        asked: List::of(asked),
        seen: pairs.len() as u64,
    })
}
