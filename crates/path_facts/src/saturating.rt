//! The work list: each fact in its turn.

ghost use Rattle.std.specs.Prelude.{ℕ, ◌≡◌, ◌≢◌, ◌↔◌, ◌<◌, IfOk, OnOk};
ghost use Rattle.std.specs.List.{All, AllPairs, Contains};
ghost use Rattle.matched_paths.specs.Edges.{IsGoal, IsOut};
ghost use Rattle.matched_paths.specs.Folded.{HoldsOutsOf};
ghost use Rattle.matched_paths.specs.Matched.{IsTruePair};
ghost use Rattle.flow_index.specs.Crossings.{IsIndexOf};
ghost use Rattle.path_facts.specs.Facts.{Begins};

use crate::ground::Ground;
use crate::pair_set::PairSet;
use crate::taking::take_up;
use flow_index::CrossingIndex;
use matched_paths::{FlowGraph, Pair};
use std::alloc::{AllocError, Global};

/// For how many facts a vertex there is room from the start.
const ROOM_OF_VERTEX: usize = 16;

/// For how many facts there is room from the start at most: 8 MB.
const MOST_ROOM: usize = 1 << 20;

/// The first facts: each goal leads to itself.
///
/// Room for more is taken at once, of which memory is used as it is filled: a list that grows is
/// copied, and an allocator that keeps as much as the largest block that it got back keeps the
/// memory of this table for the next.
fn begun(alloc: Global, count: u32, goals: &[u32]) -> Result<PairSet, AllocError>
    requires { All (λ goal. goal < count) goals.now }
    ensures { IfOk result (Begins count goals.now) }
{
    let vertices = count as usize;
    let room = vertices.saturating_mul(ROOM_OF_VERTEX).min(MOST_ROOM);
    let mut facts = PairSet::new(alloc, vertices, room)?;
    for goal in goals {
        facts.meet(*goal, *goal)?;
    }
    Ok(facts)
}

/// The pairs of goals and outs among the facts.
fn summaries(
    alloc: Global,
    flow: &FlowGraph,
    crossings: &CrossingIndex,
    facts: &[(u32, u32)],
) -> Result<Vec<Pair>, AllocError>
    requires index { IsIndexOf flow.now crossings.now }
    requires once { AllPairs (λ a b. a ≢ b) facts.now }
    ensures each { IfOk result (λ pairs. (pair : Pair) → Contains pairs.items pair ↔
        (IsOut flow.now pair.out × Contains facts.now (pair.out, pair.goal))) }
    ensures once { IfOk result (λ pairs. AllPairs (λ a b. a ≢ b) pairs.items) }
{
    let mut pairs = Vec::new(alloc);
    for fact in facts {
        if crossings.is_out(flow, fact.0) {
            pairs.push(Pair {
                goal: fact.1,
                out: fact.0,
            })?;
        }
    }
    Ok(pairs)
}

/// The pairs of these goals and the outs to which matched paths lead from them, each once.
///
/// A fact is met once. It is taken along the flat edges and bridges that leave its vertex, and a
/// pair along the closes of its out, each with the opens of its call to the goal. A fact is looked
/// up by its hash.
pub fn true_pairs(alloc: Global, flow: &FlowGraph, goals: &[u32]) -> Result<Vec<Pair>, AllocError>
    requires { All (IsGoal flow.now) goals.now }
    ensures sound { IfOk result (λ pairs. All
        (λ pair. Contains goals.now pair.goal × IsTruePair flow.now pair) pairs.items) }
    ensures holds { IfOk result (λ pairs. HoldsOutsOf flow.now (Contains goals.now) pairs.items) }
    ensures once { IfOk result (λ pairs. AllPairs (λ a b. a ≢ b) pairs.items) }
{
    let ground = Ground::of(alloc, flow)?;
    let mut facts = begun(alloc, flow.vertices, goals)?;
    let mut bridges = PairSet::new(alloc, flow.vertices as usize, 0)?;
    let mut ways = Vec::new(alloc);
    for next in 0..usize::MAX {
        if next == facts.pairs.len() {
            let pairs = summaries(alloc, flow, &ground.crossings, facts.pairs.as_slice())?;
            return Ok(pairs);
        }
        take_up(flow, &ground, next, &mut facts, &mut bridges, &mut ways)?;
    }
    Err(AllocError) // No list has so many facts.
}
