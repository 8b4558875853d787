//! What follows from one fact, over flat edges and the bridges that stand.

ghost use Rattle.std.specs.Prelude.{ℕ, ◌≡◌, ◌+◌, ◌<◌, length, map, OnOk};
ghost use Rattle.std.specs.List.{Contains};
ghost use Rattle.flow_index.specs.Crossings.{IsIndexOf};
ghost use Rattle.flow_index.specs.Ways.{AreAmong};
ghost use Rattle.path_facts.specs.PairSets.{Grows, IsKept};
ghost use Rattle.path_facts.specs.Facts.{HasGoal, IsGround, Spreads, Tabulates};

use crate::ground::Ground;
use crate::pair_set::PairSet;
use flow_index::{Chains, CrossingIndex};
use matched_paths::{FlowGraph, Pair};
use std::alloc::AllocError;

/// Takes the goal from the vertex along all ways that leave it.
fn follow(
    ways: &[(u32, u32)],
    chains: &Chains,
    vertex: u32,
    goal: u32,
    facts: &mut PairSet,
) -> Result<(), AllocError>
    requires kept { IsKept facts.old }
    requires ways { AreAmong facts.old.by_first.count ways.now }
    requires keys { chains.now.keys ≡ map (λ way. way.0) ways.now }
    requires vertex { vertex < chains.now.count }
    ensures grows { OnOk result (Grows
        (λ fact. Contains ways.now (vertex, fact.0) × (fact.1 ≡ goal)) facts.old facts.new) }
    ensures all { OnOk result ((to : ℕ) → Contains ways.now (vertex, to) →
        Contains facts.new.pairs.items (to, goal)) }
{
    let mut next = chains.last(vertex);
    while let Some(position) = next {
        facts.meet(ways[position as usize].1, goal)?;
        next = chains.before(position);
    }
    Ok(())
}

/// Takes all goals from where a way begins to where it ends.
fn spread(from: u32, to: u32, facts: &mut PairSet) -> Result<(), AllocError>
    requires kept { IsKept facts.old }
    requires from { from < facts.old.by_first.count }
    requires to { to < facts.old.by_first.count }
    ensures { OnOk result (Spreads from to facts.old facts.new) }
{
    let mut next = facts.by_first.last(from);
    while let Some(position) = next {
        let goal = facts.pairs[position as usize].1;
        facts.meet(to, goal)?;
        next = facts.by_first.before(position);
    }
    Ok(())
}

/// Adds the bridges over the pair of a fact, and takes along them the goals that stand where they
/// begin. There are none where its vertex is no out.
///
/// A list that was used before is filled anew with the bridges.
fn cross(
    flow: &FlowGraph,
    crossings: &CrossingIndex,
    position: usize,
    facts: &mut PairSet,
    bridges: &mut PairSet,
    ways: &mut Vec<(u32, u32)>,
) -> Result<(), AllocError>
    requires index { IsIndexOf flow.now crossings.now }
    requires position { position < length facts.old.pairs.items }
    requires tabulates { Tabulates flow.now facts.old bridges.old (position + 1) position }
    ensures tabulates { OnOk result
        (Tabulates flow.now facts.new bridges.new (position + 1) (position + 1)) }
    ensures grows { OnOk result
        (Grows (λ fact. HasGoal facts.old fact.1) facts.old facts.new) }
{
    let (out, goal) = facts.pairs[position];
    ways.clear();
    crossings.add_over(flow, Pair { goal, out }, ways)?;
    for way in ways.as_slice() {
        bridges.meet(way.0, way.1)?;
        spread(way.0, way.1, facts)?;
    }
    Ok(())
}

/// Adds what follows from the fact at the position.
pub(crate) fn take_up(
    flow: &FlowGraph,
    ground: &Ground,
    position: usize,
    facts: &mut PairSet,
    bridges: &mut PairSet,
    ways: &mut Vec<(u32, u32)>,
) -> Result<(), AllocError>
    requires ground { IsGround flow.now ground.now }
    requires position { position < length facts.old.pairs.items }
    requires tabulates { Tabulates flow.now facts.old bridges.old position position }
    ensures tabulates { OnOk result
        (Tabulates flow.now facts.new bridges.new (position + 1) (position + 1)) }
    ensures grows { OnOk result
        (Grows (λ fact. HasGoal facts.old fact.1) facts.old facts.new) }
{
    let (vertex, goal) = facts.pairs[position];
    follow(flow.flat.items(), &ground.flat, vertex, goal, facts)?;
    follow(
        bridges.pairs.as_slice(),
        &bridges.by_first,
        vertex,
        goal,
        facts,
    )?;
    cross(flow, &ground.crossings, position, facts, bridges, ways)?;
    Ok(())
}
