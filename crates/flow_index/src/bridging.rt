//! The bridges over a list of pairs.

ghost use Rattle.std.specs.Prelude.{ℕ, ◌≡◌, ◌<◌, ◌↔◌, map, IfOk, IsTrue, OnOk};
ghost use Rattle.std.specs.List.{All, Contains};
ghost use Rattle.matched_paths.specs.Edges.{IsOut};
ghost use Rattle.flow_index.specs.Ways.{AddsAll, AreAmong, AreSteps, Bridges, BridgesOver, Enters};
ghost use Rattle.flow_index.specs.Crossings.{AreEntryPositions, IsIndexOf, slot_of};

use crate::chains::Chains;
use matched_paths::{Crossing, FlowGraph, Pair};
use std::alloc::{AllocError, Global};

/// An odd number near 2^32 divided by the golden ratio.
const CALL_FACTOR: u32 = 2_654_435_761;

/// Another odd number, of well mixed bits.
const GOAL_FACTOR: u32 = 2_246_822_507;

/// The slot of the opens of a call to a goal. Others may have the same one.
fn slot_for(call: u32, goal: u32, slots: u32) -> u32
    requires { 0 < slots }
    ensures slot { result ≡ slot_of slots call goal }
    ensures below { result < slots }
{
    let by_call = call.wrapping_mul(CALL_FACTOR);
    let by_goal = goal.wrapping_mul(GOAL_FACTOR);
    by_call.wrapping_add(by_goal) % slots
}

/// The slots of the opens.
fn entry_slots(alloc: Global, opens: &[Crossing], slots: u32) -> Result<Vec<u32>, AllocError>
    requires { 0 < slots }
    ensures slots { IfOk result (λ keys.
        keys.items ≡ map (λ entry. slot_of slots entry.call entry.to) opens.now) }
    ensures below { IfOk result (λ keys. All (λ key. key < slots) keys.items) }
{
    let mut keys = Vec::with_capacity(alloc, opens.len())?;
    for entry in opens {
        keys.push(slot_for(entry.call, entry.to, slots))?;
    }
    Ok(keys)
}

/// Whether the open is of this call and to this goal.
fn enters(entry: &Crossing, call: u32, goal: u32) -> bool
    ensures { IsTrue result ↔ ((entry.now.call ≡ call) × (entry.now.to ≡ goal)) }
{
    entry.call == call && entry.to == goal
}

/// Adds the ways to the end of a close from where its call opens the goal.
fn add_entries(
    flow: &FlowGraph,
    by_entry: &Chains,
    slots: u32,
    close: Crossing,
    goal: u32,
    ways: &mut Vec<(u32, u32)>,
) -> Result<(), AllocError>
    requires slots { slots ≡ by_entry.now.count }
    requires entries { AreEntryPositions flow.now by_entry.now }
    ensures { OnOk result
        (AddsAll (Enters flow.now close.to close.call goal) ways.old.items ways.new.items) }
{
    let mut next = by_entry.last(slot_for(close.call, goal, slots));
    while let Some(position) = next {
        let entry = &flow.opens.items()[position as usize];
        if enters(entry, close.call, goal) {
            ways.push((entry.from, close.to))?;
        }
        next = by_entry.before(position);
    }
    Ok(())
}

/// The closes of a flow graph by where they begin, and its opens by their calls and goals.
#[derive(Drop)]
pub struct CrossingIndex {
    by_out: Chains,
    by_entry: Chains,
    slots: u32,
}

impl CrossingIndex {
    /// The index of a flow graph.
    pub fn of(alloc: Global, flow: &FlowGraph) -> Result<CrossingIndex, AllocError>
        ensures { IfOk result (IsIndexOf flow.now) }
    {
        let outs: Vec<u32> = flow
            .closes
            .items()
            .iter()
            .map(|close| close.from)
            .collect(alloc)?;
        let by_out = Chains::of(alloc, flow.vertices as usize, outs)?;
        let opens = flow.opens.items();
        let Ok(slots) = u32::try_from(opens.len().max(1)) else {
            return Err(AllocError); // A list of so many keys counts as want of memory.
        };
        let entries = entry_slots(alloc, opens, slots)?;
        let by_entry = Chains::of(alloc, slots as usize, entries)?;
        Ok(CrossingIndex {
            by_out,
            by_entry,
            slots,
        })
    }

    /// Whether a close leaves the vertex, which takes constant time.
    pub fn is_out(&self, flow: &FlowGraph, vertex: u32) -> bool
        requires { IsIndexOf flow.now self.now }
        ensures { IsTrue result ↔ IsOut flow.now vertex }
    {
        if vertex >= flow.vertices {
            return false;
        }
        self.by_out.last(vertex).is_some()
    }

    /// Adds the bridges over a pair, in time linear in the closes from its out and in the bridges,
    /// where few opens of other calls or goals share a slot.
    pub fn add_over(
        &self,
        flow: &FlowGraph,
        pair: Pair,
        ways: &mut Vec<(u32, u32)>,
    ) -> Result<(), AllocError>
        requires { IsIndexOf flow.now self.now }
        ensures { OnOk result (AddsAll (BridgesOver flow.now pair) ways.old.items ways.new.items) }
    {
        if pair.out >= flow.vertices {
            return Ok(());
        }
        let mut next = self.by_out.last(pair.out);
        while let Some(position) = next {
            let close = flow.closes.items()[position as usize];
            add_entries(flow, &self.by_entry, self.slots, close, pair.goal, ways)?;
            next = self.by_out.before(position);
        }
        Ok(())
    }
}

/// The bridges over these pairs: ways from where a call opens a pair's goal to where it closes the
/// pair's out.
fn bridges(alloc: Global, flow: &FlowGraph, pairs: &[Pair]) -> Result<Vec<(u32, u32)>, AllocError>
    ensures { IfOk result (λ ways. (a b : ℕ) →
        Contains ways.items (a, b) ↔ Bridges flow.now pairs.now a b) }
{
    let index = CrossingIndex::of(alloc, flow)?;
    let mut ways = Vec::new(alloc);
    for pair in pairs {
        index.add_over(flow, *pair, &mut ways)?;
    }
    Ok(ways)
}

/// The steps of folded paths over these pairs, as ways: flat edges and bridges.
pub fn folded_ways(
    alloc: Global,
    flow: &FlowGraph,
    pairs: &[Pair],
) -> Result<Vec<(u32, u32)>, AllocError>
    ensures steps { IfOk result (λ ways. AreSteps flow.now pairs.now ways.items) }
    ensures within { IfOk result (λ ways. AreAmong flow.now.vertices ways.items) }
{
    let mut ways = bridges(alloc, flow, pairs)?;
    ways.extend_from_slice(flow.flat.items())?;
    Ok(ways)
}
