//! Flights over a board.

ghost use Rattle.std.specs.Prelude.{◌≡◌, ◌≤◌, [], length, take, IfOk, MatchOption, OnOk};
ghost use Rattle.summary_core.specs.Events.{Flies};
ghost use Rattle.summary_core.specs.Searches.{IsFoundOf};

use crate::may_be_closed;
use joern_io::List;
use matched_paths::{Crossing, FlowGraph};
use std::alloc::{AllocError, Global};
use std::process::Abort;
use std::sync::Arc;
use std::test::Fail;
use summary_core::laws::law_kept;
use summary_core::{Board, Found, Goal, Mirror, outs};

/// A goal in flight, and what was found from it.
#[derive(Drop)]
struct Flight {
    goal: Goal,
    found: Found,
}

/// A method that calls another: 0 opens 1, which opens 3, and 4 closes to 2, which closes to 5.
fn calls_another(alloc: Global) -> Result<FlowGraph, Fail> {
    let mut opens = Vec::new(alloc);
    let mut closes = Vec::new(alloc);
    for (call, from, to) in [(0, 0, 1), (1, 1, 3)] {
        opens.push(Crossing { call, from, to })?;
    }
    for (call, from, to) in [(0, 2, 5), (1, 4, 2)] {
        closes.push(Crossing { call, from, to })?;
    }
    let flat = Vec::from_slice(alloc, &[(3, 4)])?;
    let flow = FlowGraph::new(6, List::of(flat), List::of(opens), List::of(closes));
    Ok(flow.ok_or("an end is no vertex")?)
}

/// A method that calls itself: from 1 and 3 to 2, and back from 2 to 3.
fn calls_itself(alloc: Global) -> Result<FlowGraph, Fail> {
    let mut opens = Vec::new(alloc);
    opens.push(Crossing {
        call: 0,
        from: 1,
        to: 1,
    })?;
    let mut closes = Vec::new(alloc);
    closes.push(Crossing {
        call: 0,
        from: 2,
        to: 3,
    })?;
    let flat = Vec::from_slice(alloc, &[(1, 2), (3, 2)])?;
    let flow = FlowGraph::new(5, List::of(flat), List::of(opens), List::of(closes));
    Ok(flow.ok_or("an end is no vertex")?)
}

/// The graph, and its board for the start.
fn opened(alloc: Global, flow: FlowGraph, start: u32) -> Result<(Arc<FlowGraph>, Board), Fail>
    ensures flow { IfOk result (λ both. both.1.flow ≡ both.0.value) }
    ensures history { IfOk result (λ both. both.1.history ≡ []) }
{
    let starts = List::of(Vec::from_slice(alloc, &[start])?);
    if !may_be_closed(&flow, starts.items()) {
        return Err(Fail::from("a start is no vertex"));
    }
    let flow = Arc::new(alloc, flow)?;
    let board = Board::new(alloc, flow.clone()?, starts)?;
    Ok((flow, board))
}

/// Claims a goal, and searches from it over the whole history.
fn take_off(
    alloc: Global,
    flow: &FlowGraph,
    board: &mut Board,
    mirror: &mut Mirror,
) -> Result<Option<Flight>, AllocError>
    requires flow { board.old.flow ≡ flow.now }
    requires front { mirror.old ≡ take (length mirror.old) board.old.history }
    ensures flow { OnOk result (board.new.flow ≡ flow.now) }
    ensures whole { OnOk result (mirror.new ≡ board.new.history) }
    ensures flight { IfOk result (λ flight. MatchOption flight (Unit {0}) (λ f.
        Flies board.new f.goal.vertex × (f.found.seen ≤ length board.new.history)
        × IsFoundOf board.new.flow (take f.found.seen board.new.history) f.goal.vertex f.found)) }
{
    law_kept(board);
    board.copy_tail(mirror)?;
    let goal = match board.claim(mirror) {
        Some(goal) => goal,
        None => return Ok(None),
    };
    let found = outs(alloc, flow, mirror, goal)?;
    Ok(Some(Flight { goal, found }))
}

/// Publishes what was found.
fn land(board: &mut Board, mirror: &Mirror, flight: Flight) -> Result<(), AllocError>
    requires flies { Flies board.old flight.goal.vertex }
    requires seen { flight.found.seen ≤ length board.old.history }
    requires found { IsFoundOf board.old.flow (take flight.found.seen board.old.history)
        flight.goal.vertex flight.found }
    requires whole { mirror.now ≡ board.old.history }
    ensures flow { OnOk result (board.new.flow ≡ board.old.flow) }
    ensures front { OnOk result (mirror.now ≡ take (length mirror.now) board.new.history) }
{
    let _ = mirror;
    board.publish(flight.goal, flight.found)?;
    Ok(())
}

/// The flight went as planned.
fn check(rt: &impl Abort, flight: &Flight, plan: &Plan) {
    assert_eq!(rt; flight.goal.vertex, plan.goal);
    assert_eq!(rt; flight.found.outs.items(), plan.outs);
    assert_eq!(rt; flight.found.asked.items(), plan.asked);
    assert_eq!(rt; flight.found.seen, plan.seen);
}

/// Gives up a flight, and what was found.
fn turn_back(board: &mut Board, mirror: &Mirror, flight: Flight)
    requires flies { Flies board.old flight.goal.vertex }
    requires whole { mirror.now ≡ board.old.history }
    ensures flow { board.new.flow ≡ board.old.flow }
    ensures front { mirror.now ≡ take (length mirror.now) board.new.history }
{
    let _ = mirror;
    board.abandon(flight.goal);
}

/// Publishes what was found, or gives it up.
fn end_flight(
    board: &mut Board,
    mirror: &Mirror,
    flight: Flight,
    lands: bool,
) -> Result<(), AllocError>
    requires flies { Flies board.old flight.goal.vertex }
    requires seen { flight.found.seen ≤ length board.old.history }
    requires found { IsFoundOf board.old.flow (take flight.found.seen board.old.history)
        flight.goal.vertex flight.found }
    requires whole { mirror.now ≡ board.old.history }
    ensures flow { OnOk result (board.new.flow ≡ board.old.flow) }
    ensures front { OnOk result (mirror.now ≡ take (length mirror.now) board.new.history) }
{
    if lands {
        land(board, mirror, flight)
    } else {
        turn_back(board, mirror, flight);
        Ok(())
    }
}

/// Whether a flight lands or turns back, and what it finds over how many pairs.
#[derive(Clone, Copy)]
struct Plan {
    lands: bool,
    goal: u32,
    outs: &'static [u32],
    asked: &'static [u32],
    seen: u64,
}

/// The flights. After them no goal is dirty, and so many pairs stand.
fn fly_all(
    rt: &impl Abort,
    alloc: Global,
    flow: FlowGraph,
    start: u32,
    plans: &[Plan],
    pairs: usize,
) -> Result<(), Fail> {
    let (flow, mut board) = opened(alloc, flow, start)?;
    let mut mirror = Mirror::new(alloc);
    for plan in plans {
        let Some(flight) = take_off(alloc, &flow, &mut board, &mut mirror)? else {
            return Err(Fail::from("no goal is dirty"));
        };
        check(rt, &flight, plan);
        end_flight(&mut board, &mirror, flight, plan.lands)?;
    }
    let last = take_off(alloc, &flow, &mut board, &mut mirror)?;
    assert!(rt; last.is_none());
    assert_eq!(rt; mirror.pairs().len(), pairs);
    Ok(())
}

/// From the goal 1 to the out 2; it asks itself.
fn of_itself(lands: bool, seen: u64) -> Plan {
    Plan {
        lands,
        goal: 1,
        outs: &[2],
        asked: &[1],
        seen,
    }
}

#[test]
fn a_goal_that_asks_itself_is_searched_twice(rt: HostRuntime) -> Result<(), Fail> {
    let flow = calls_itself(rt.alloc())?;
    let plans = [of_itself(true, 0), of_itself(true, 1)];
    fly_all(&rt, rt.alloc(), flow, 1, &plans, 1)
}

#[test]
fn every_second_flight_may_turn_back(rt: HostRuntime) -> Result<(), Fail> {
    let flow = calls_itself(rt.alloc())?;
    let plans = [
        of_itself(false, 0),
        of_itself(true, 0),
        of_itself(false, 1),
        of_itself(true, 1),
    ];
    fly_all(&rt, rt.alloc(), flow, 1, &plans, 1)
}

// The goal 1 asks 3, and is searched again once a pair of 3 stands.
#[test]
fn a_goal_is_dirty_again_once_what_it_asked_has_a_pair(rt: HostRuntime) -> Result<(), Fail> {
    let flow = calls_another(rt.alloc())?;
    let plans = [
        Plan {
            lands: true,
            goal: 1,
            outs: &[],
            asked: &[3],
            seen: 0,
        },
        Plan {
            lands: true,
            goal: 3,
            outs: &[4],
            asked: &[],
            seen: 0,
        },
        Plan {
            lands: true,
            goal: 1,
            outs: &[2],
            asked: &[3],
            seen: 1,
        },
    ];
    fly_all(&rt, rt.alloc(), flow, 0, &plans, 2)
}

#[test]
fn an_abandoned_goal_is_claimed_again(rt: HostRuntime) -> Result<(), Fail> {
    let flow = calls_itself(rt.alloc())?;
    let (_flow, mut board) = opened(rt.alloc(), flow, 1)?;
    let mirror = Mirror::new(rt.alloc());
    let Some(goal) = board.claim(&mirror) else {
        return Err(Fail::from("no goal is dirty"));
    };
    assert!(rt; board.in_flight(goal));
    assert!(rt; board.claim(&mirror).is_none());
    assert!(rt; board.in_flight(goal));
    board.abandon(goal);
    assert_eq!(rt; board.claim(&mirror), Some(goal));
    Ok(())
}
