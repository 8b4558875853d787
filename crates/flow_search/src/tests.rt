//! Tables and flows of small graphs.

use crate::reach;
use joern_io::List;
use matched_paths::{Crossing, FlowGraph};
use std::alloc::{AllocError, Global};
use std::sync::Arc;
use std::test::Fail;
use summary_core::Closed;
use summary_table::{may_be_closed, table_one};

/// A flow graph with starts, what its table has, and what the starts reach.
#[derive(Clone, Copy)]
struct Case {
    vertices: u32,
    flat: &'static [(u32, u32)],
    opens: &'static [(u32, u32, u32)],
    closes: &'static [(u32, u32, u32)],
    starts: &'static [u32],
    pairs: &'static [(u32, u32)],
    reached: &'static [u32],
}

/// One method that two calls share; a vertex that is all at once; an open whose flow ends; two
/// methods of which the starts want none, one or both.
const CASES: [Case; 8] = [
    Case {
        vertices: 6,
        flat: &[(1, 2)],
        opens: &[(0, 0, 1), (1, 4, 1)],
        closes: &[(0, 2, 3), (1, 2, 5)],
        starts: &[0],
        pairs: &[(1, 2)],
        reached: &[0, 1, 2, 3],
    },
    Case {
        vertices: 6,
        flat: &[(1, 2)],
        opens: &[(0, 0, 1), (1, 4, 1)],
        closes: &[(0, 2, 3), (1, 2, 5)],
        starts: &[1],
        pairs: &[(1, 2)],
        reached: &[1, 2, 3, 5],
    },
    Case {
        vertices: 1,
        flat: &[],
        opens: &[(0, 0, 0)],
        closes: &[(0, 0, 0)],
        starts: &[0],
        pairs: &[(0, 0)],
        reached: &[0],
    },
    Case {
        vertices: 5,
        flat: &[(1, 2), (3, 2)],
        opens: &[(0, 1, 1)],
        closes: &[(0, 2, 3)],
        starts: &[1],
        pairs: &[(1, 2)],
        reached: &[1, 2, 3],
    },
    Case {
        vertices: 8,
        flat: &[(1, 2), (5, 6)],
        opens: &[(0, 0, 1), (1, 4, 5)],
        closes: &[(0, 2, 3), (1, 6, 7)],
        starts: &[0],
        pairs: &[(1, 2)],
        reached: &[0, 1, 2, 3],
    },
    Case {
        vertices: 8,
        flat: &[(1, 2), (5, 6)],
        opens: &[(0, 0, 1), (1, 4, 5)],
        closes: &[(0, 2, 3), (1, 6, 7)],
        starts: &[],
        pairs: &[],
        reached: &[],
    },
    Case {
        vertices: 8,
        flat: &[(1, 2), (5, 6)],
        opens: &[(0, 0, 1), (1, 4, 5)],
        closes: &[(0, 2, 3), (1, 6, 7)],
        starts: &[0, 4],
        pairs: &[(1, 2), (5, 6)],
        reached: &[0, 1, 2, 3, 4, 5, 6, 7],
    },
    Case {
        vertices: 5,
        flat: &[(1, 2)],
        opens: &[(0, 0, 1)],
        closes: &[(1, 2, 3)],
        starts: &[0],
        pairs: &[(1, 2)],
        reached: &[0, 1, 2],
    },
];

fn crossings(alloc: Global, ends: &[(u32, u32, u32)]) -> Result<List<Crossing>, AllocError> {
    let mut crossings = Vec::new(alloc);
    for (call, from, to) in ends {
        crossings.push(Crossing {
            call: *call,
            from: *from,
            to: *to,
        })?;
    }
    Ok(List::of(crossings))
}

fn graph(alloc: Global, case: &Case) -> Result<FlowGraph, Fail> {
    let flat = List::of(Vec::from_slice(alloc, case.flat)?);
    let opens = crossings(alloc, case.opens)?;
    let closes = crossings(alloc, case.closes)?;
    let flow = FlowGraph::new(case.vertices, flat, opens, closes);
    Ok(flow.ok_or("an end is no vertex")?)
}

/// 40 methods of three vertices, each of which calls the next twice; the last leads from its first
/// vertex to its last.
fn doubling(alloc: Global) -> Result<FlowGraph, Fail> {
    let mut opens = Vec::new(alloc);
    let mut closes = Vec::new(alloc);
    for caller in 0..39u32 {
        for half in 0..2u32 {
            let call = 2 * caller + half;
            let from = 3 * caller + half;
            let to = 3 * caller + 3;
            opens.push(Crossing { call, from, to })?;
            closes.push(Crossing {
                call,
                from: to + 2,
                to: from + 1,
            })?;
        }
    }
    let flat = Vec::from_slice(alloc, &[(117, 118), (118, 119)])?;
    let flow = FlowGraph::new(120, List::of(flat), List::of(opens), List::of(closes));
    Ok(flow.ok_or("an end is no vertex")?)
}

fn closed(alloc: Global, flow: FlowGraph, starts: &[u32]) -> Result<Closed, Fail> {
    let starts = List::of(Vec::from_slice(alloc, starts)?);
    if !may_be_closed(&flow, starts.items()) {
        return Err(Fail::from("a start is no vertex"));
    }
    Ok(table_one(alloc, Arc::new(alloc, flow)?, starts)?)
}

#[test]
fn a_table_has_the_wanted_pairs_and_flows_match_their_calls(rt: HostRuntime) -> Result<(), Fail> {
    for case in CASES {
        let flow = graph(rt.alloc(), &case)?;
        let closed = closed(rt.alloc(), flow, case.starts)?;
        let mut pairs = Vec::new(rt.alloc());
        for pair in closed.pairs() {
            pairs.push((pair.goal, pair.out))?;
        }
        assert_eq!(rt; pairs.as_slice(), case.pairs);
        let reached = reach(rt.alloc(), &closed, closed.starts())?;
        for vertex in 0..case.vertices {
            assert_eq!(rt;
                reached.has(vertex),
                case.reached.contains(&vertex),
                "{vertex}"
            );
        }
    }
    Ok(())
}

#[test]
fn calls_that_double_are_summed_up_once(rt: HostRuntime) -> Result<(), Fail> {
    let flow = doubling(rt.alloc())?;
    let closed = closed(rt.alloc(), flow, &[0])?;
    assert_eq!(rt; closed.pairs().len(), 39);
    let reached = reach(rt.alloc(), &closed, closed.starts())?;
    for vertex in 0..120 {
        assert!(rt; reached.has(vertex), "{vertex}");
    }
    Ok(())
}
