//! Examples of deltas under caps.

ghost use Rattle.std.specs.Prelude.{◌≡◌, [], IfOk};

use cpg_schema::{Caps, Label};
use graph_delta::{ApplyStop, Delta, apply};
use graph_store::Graph;
use std::alloc::AllocError;
use std::hash::RandomState;
use std::test::Fail;

/// A delta of so many blocks.
fn blocks(graph: &Graph, count: u32) -> Result<Delta, AllocError>
    ensures edges { IfOk result (λ delta. delta.edges ≡ []) }
    ensures settings { IfOk result (λ delta. delta.settings ≡ []) }
{
    let mut delta = Delta::new(graph);
    for _ in 0..count {
        delta.node(Label::Block)?;
    }
    Ok(delta)
}

/// One after another, deltas of so many nodes to a graph that may have one node and one edge, and
/// how many nodes there are then.
const DELTAS: [(u32, Result<(), ApplyStop>, u32); 4] = [
    (2, Err(ApplyStop::TooManyNodes), 0),
    (1, Ok(()), 1),
    (1, Err(ApplyStop::TooManyNodes), 1),
    (0, Ok(()), 1),
];

#[test]
fn a_delta_past_a_cap_leaves_the_graph_as_it_was(rt: HostRuntime) -> Result<(), Fail> {
    let caps = Caps { nodes: 1, edges: 1 };
    let mut graph = Graph::new(rt.alloc(), caps, RandomState::new(&rt)?)?;
    for (count, want, len) in DELTAS {
        let delta = blocks(&graph, count)?;
        assert_eq!(rt; apply(&mut graph, &delta), want, "a delta of {count}");
        assert_eq!(rt; graph.len(), len);
    }
    Ok(())
}
