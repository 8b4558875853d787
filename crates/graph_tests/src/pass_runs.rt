//! A pass of the tests' own, and what its runs give.

ghost use Rattle.std.specs.Prelude.{◌≡◌, length};

use cpg_schema::{Caps, EdgeKind, Key, Label};
use graph_delta::{ApplyStop, Delta, End, Pass};
use graph_store::Graph;
use pass_runner::run_pass_one;
use std::alloc::{AllocError, Global};
use std::hash::RandomState;
use std::test::Fail;

/// Each part adds a local with its type. The local's order is how many nodes the part sees.
#[derive(Clone, Copy, Debug)]
struct TypedLocals {
    parts: u32,
}

impl Pass for TypedLocals {
    type Ready = u32;

    ghost use Rattle.cpg_schema.specs.Shape.{IsShaped};
    ghost use Rattle.graph_tests.specs.TypedLocals.{typed_local, typed_locals_fit, stays_shaped_by};

    ghost takes = { λ _ graph. IsShaped graph };

    ghost parts_of = { λ pass _. pass.parts };

    ghost delta_of = { λ _ graph _. typed_local (length graph.nodes) };

    ghost is_ready = { λ _ graph ready. ready ≡ length graph.nodes };

    fn parts(&self, _graph: &Graph) -> u32 {
        self.parts
    }

    fn prepare(&self, _alloc: Global, graph: &Graph) -> Result<u32, AllocError> {
        Ok(graph.len())
    }

    fn delta(
        &self,
        _alloc: Global,
        graph: &Graph,
        ready: &u32,
        _part: u32,
    ) -> Result<Delta, AllocError> {
        let mut delta = Delta::new(graph);
        let local = End::New(delta.node(Label::Local)?);
        delta.set_number(local, Key::Order, *ready)?;
        let its_type = End::New(delta.node(Label::TypeNode)?);
        delta.edge(local, EdgeKind::EvalType, its_type, b"")?;
        Ok(delta)
    }

    ghost fits = { λ pass start _ _. typed_locals_fit start (length start.nodes) pass.parts };

    ghost shapes = { λ pass caps start graph _ shaped is.
        stays_shaped_by caps start (length start.nodes) pass.parts shaped graph is };
}

/// Each of so many parts under caps of so many nodes and edges, and how many nodes there are then.
const RUNS: [(u32, u32, u32, Result<u32, ApplyStop>); 9] = [
    (0, 0, 0, Ok(0)),
    (1, 2, 1, Ok(2)),
    (1, 1, 1, Err(ApplyStop::TooManyNodes)),
    (1, 2, 0, Err(ApplyStop::TooManyEdges)),
    (1, 1, 0, Err(ApplyStop::TooManyNodes)),
    (2, 4, 2, Ok(4)),
    (2, 3, 2, Err(ApplyStop::TooManyNodes)),
    (2, 4, 1, Err(ApplyStop::TooManyEdges)),
    (2, 3, 1, Err(ApplyStop::TooManyNodes)),
];

#[test]
fn a_run_ends_at_the_first_part_that_passes_a_cap(rt: HostRuntime) -> Result<(), Fail> {
    for (parts, nodes, edges, want) in RUNS {
        assert!(rt; nodes < u32::MAX);
        let graph = Graph::new(rt.alloc(), Caps { nodes, edges }, RandomState::new(&rt)?)?;
        let after = run_pass_one(rt.alloc(), &TypedLocals { parts }, graph);
        assert_eq!(rt; after.map(|graph| graph.len()), want, "{parts} parts");
    }
    Ok(())
}

#[test]
fn each_part_sees_the_graph_as_it_was(rt: HostRuntime) -> Result<(), Fail> {
    let caps = Caps { nodes: 6, edges: 3 };
    let graph = Graph::new(rt.alloc(), caps, RandomState::new(&rt)?)?;
    let graph = run_pass_one(rt.alloc(), &TypedLocals { parts: 1 }, graph)?;
    let graph = run_pass_one(rt.alloc(), &TypedLocals { parts: 2 }, graph)?;
    assert_eq!(rt; graph.len(), 6);
    for (node, order) in [
        (0, Some(0)),
        (1, None),
        (2, Some(2)),
        (3, None),
        (4, Some(2)),
    ] {
        assert!(rt; node < graph.len());
        assert_eq!(rt; graph.number(node, Key::Order), order, "node {node}");
    }
    Ok(())
}
