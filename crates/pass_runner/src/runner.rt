//! A pass by one worker.

ghost use Rattle.std.specs.Prelude.{◌≡◌, Err, IfOk, OnOk};
ghost use Rattle.cpg_schema.specs.Fitting.{IsGraph};
ghost use Rattle.cpg_schema.specs.Sequence.{Cap, seq};
ghost use Rattle.graph_store.specs.Stored.{plain};
ghost use Rattle.pass_runner.specs.Runs.{GrowsByParts};

use graph_delta::{ApplyStop, Pass, absorb, apply};
use graph_store::Graph;
use graph_store::laws::law_stored;
use std::alloc::Global;

/// The graph with all parts of a pass, one after another.
///
/// `TooManyNodes` and `TooManyEdges` come at the first part that would pass a cap; want of memory
/// may come anywhere. A refusal consumes the graph.
///
/// Several parts see a copy of the graph as it was, beside which it grows. The copy of the empty
/// graph takes next to nothing, and one part alone needs none.
pub fn run_pass_one<P: Pass>(alloc: Global, pass: &P, graph: Graph) -> Result<Graph, ApplyStop>
    requires { P.takes pass.now (plain graph) }
    ensures ok { IfOk result (λ after. GrowsByParts graph after
        (P.delta_of pass.now (plain graph)) (P.parts_of pass.now (plain graph))) }
    ensures too_many_nodes { result ≡ Err ApplyStop.TooManyNodes → seq graph.caps (plain graph)
        (P.delta_of pass.now (plain graph)) (P.parts_of pass.now (plain graph)) ≡ Err Cap.nodes }
    ensures too_many_edges { result ≡ Err ApplyStop.TooManyEdges → seq graph.caps (plain graph)
        (P.delta_of pass.now (plain graph)) (P.parts_of pass.now (plain graph)) ≡ Err Cap.edges }
{
    law_stored(&graph);
    let mut grown = graph;
    if pass.parts(&grown) == 1 {
        run_only_part(alloc, pass, &mut grown)?;
    } else {
        let start = grown.copy()?;
        run_parts(alloc, pass, &start, &mut grown)?;
    }
    Ok(grown)
}

/// Adds the one part of a pass to a graph.
fn run_only_part<P: Pass>(alloc: Global, pass: &P, graph: &mut Graph) -> Result<(), ApplyStop>
    requires is_graph { IsGraph (plain graph.old) }
    requires takes { P.takes pass.now (plain graph.old) }
    requires alone { P.parts_of pass.now (plain graph.old) ≡ 1 }
    ensures ok { OnOk result (GrowsByParts graph.old graph.new
        (P.delta_of pass.now (plain graph.old)) 1) }
    ensures too_many_nodes { result ≡ Err ApplyStop.TooManyNodes →
        seq graph.old.caps (plain graph.old) (P.delta_of pass.now (plain graph.old)) 1
        ≡ Err Cap.nodes }
    ensures too_many_edges { result ≡ Err ApplyStop.TooManyEdges →
        seq graph.old.caps (plain graph.old) (P.delta_of pass.now (plain graph.old)) 1
        ≡ Err Cap.edges }
{
    let ready = pass.prepare(alloc, graph)?;
    let delta = pass.delta(alloc, graph, &ready, 0)?;
    absorb(graph, delta)
}

/// Adds all parts of a pass over `start` to an equal graph.
fn run_parts<P: Pass>(
    alloc: Global,
    pass: &P,
    start: &Graph,
    graph: &mut Graph,
) -> Result<(), ApplyStop>
    requires is_graph { IsGraph (plain start.now) }
    requires takes { P.takes pass.now (plain start.now) }
    requires equal { graph.old ≡ start.now }
    ensures ok { OnOk result (GrowsByParts start.now graph.new
        (P.delta_of pass.now (plain start.now)) (P.parts_of pass.now (plain start.now))) }
    ensures too_many_nodes { result ≡ Err ApplyStop.TooManyNodes →
        seq start.now.caps (plain start.now) (P.delta_of pass.now (plain start.now))
        (P.parts_of pass.now (plain start.now)) ≡ Err Cap.nodes }
    ensures too_many_edges { result ≡ Err ApplyStop.TooManyEdges →
        seq start.now.caps (plain start.now) (P.delta_of pass.now (plain start.now))
        (P.parts_of pass.now (plain start.now)) ≡ Err Cap.edges }
{
    let ready = pass.prepare(alloc, start)?;
    for part in 0..pass.parts(start) {
        let delta = pass.delta(alloc, start, &ready, part)?;
        apply(graph, &delta)?;
    }
    Ok(())
}
