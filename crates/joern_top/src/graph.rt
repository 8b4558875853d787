//! The graph of a source, as the passes build it.

ghost use Rattle.std.specs.Prelude.{◌≡◌, ◌∷◌, [], Some, Ok, Err, IfOk};
ghost use Rattle.cpg_schema.specs.Sequence.{Cap};
ghost use Rattle.graph_store.specs.Stored.{plain};
ghost use Rattle.ast_layer.specs.Parts.{source_forest, sources_of};
ghost use Rattle.joern_top.specs.Graph.{built_alone};
ghost use Rattle.joern_top.specs.Reading.{IsBuiltFrom};

use crate::hashes::name_hashes;
use ast_layer::{AstPass, Source};
use cpg_schema::Caps;
use edge_index::edges_in_order;
use graph_store::{ApplyStop, Edge, Graph};
use pass_runner::run_pass_one;
use std::alloc::{AllocError, Global};

/// How many nodes the graph has at most.
const MAX_NODES: u32 = 16_777_216;

/// How many edges the graph has at most.
const MAX_EDGES: u32 = 67_108_864;

/// The number of the pass that adds the syntax layer.
pub(crate) const FIRST_PASS: u32 = 1;

/// A graph with its edges in the order of printing.
#[derive(Drop)]
pub(crate) struct BuiltGraph {
    pub(crate) graph: Graph,
    pub(crate) edges: Vec<Edge>,
}

/// Builds the graph of a source, and puts its edges in order.
pub(crate) fn build_graph(alloc: Global, source: Source) -> Result<BuiltGraph, ApplyStop>
    ensures ok { IfOk result (IsBuiltFrom (source_forest (Some source))) }
    ensures too_many_nodes { result ≡ Err ApplyStop.TooManyNodes →
        built_alone (source_forest (Some source)) ≡ Err Cap.nodes }
    ensures too_many_edges { result ≡ Err ApplyStop.TooManyEdges →
        built_alone (source_forest (Some source)) ≡ Err Cap.edges }
{
    let graph = graph_of(alloc, source)?;
    let edges = edges_in_order(alloc, &graph)?;
    Ok(BuiltGraph { graph, edges })
}

/// Builds the graph of a source. The source's memory but for its tree is given back before the
/// edges are put in order.
fn graph_of(alloc: Global, source: Source) -> Result<Graph, ApplyStop>
    ensures ok { IfOk result (λ graph.
        built_alone (source_forest (Some source)) ≡ Ok (plain graph)) }
    ensures too_many_nodes { result ≡ Err ApplyStop.TooManyNodes →
        built_alone (source_forest (Some source)) ≡ Err Cap.nodes }
    ensures too_many_edges { result ≡ Err ApplyStop.TooManyEdges →
        built_alone (source_forest (Some source)) ≡ Err Cap.edges }
{
    let caps = Caps {
        nodes: MAX_NODES,
        edges: MAX_EDGES,
    };
    let hashes = name_hashes(alloc, &source)?;
    let empty = Graph::new(alloc, caps, hashes)?;
    let pass = first_pass(alloc, source)?;
    let graph = run_pass_one(alloc, &pass, empty)?;
    pass.finish();
    Ok(graph)
}

/// The pass that adds the syntax layer of a source.
fn first_pass(alloc: Global, source: Source) -> Result<AstPass, AllocError>
    ensures { IfOk result (λ pass. sources_of pass ≡ source ∷ []) }
{
    let mut sources = Vec::new(alloc);
    sources.push(source)?;
    Ok(AstPass::new(sources))
}
