//! The closed table of summaries.

ghost use Rattle.std.specs.Prelude.{◌≡◌, ◌<◌, IfOk};
ghost use Rattle.std.specs.List.{All, Contains};
ghost use Rattle.summary_core.specs.Table.{IsClosed};

use crate::wanted::wanted_goals;
use joern_io::List;
use matched_paths::{FlowGraph, Pair};
use path_facts::true_pairs;
use std::alloc::{AllocError, Global};
use std::marker::Model;
use std::sync::Arc;

/// The true pairs of all goals that the starts want.
///
/// Contracts see the flow graph, the starts and the pairs.
#[derive(Drop)]
pub struct Closed {
    pub(crate) flow: Arc<FlowGraph>,
    pub(crate) starts: List<u32>,
    pub(crate) pairs: List<Pair>,
}

impl Model for Closed {
    ghost use Rattle.summary_core.specs.Table.{IsClosed, Table};

    ghost Value = { Table };

    ghost view = { λ closed. record {
      flow = closed.flow.value;
      starts = closed.starts;
      pairs = closed.pairs;
    } };

    ghost invariant = { λ closed. IsClosed (record {
      flow = closed.flow.value;
      starts = closed.starts;
      pairs = closed.pairs;
    }) };
}

impl Closed {
    /// The table closed for the starts: what their wanted goals lead to, by a work list of facts
    /// from the goals.
    pub fn of(alloc: Global, flow: Arc<FlowGraph>, starts: List<u32>) -> Result<Closed, AllocError>
        requires { All (λ start. start < flow.value.vertices) starts }
        ensures flow { IfOk result (λ closed. closed.flow ≡ flow.value) }
        ensures starts { IfOk result (λ closed. closed.starts ≡ starts) }
        ensures closed { IfOk result IsClosed }
    {
        let goals = wanted_goals(alloc, &flow, starts.items())?;
        let mut pairs = true_pairs(alloc, &flow, &goals)?;
        pairs.sort_unstable();
        Ok(Closed {
            flow,
            starts,
            pairs: List::of(pairs),
        })
    }

    /// The true pairs whose goal is wanted, rising by goal and then by out.
    pub fn pairs(&self) -> &[Pair]
        ensures pairs { result.now ≡ self.now.pairs }
        ensures closed { IsClosed self.now }
    {
        self.pairs.items()
    }

    /// The flow graph for which the table was closed.
    pub fn flow(&self) -> &FlowGraph
        ensures flow { result.now ≡ self.now.flow }
        ensures closed { IsClosed self.now }
    {
        &self.flow
    }

    /// The starts for which the table was closed, which a search may begin at.
    pub fn starts(&self) -> &[u32]
        ensures starts { result.now ≡ self.now.starts }
        ensures among { All (Contains self.now.starts) result.now }
        ensures closed { IsClosed self.now }
    {
        self.starts.items()
    }
}
