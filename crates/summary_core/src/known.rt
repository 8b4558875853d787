//! Which pairs stand in a history.

ghost use Rattle.std.specs.Prelude.{ℕ, ◌≡◌, ◌↔◌, List, length, IfOk, IsTrue, OnOk};
ghost use Rattle.std.specs.List.{Contains};
ghost use Rattle.matched_paths.specs.declared.flow_graph.Pair.{Pair as PairValue};
ghost use Rattle.summary_core.specs.Knowing.{Knows, KnowsFront};

use matched_paths::Pair;
use std::alloc::{AllocError, Global};
use std::collections::HashSet;

/// The first pairs of a history, by goal and out. It is behind until it takes up the rest.
#[derive(Drop)]
pub(crate) struct Known {
    pairs: HashSet<(u32, u32)>,
    taken: usize,
}

impl Known {
    /// None of the pairs.
    pub(crate) fn new(alloc: Global) -> Known
        ensures { (history : List PairValue) → KnowsFront result history }
    {
        Known {
            pairs: HashSet::new(alloc),
            taken: 0,
        }
    }

    /// Takes up the pairs that are new. Where memory is wanting it is still behind.
    pub(crate) fn take_up(&mut self, history: &[Pair]) -> Result<(), AllocError>
        requires { KnowsFront self.old history.now }
        ensures front { KnowsFront self.new history.now }
        ensures ok { OnOk result (Knows self.new history.now) }
    {
        while self.taken < history.len() {
            let pair = history[self.taken];
            self.pairs.insert((pair.goal, pair.out))?;
            self.taken += 1;
        }
        Ok(())
    }

    /// Whether the pair stands in the history.
    pub(crate) fn has(&self, pair: Pair) -> bool
        ensures { (history : List PairValue) → Knows self.now history →
            (IsTrue result ↔ Contains history pair) }
    {
        self.pairs.contains(&(pair.goal, pair.out))
    }
}
