//! What a search sees of a board.

ghost use Rattle.std.specs.Prelude.{◌≡◌, []};

use matched_paths::Pair;
use std::alloc::Global;
use std::marker::Model;

/// The pairs that a search sees. Contracts see the list.
#[derive(Drop)]
pub struct Mirror {
    pub(crate) pairs: Vec<Pair>,
}

impl Model for Mirror {
    ghost use Rattle.std.specs.Prelude.{List};
    ghost use Rattle.matched_paths.specs.declared.flow_graph.Pair.{Pair};

    ghost Value = { List Pair };

    ghost view = { λ mirror. mirror.pairs.items };
}

impl Mirror {
    /// A mirror without pairs. It takes memory with its first pair.
    pub fn new(alloc: Global) -> Mirror
        ensures { result ≡ [] }
    {
        Mirror {
            pairs: Vec::new(alloc),
        }
    }

    /// The pairs, in the order of the board's history.
    pub fn pairs(&self) -> &[Pair]
        ensures { result.now ≡ self.now }
    {
        self.pairs.as_slice()
    }
}
