//! Why a file has no tree.

use std::alloc::{AllocError, AllocFailed};
use thiserror::Error;

/// Why the tokens of a file are not read as a tree.
#[derive(Debug, Drop, PartialEq, Eq, Error)]
pub enum GrammarStop {
    /// The file is none of the first grammar.
    #[error("the file is not of a form that is read yet")]
    Unbuilt,
    /// There was no memory for the tree.
    #[error("want of memory")]
    Memory,
}

impl<T: Drop> From<AllocFailed<T>> for GrammarStop {
    ghost use Rattle.std.specs.Prelude.{◌≡◌};
    ghost use Rattle.first_grammar.specs.declared.stop.GrammarStop.TheVariants.{Memory};

    ghost from_gives = { λ _ stop. stop ≡ Memory };

    fn from(_failed: AllocFailed<T>) -> GrammarStop {
        GrammarStop::Memory
    }
}

impl From<AllocError> for GrammarStop {
    ghost use Rattle.std.specs.Prelude.{◌≡◌};
    ghost use Rattle.first_grammar.specs.declared.stop.GrammarStop.TheVariants.{Memory};

    ghost from_gives = { λ _ stop. stop ≡ Memory };

    fn from(_failed: AllocError) -> GrammarStop {
        GrammarStop::Memory
    }
}
