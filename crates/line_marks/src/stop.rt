//! Why the tokens of a file are not stripped.

use std::alloc::{AllocError, AllocFailed};
use thiserror::Error;

/// Why there is no list of the tokens that the parser keeps.
#[derive(Debug, Drop, PartialEq, Eq, Error)]
pub enum StripStop {
    /// No balanced pair of parentheses follows the `__attribute__` at this position.
    #[error("no balanced parentheses follow the `__attribute__` that is token {token}")]
    BadAttribute { token: u32 },
    /// There was no memory for the list.
    #[error("want of memory")]
    Memory,
}

impl<T: Drop> From<AllocFailed<T>> for StripStop {
    ghost use Rattle.std.specs.Prelude.{◌≡◌};
    ghost use Rattle.line_marks.specs.declared.stop.StripStop.TheVariants.{Memory};

    ghost from_gives = { λ _ stop. stop ≡ Memory };

    fn from(_failed: AllocFailed<T>) -> StripStop {
        StripStop::Memory
    }
}

impl From<AllocError> for StripStop {
    ghost use Rattle.std.specs.Prelude.{◌≡◌};
    ghost use Rattle.line_marks.specs.declared.stop.StripStop.TheVariants.{Memory};

    ghost from_gives = { λ _ stop. stop ≡ Memory };

    fn from(_failed: AllocError) -> StripStop {
        StripStop::Memory
    }
}
