//! Why a part of a file is not read.

use std::alloc::{AllocError, AllocFailed};
use thiserror::Error;

/// Why a part is not read. A token is named by its number among the kept ones; the end mark has the
/// number of the last one plus one.
#[derive(Clone, Copy, Debug, Drop, PartialEq, Eq, Error)]
pub enum Stop {
    /// With the token, what was read begins no such part.
    #[error("token {token} does not continue what was read")]
    Offends { token: u32 },
    /// The token is the first whose nesting level is above 256.
    #[error("token {token} is nested too deep")]
    TooDeep { token: u32 },
    /// There was no memory for the tree.
    #[error("want of memory")]
    Memory,
}

impl<T: Drop> From<AllocFailed<T>> for Stop {
    ghost use Rattle.std.specs.Prelude.{◌≡◌};
    ghost use Rattle.c_reading.specs.declared.stop.Stop.TheVariants.{Memory};

    ghost from_gives = { λ _ stop. stop ≡ Memory };

    fn from(_failed: AllocFailed<T>) -> Stop {
        Stop::Memory
    }
}

impl From<AllocError> for Stop {
    ghost use Rattle.std.specs.Prelude.{◌≡◌};
    ghost use Rattle.c_reading.specs.declared.stop.Stop.TheVariants.{Memory};

    ghost from_gives = { λ _ stop. stop ≡ Memory };

    fn from(_failed: AllocError) -> Stop {
        Stop::Memory
    }
}
