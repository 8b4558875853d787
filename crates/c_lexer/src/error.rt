//! Why a file has no tokens.

use std::alloc::AllocFailed;
use thiserror::Error;

/// Where the reading of a file stops before its end.
#[derive(Debug, Drop, PartialEq, Eq, Error)]
pub enum LexStop {
    /// No token begins with the byte at this offset.
    #[error("no token begins at byte {at}")]
    BadByte { at: u32 },
    /// The comment, the character constant or the string literal that begins at this offset does
    /// not end.
    #[error("what begins at byte {at} does not end")]
    Unclosed { at: u32 },
    /// There was no memory for the tokens.
    #[error("want of memory")]
    Memory,
}

impl<T: Drop> From<AllocFailed<T>> for LexStop {
    ghost use Rattle.std.specs.Prelude.{◌≡◌};
    ghost use Rattle.c_lexer.specs.declared.error.LexStop.TheVariants.{Memory};

    ghost from_gives = { λ _ stop. stop ≡ Memory };

    fn from(_failed: AllocFailed<T>) -> LexStop {
        LexStop::Memory
    }
}
