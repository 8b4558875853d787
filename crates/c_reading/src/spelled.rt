//! The bytes of a token.

ghost use Rattle.std.specs.Prelude.{◌≡◌, slice_range};
ghost use Rattle.c_lexer.specs.Reading.{IsWithin};

use c_lexer::Token;

/// The bytes of a token.
pub(crate) fn spelled(bytes: &[u8], token: Token) -> &[u8]
    requires within { IsWithin bytes.now token }
    ensures { result.now ≡ slice_range bytes.entry.now token.start token.end }
{
    &bytes[token.start as usize..token.end as usize]
}
