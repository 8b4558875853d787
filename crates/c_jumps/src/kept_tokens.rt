//! The kept tokens of a file.

ghost use Rattle.std.specs.Prelude.{◌≡◌, slice_range};
ghost use Rattle.std.specs.List.{All};
ghost use Rattle.c_lexer.specs.Reading.{IsWithin};
ghost use Rattle.c_reading.specs.Kept.{kept_lexemes};
ghost use Rattle.c_tree.specs.Lexemes.{spelling_at};
ghost use Rattle.line_marks.specs.Kept.{ArePositionsIn};

use c_lexer::Token;
use line_marks::item_at;
use std::marker::Model;

/// The kept tokens of a file. Contracts see the list of them, as the grammar does.
#[derive(Drop)]
pub(crate) struct KeptTokens<'t> {
    bytes: &'t [u8],
    /// All tokens of the file.
    tokens: &'t [Token],
    /// The positions of the kept ones.
    kept: &'t [u32],
}

impl<'t> Model for KeptTokens<'t> {
    ghost use Rattle.std.specs.Prelude.{List};
    ghost use Rattle.std.specs.List.{All};
    ghost use Rattle.c_lexer.specs.Lexemes.{Lexeme};
    ghost use Rattle.c_lexer.specs.Reading.{IsWithin};
    ghost use Rattle.c_reading.specs.Kept.{kept_lexemes};
    ghost use Rattle.line_marks.specs.Kept.{ArePositionsIn};

    ghost Value = { List Lexeme };

    ghost view = { λ t. kept_lexemes t.bytes.now t.tokens.now t.kept.now };

    ghost invariant = { λ t. ArePositionsIn t.tokens.now t.kept.now
        × All (IsWithin t.bytes.now) t.tokens.now };
}

impl<'t> KeptTokens<'t> {
    pub(crate) fn new(bytes: &'t [u8], tokens: &'t [Token], kept: &'t [u32]) -> KeptTokens<'t>
        requires within { All (IsWithin bytes.now) tokens.now }
        requires inside { ArePositionsIn tokens.now kept.now }
        ensures { result ≡ kept_lexemes bytes.entry.now tokens.entry.now kept.entry.now }
    {
        KeptTokens {
            bytes,
            tokens,
            kept,
        }
    }

    /// The bytes of the token that has the number, or none where there is no such token.
    pub(crate) fn spelling(&self, token: u32) -> &'t [u8]
        ensures { result.now ≡ spelling_at self.now token }
    {
        match item_at(self.tokens, self.kept, token as usize) {
            Some(token) => spelled(self.bytes, token),
            None => &[],
        }
    }
}

/// The bytes of a token.
fn spelled(bytes: &[u8], token: Token) -> &[u8]
    requires within { IsWithin bytes.now token }
    ensures { result.now ≡ slice_range bytes.entry.now token.start token.end }
{
    &bytes[token.start as usize..token.end as usize]
}
