//! The names of operators.

ghost use Rattle.std.specs.Prelude.{◌≡◌};
ghost use Rattle.std.specs.Option.{option_copied};
ghost use Rattle.ast_layer.specs.Operators.{operator_name};

use c_lexer::mark::{MARK_EQUAL, MARK_PLUS};
use c_lexer::{Kind, Token};

/// The name of the operator that a token is; this version reads two operators.
pub(crate) fn name_of(token: Option<Token>) -> Option<&'static [u8]>
    ensures { option_copied result ≡ operator_name token }
{
    match token?.kind {
        Kind::Mark(MARK_EQUAL) => Some(b"<operator>.assignment"),
        Kind::Mark(MARK_PLUS) => Some(b"<operator>.addition"),
        _ => None,
    }
}
