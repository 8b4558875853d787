//! What stands next in initialisers (C11 6.7.9).

ghost use Rattle.std.specs.Prelude.{◌≡◌};
ghost use Rattle.reading.specs.Readers.{is_ahead};
ghost use Rattle.reading.specs.Terminals.{has};
ghost use Rattle.c_reading.specs.Terminals.{terminal};
ghost use Rattle.c_specifiers.specs.DeclarationSets.{begins_designator};
ghost use Rattle.c_syntax.specs.Scoping.{input_from, terminal_of};

use c_lexer::Kind;
use c_lexer::mark::{MARK_DOT, MARK_LEFT_BRACKET};
use c_syntax::Source;

/// What begins a designator (6.7.9).
pub(crate) fn is_designator(kind: Kind) -> bool
    ensures { result ≡ has begins_designator (terminal kind) }
{
    matches!(kind, Kind::Mark(MARK_LEFT_BRACKET | MARK_DOT))
}

/// Whether the next token begins a designator.
pub(crate) fn is_at_designator(source: &Source<'_>) -> bool
    ensures { result ≡ is_ahead terminal_of begins_designator (input_from source.now) }
{
    match source.cursor.ahead() {
        Some(kind) => is_designator(kind),
        None => false,
    }
}
