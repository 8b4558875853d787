//! Whether an external declaration is next (C11 6.9).

ghost use Rattle.std.specs.Prelude.{◌≡◌};
ghost use Rattle.reading.specs.Readers.{is_ahead};
ghost use Rattle.reading.specs.Terminals.{has};
ghost use Rattle.c_reading.specs.Terminals.{terminal};
ghost use Rattle.c_syntax.specs.Scoping.{input_from, terminal_of};
ghost use Rattle.c_unit.specs.UnitSets.{a_declaration_word, begins_external};

use c_lexer::Kind;
use c_lexer::keyword::{
    KEY_ALIGNAS, KEY_AUTO, KEY_EXTERN, KEY_INLINE, KEY_NORETURN, KEY_REGISTER, KEY_STATIC,
    KEY_STATIC_ASSERT, KEY_THREAD_LOCAL, KEY_TYPEDEF,
};
use c_syntax::Source;

/// What begins a declaration and no type name (6.7).
fn is_declaration_word(kind: Kind) -> bool
    ensures { result ≡ has a_declaration_word (terminal kind) }
{
    matches!(
        kind,
        Kind::Key(
            KEY_STATIC_ASSERT
                | KEY_TYPEDEF
                | KEY_EXTERN
                | KEY_STATIC
                | KEY_THREAD_LOCAL
                | KEY_AUTO
                | KEY_REGISTER
                | KEY_INLINE
                | KEY_NORETURN
                | KEY_ALIGNAS
        )
    )
}

/// Whether the next token begins an external declaration.
pub(crate) fn is_at_external(source: &Source<'_>) -> bool
    ensures { result ≡ is_ahead terminal_of begins_external (input_from source.now) }
{
    if source.is_at_type() {
        return true;
    }
    match source.cursor.ahead() {
        Some(kind) => is_declaration_word(kind),
        None => false,
    }
}
