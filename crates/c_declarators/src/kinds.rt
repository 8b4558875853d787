//! Kinds of tokens that the grammar of declarators tells apart (C11 6.7.6).

ghost use Rattle.std.specs.Prelude.{◌≡◌, ◌∷◌};
ghost use Rattle.reading.specs.Terminals.{has};
ghost use Rattle.c_lexer.specs.declared.keyword.TheConstants.{KEY_ATOMIC};
ghost use Rattle.c_lexer.specs.declared.mark.TheConstants.{MARK_STAR};
ghost use Rattle.c_reading.specs.Terminals.{terminal, mark};
ghost use Rattle.c_specifiers.specs.DeclarationSets as sets;
ghost use Rattle.c_specifiers.specs.DeclarationSets.{a_qualifier};

use c_lexer::Kind;
use c_lexer::keyword::{KEY_ATOMIC, KEY_CONST, KEY_RESTRICT, KEY_VOLATILE};
use c_lexer::mark::{MARK_LEFT_BRACKET, MARK_LEFT_PAREN, MARK_STAR};

/// A qualifier (6.7.3).
pub(crate) fn is_qualifier(kind: Kind) -> bool
    ensures { result ≡ has a_qualifier (terminal kind) }
{
    matches!(
        kind,
        Kind::Key(KEY_CONST | KEY_RESTRICT | KEY_VOLATILE | KEY_ATOMIC)
    )
}

/// What begins a suffix of a declarator (6.7.6).
pub(crate) fn begins_suffix(kind: Kind) -> bool
    ensures { result ≡ has sets.begins_suffix (terminal kind) }
{
    matches!(kind, Kind::Mark(MARK_LEFT_BRACKET | MARK_LEFT_PAREN))
}

/// What is no name and begins what stands behind pointers, or behind `_Atomic`.
pub(crate) fn begins_unnamed(atomic: bool, kind: Kind) -> bool
    ensures { result ≡ has (sets.begins_unnamed atomic) (terminal kind) }
{
    if atomic {
        matches!(kind, Kind::Mark(MARK_LEFT_BRACKET))
    } else {
        matches!(kind, Kind::Mark(MARK_LEFT_BRACKET | MARK_LEFT_PAREN))
    }
}

/// What begins what stands behind pointers, or behind `_Atomic`.
pub(crate) fn begins_either(atomic: bool, kind: Kind) -> bool
    ensures { result ≡ has (sets.begins_either atomic) (terminal kind) }
{
    if atomic {
        matches!(kind, Kind::Word | Kind::Mark(MARK_LEFT_BRACKET))
    } else {
        matches!(
            kind,
            Kind::Word | Kind::Mark(MARK_LEFT_BRACKET | MARK_LEFT_PAREN)
        )
    }
}

/// What begins a declarator without a name (6.7.7).
pub(crate) fn begins_abstract(atomic: bool, kind: Kind) -> bool
    ensures { result ≡ has (mark MARK_STAR ∷ sets.begins_unnamed atomic) (terminal kind) }
{
    if atomic {
        matches!(kind, Kind::Mark(MARK_STAR | MARK_LEFT_BRACKET))
    } else {
        matches!(
            kind,
            Kind::Mark(MARK_STAR | MARK_LEFT_BRACKET | MARK_LEFT_PAREN)
        )
    }
}

/// What begins a declarator with a name or without (6.7.6.3).
pub(crate) fn begins_some_either(atomic: bool, kind: Kind) -> bool
    ensures { result ≡ has (mark MARK_STAR ∷ sets.begins_either atomic) (terminal kind) }
{
    if atomic {
        matches!(kind, Kind::Word | Kind::Mark(MARK_STAR | MARK_LEFT_BRACKET))
    } else {
        matches!(
            kind,
            Kind::Word | Kind::Mark(MARK_STAR | MARK_LEFT_BRACKET | MARK_LEFT_PAREN)
        )
    }
}
