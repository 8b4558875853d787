//! Kinds of tokens that the grammar of specifiers tells apart (C11 6.7.1 to 6.7.5).

ghost use Rattle.std.specs.Prelude.{◌≡◌, ◌∷◌, []};
ghost use Rattle.reading.specs.Terminals.{has};
ghost use Rattle.c_lexer.specs.declared.keyword.TheConstants.{KEY_ATOMIC};
ghost use Rattle.c_reading.specs.Terminals.{terminal, key};
ghost use Rattle.c_syntax.specs.Sets.{a_plain_qualifier, a_record, begins_specifier};
ghost use Rattle.c_specifiers.specs.DeclarationSets as sets;
ghost use Rattle.c_specifiers.specs.DeclarationSets.{a_function_specifier};
ghost use Rattle.c_specifiers.specs.DeclarationSets.{a_storage_class};

use crate::forms::Place;
use c_lexer::Kind;
use c_lexer::keyword::{
    KEY_ALIGNAS, KEY_ATOMIC, KEY_AUTO, KEY_BOOL, KEY_BUILTIN_VA_LIST, KEY_CHAR, KEY_COMPLEX,
    KEY_CONST, KEY_DOUBLE, KEY_ENUM, KEY_EXTERN, KEY_FLOAT, KEY_FLOAT32, KEY_FLOAT32X, KEY_FLOAT64,
    KEY_FLOAT64X, KEY_FLOAT128, KEY_INLINE, KEY_INT, KEY_INT128, KEY_LONG, KEY_NORETURN,
    KEY_REGISTER, KEY_RESTRICT, KEY_SHORT, KEY_SIGNED, KEY_STATIC, KEY_STRUCT, KEY_THREAD_LOCAL,
    KEY_TYPEDEF, KEY_UNION, KEY_UNSIGNED, KEY_VOID, KEY_VOLATILE,
};

/// A storage-class specifier other than `typedef` (6.7.1).
pub(crate) fn is_storage_class(kind: Kind) -> bool
    ensures { result ≡ has a_storage_class (terminal kind) }
{
    matches!(
        kind,
        Kind::Key(KEY_EXTERN | KEY_STATIC | KEY_THREAD_LOCAL | KEY_AUTO | KEY_REGISTER)
    )
}

/// A function specifier (6.7.4).
pub(crate) fn is_function_specifier(kind: Kind) -> bool
    ensures { result ≡ has a_function_specifier (terminal kind) }
{
    matches!(kind, Kind::Key(KEY_INLINE | KEY_NORETURN))
}

/// A qualifier other than `_Atomic` (6.7.3).
pub(crate) fn is_plain_qualifier(kind: Kind) -> bool
    ensures { result ≡ has a_plain_qualifier (terminal kind) }
{
    matches!(kind, Kind::Key(KEY_CONST | KEY_RESTRICT | KEY_VOLATILE))
}

/// `struct` or `union` (6.7.2.1).
pub(crate) fn is_record(kind: Kind) -> bool
    ensures { result ≡ has a_record (terminal kind) }
{
    matches!(kind, Kind::Key(KEY_STRUCT | KEY_UNION))
}

/// What begins a type specifier, and is neither a typedef name nor `_Atomic` (6.7.2).
pub(crate) fn begins_specifier(kind: Kind) -> bool
    ensures { result ≡ has begins_specifier (terminal kind) }
{
    matches!(
        kind,
        Kind::Key(
            KEY_VOID
                | KEY_CHAR
                | KEY_SHORT
                | KEY_INT
                | KEY_LONG
                | KEY_FLOAT
                | KEY_DOUBLE
                | KEY_SIGNED
                | KEY_UNSIGNED
                | KEY_BOOL
                | KEY_COMPLEX
                | KEY_BUILTIN_VA_LIST
                | KEY_INT128
                | KEY_FLOAT32
                | KEY_FLOAT64
                | KEY_FLOAT128
                | KEY_FLOAT32X
                | KEY_FLOAT64X
                | KEY_STRUCT
                | KEY_UNION
                | KEY_ENUM
        )
    )
}

/// `_Atomic` (6.7.2.4, 6.7.3).
fn is_atomic(kind: Kind) -> bool
    ensures { result ≡ has (key KEY_ATOMIC ∷ []) (terminal kind) }
{
    matches!(kind, Kind::Key(KEY_ATOMIC))
}

/// What begins a specifier at the place that is no type specifier, and is not `_Atomic`.
fn begins_modifier(place: Place, kind: Kind) -> bool
    ensures { result ≡ has (sets.begins_modifier place) (terminal kind) }
{
    match place {
        Place::Ordinary => matches!(
            kind,
            Kind::Key(
                KEY_TYPEDEF
                    | KEY_EXTERN
                    | KEY_STATIC
                    | KEY_THREAD_LOCAL
                    | KEY_AUTO
                    | KEY_REGISTER
                    | KEY_INLINE
                    | KEY_NORETURN
                    | KEY_ALIGNAS
                    | KEY_CONST
                    | KEY_RESTRICT
                    | KEY_VOLATILE
            )
        ),
        Place::Definition => matches!(
            kind,
            Kind::Key(
                KEY_EXTERN
                    | KEY_STATIC
                    | KEY_THREAD_LOCAL
                    | KEY_AUTO
                    | KEY_REGISTER
                    | KEY_INLINE
                    | KEY_NORETURN
                    | KEY_ALIGNAS
                    | KEY_CONST
                    | KEY_RESTRICT
                    | KEY_VOLATILE
            )
        ),
        Place::Parameter => matches!(
            kind,
            Kind::Key(
                KEY_REGISTER
                    | KEY_INLINE
                    | KEY_NORETURN
                    | KEY_ALIGNAS
                    | KEY_CONST
                    | KEY_RESTRICT
                    | KEY_VOLATILE
            )
        ),
        Place::Member => matches!(
            kind,
            Kind::Key(KEY_ALIGNAS | KEY_CONST | KEY_RESTRICT | KEY_VOLATILE)
        ),
        Place::Nameless => is_plain_qualifier(kind),
    }
}

/// What begins a specifier at the place behind a type specifier.
pub(crate) fn begins_word(place: Place, kind: Kind) -> bool
    ensures { result ≡ has (sets.begins_word place) (terminal kind) }
{
    if begins_specifier(kind) {
        return true;
    }
    if begins_modifier(place, kind) {
        return true;
    }
    is_atomic(kind)
}
