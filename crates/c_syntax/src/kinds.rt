//! Kinds of tokens that the grammar of expressions tells apart (C11 6.5).

ghost use Rattle.std.specs.Prelude.{◌≡◌};
ghost use Rattle.reading.specs.Terminals.{has};
ghost use Rattle.c_reading.specs.Terminals.{terminal};
ghost use Rattle.c_syntax.specs.Sets.{a_step, a_unary, a_binary, an_assignment, a_basic_type};
ghost use Rattle.c_syntax.specs.Sets.{a_constant, a_suffix, a_type_word, other_unary};

use c_lexer::Kind;
use c_lexer::keyword::{
    KEY_ATOMIC, KEY_BOOL, KEY_BUILTIN_VA_LIST, KEY_CHAR, KEY_COMPLEX, KEY_CONST, KEY_DOUBLE,
    KEY_ENUM, KEY_FLOAT, KEY_FLOAT32, KEY_FLOAT32X, KEY_FLOAT64, KEY_FLOAT64X, KEY_FLOAT128,
    KEY_INT, KEY_INT128, KEY_LONG, KEY_RESTRICT, KEY_SHORT, KEY_SIGNED, KEY_STRUCT, KEY_UNION,
    KEY_UNSIGNED, KEY_VOID, KEY_VOLATILE,
};
use c_lexer::mark::{
    MARK_AMPERSAND, MARK_AMPERSAND_EQUAL, MARK_AND_AND, MARK_ARROW, MARK_BAR, MARK_BAR_EQUAL,
    MARK_CARET, MARK_CARET_EQUAL, MARK_DOT, MARK_EQUAL, MARK_EQUAL_EQUAL, MARK_EXCLAMATION,
    MARK_GREATER, MARK_GREATER_EQUAL, MARK_LEFT_BRACKET, MARK_LEFT_PAREN, MARK_LEFT_SHIFT,
    MARK_LEFT_SHIFT_EQUAL, MARK_LESS, MARK_LESS_EQUAL, MARK_MINUS, MARK_MINUS_EQUAL,
    MARK_MINUS_MINUS, MARK_NOT_EQUAL, MARK_OR_OR, MARK_PERCENT, MARK_PERCENT_EQUAL, MARK_PLUS,
    MARK_PLUS_EQUAL, MARK_PLUS_PLUS, MARK_RIGHT_SHIFT, MARK_RIGHT_SHIFT_EQUAL, MARK_SLASH,
    MARK_SLASH_EQUAL, MARK_STAR, MARK_STAR_EQUAL, MARK_TILDE,
};

/// `++` or `--`.
pub(crate) fn is_step(kind: Kind) -> bool
    ensures { result ≡ has a_step (terminal kind) }
{
    matches!(kind, Kind::Mark(MARK_PLUS_PLUS | MARK_MINUS_MINUS))
}

/// A unary operator behind which a cast may stand (6.5.3).
pub(crate) fn is_unary(kind: Kind) -> bool
    ensures { result ≡ has a_unary (terminal kind) }
{
    matches!(
        kind,
        Kind::Mark(
            MARK_AMPERSAND | MARK_STAR | MARK_PLUS | MARK_MINUS | MARK_TILDE | MARK_EXCLAMATION
        )
    )
}

/// One of these other than `*`.
pub(crate) fn is_other_unary(kind: Kind) -> bool
    ensures { result ≡ has other_unary (terminal kind) }
{
    matches!(
        kind,
        Kind::Mark(MARK_AMPERSAND | MARK_PLUS | MARK_MINUS | MARK_TILDE | MARK_EXCLAMATION)
    )
}

/// A binary operator (6.5.5 to 6.5.14).
pub(crate) fn is_binary(kind: Kind) -> bool
    ensures { result ≡ has a_binary (terminal kind) }
{
    matches!(
        kind,
        Kind::Mark(
            MARK_STAR
                | MARK_SLASH
                | MARK_PERCENT
                | MARK_PLUS
                | MARK_MINUS
                | MARK_LEFT_SHIFT
                | MARK_RIGHT_SHIFT
                | MARK_LESS
                | MARK_GREATER
                | MARK_LESS_EQUAL
                | MARK_GREATER_EQUAL
                | MARK_EQUAL_EQUAL
                | MARK_NOT_EQUAL
                | MARK_AMPERSAND
                | MARK_CARET
                | MARK_BAR
                | MARK_AND_AND
                | MARK_OR_OR
        )
    )
}

/// An assignment operator (6.5.16).
pub(crate) fn is_assignment(kind: Kind) -> bool
    ensures { result ≡ has an_assignment (terminal kind) }
{
    matches!(
        kind,
        Kind::Mark(
            MARK_EQUAL
                | MARK_STAR_EQUAL
                | MARK_SLASH_EQUAL
                | MARK_PERCENT_EQUAL
                | MARK_PLUS_EQUAL
                | MARK_MINUS_EQUAL
                | MARK_LEFT_SHIFT_EQUAL
                | MARK_RIGHT_SHIFT_EQUAL
                | MARK_AMPERSAND_EQUAL
                | MARK_CARET_EQUAL
                | MARK_BAR_EQUAL
        )
    )
}

/// What begins a suffix (6.5.2).
pub(crate) fn begins_suffix(kind: Kind) -> bool
    ensures { result ≡ has a_suffix (terminal kind) }
{
    matches!(
        kind,
        Kind::Mark(
            MARK_LEFT_BRACKET
                | MARK_LEFT_PAREN
                | MARK_DOT
                | MARK_ARROW
                | MARK_PLUS_PLUS
                | MARK_MINUS_MINUS
        )
    )
}

/// A constant that is no string literal (6.4.4).
pub(crate) fn is_constant(kind: Kind) -> bool
    ensures { result ≡ has a_constant (terminal kind) }
{
    matches!(kind, Kind::Number | Kind::Char)
}

/// A type specifier of one keyword (6.7.2).
pub(crate) fn is_basic_type(kind: Kind) -> bool
    ensures { result ≡ has a_basic_type (terminal kind) }
{
    matches!(
        kind,
        Kind::Key(
            KEY_VOID
                | KEY_CHAR
                | KEY_SHORT
                | KEY_INT
                | KEY_LONG
                | KEY_FLOAT
                | KEY_DOUBLE
                | KEY_SIGNED
                | KEY_UNSIGNED
                | KEY_BOOL
                | KEY_COMPLEX
                | KEY_BUILTIN_VA_LIST
                | KEY_INT128
                | KEY_FLOAT32
                | KEY_FLOAT64
                | KEY_FLOAT128
                | KEY_FLOAT32X
                | KEY_FLOAT64X
        )
    )
}

/// What begins a type name and is no typedef name (6.7.7).
pub(crate) fn begins_type(kind: Kind) -> bool
    ensures { result ≡ has a_type_word (terminal kind) }
{
    matches!(
        kind,
        Kind::Key(
            KEY_ATOMIC
                | KEY_VOID
                | KEY_CHAR
                | KEY_SHORT
                | KEY_INT
                | KEY_LONG
                | KEY_FLOAT
                | KEY_DOUBLE
                | KEY_SIGNED
                | KEY_UNSIGNED
                | KEY_BOOL
                | KEY_COMPLEX
                | KEY_BUILTIN_VA_LIST
                | KEY_INT128
                | KEY_FLOAT32
                | KEY_FLOAT64
                | KEY_FLOAT128
                | KEY_FLOAT32X
                | KEY_FLOAT64X
                | KEY_STRUCT
                | KEY_UNION
                | KEY_ENUM
                | KEY_CONST
                | KEY_RESTRICT
                | KEY_VOLATILE
        )
    )
}
