//! What the next tokens begin (C11 6.8).

ghost use Rattle.std.specs.Prelude.{◌≡◌, ◌∷◌, []};
ghost use Rattle.reading.specs.Readers.{is_ahead};
ghost use Rattle.reading.specs.Terminals.{has};
ghost use Rattle.c_reading.specs.Terminals.{terminal};
ghost use Rattle.c_syntax.specs.Scoping.{input_from, terminal_of};
ghost use Rattle.c_stmt.specs.Choices.{is_second};
ghost use Rattle.c_stmt.specs.StatementSets.{a_colon, a_statement_mark, begins_expr, begins_plain};
ghost use Rattle.c_stmt.specs.StatementSets.{expr_mark};

use c_lexer::Kind;
use c_lexer::keyword::{
    KEY_ALIGNOF, KEY_BREAK, KEY_CASE, KEY_CONTINUE, KEY_DEFAULT, KEY_DO, KEY_FOR, KEY_GOTO, KEY_IF,
    KEY_RETURN, KEY_SIZEOF, KEY_SWITCH, KEY_WHILE,
};
use c_lexer::mark::{
    MARK_AMPERSAND, MARK_COLON, MARK_EXCLAMATION, MARK_LEFT_BRACE, MARK_LEFT_PAREN, MARK_MINUS,
    MARK_MINUS_MINUS, MARK_PLUS, MARK_PLUS_PLUS, MARK_SEMICOLON, MARK_STAR, MARK_TILDE,
};
use c_syntax::Source;

/// A token that begins a statement, and is no name and begins no expression.
fn begins_statement(kind: Kind) -> bool
    ensures { result ≡ has a_statement_mark (terminal kind) }
{
    matches!(
        kind,
        Kind::Mark(MARK_SEMICOLON | MARK_LEFT_BRACE)
            | Kind::Key(
                KEY_CASE
                    | KEY_DEFAULT
                    | KEY_IF
                    | KEY_WHILE
                    | KEY_DO
                    | KEY_FOR
                    | KEY_SWITCH
                    | KEY_BREAK
                    | KEY_CONTINUE
                    | KEY_GOTO
                    | KEY_RETURN
            )
    )
}

/// A token that begins an expression, and is no name.
fn begins_expression(kind: Kind) -> bool
    ensures { result ≡ has expr_mark (terminal kind) }
{
    matches!(
        kind,
        Kind::Mark(
            MARK_AMPERSAND
                | MARK_STAR
                | MARK_PLUS
                | MARK_MINUS
                | MARK_TILDE
                | MARK_EXCLAMATION
                | MARK_PLUS_PLUS
                | MARK_MINUS_MINUS
                | MARK_LEFT_PAREN
        ) | Kind::Key(KEY_SIZEOF | KEY_ALIGNOF)
            | Kind::Number
            | Kind::Char
            | Kind::Text
    )
}

/// A colon.
fn is_colon(kind: Kind) -> bool
    ensures { result ≡ has a_colon (terminal kind) }
{
    matches!(kind, Kind::Mark(MARK_COLON))
}

/// Whether the next token begins a statement, and is no name and begins no expression.
pub(crate) fn is_at_statement_mark(source: &Source<'_>) -> bool
    ensures { result ≡ is_ahead terminal_of a_statement_mark (input_from source.now) }
{
    match source.cursor.ahead() {
        Some(kind) => begins_statement(kind),
        None => false,
    }
}

/// Whether the next token begins an expression.
pub(crate) fn is_at_expr(source: &Source<'_>) -> bool
    ensures { result ≡ is_ahead terminal_of begins_expr (input_from source.now) }
{
    if source.is_at_name() {
        return true;
    }
    match source.cursor.ahead() {
        Some(kind) => begins_expression(kind),
        None => false,
    }
}

/// Whether the next token begins a statement, and is no typedef name.
pub(crate) fn is_at_plain(source: &Source<'_>) -> bool
    ensures { result ≡ is_ahead terminal_of begins_plain (input_from source.now) }
{
    if is_at_statement_mark(source) {
        return true;
    }
    is_at_expr(source)
}

/// Whether a colon stands behind the next token.
pub(crate) fn is_before_colon(source: &Source<'_>) -> bool
    ensures { result ≡ is_second terminal_of a_colon (input_from source.now) }
{
    match source.cursor.second() {
        Some(kind) => is_colon(kind),
        None => false,
    }
}
