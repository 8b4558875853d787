//! What the marks of an external declaration tell of it before it is read (C11 6.9).

ghost use Rattle.std.specs.Prelude.{◌≡◌, ◌<◌, ◌≤◌, ◌+◌, ◌^◌, length};
ghost use Rattle.line_marks.specs.Kept.{ArePositionsIn};
ghost use Rattle.c_unit.specs.Beginnings as spec;
ghost use Rattle.c_unit.specs.Beginnings.{depth_of};

use c_lexer::mark::{
    MARK_COMMA, MARK_EQUAL, MARK_LEFT_BRACE, MARK_LEFT_BRACKET, MARK_LEFT_PAREN, MARK_RIGHT_BRACE,
    MARK_RIGHT_BRACKET, MARK_RIGHT_PAREN, MARK_SEMICOLON,
};
use c_lexer::{Kind, Token};
use line_marks::item_at;

/// What the tokens that were passed tell.
#[derive(Clone, Copy, Drop)]
pub(crate) enum Seen {
    /// So many brackets are open, and the last token is `)` or `]`, or not.
    Open { depth: usize, closed: bool },
    /// Whether a function definition stands there.
    Told(bool),
}

/// What a mark tells outside of all brackets.
fn outside(closed: bool, number: u8) -> Seen
    ensures told { result ≡ spec.outside closed number }
    ensures shallow { depth_of result ≤ 1 }
{
    if number == MARK_LEFT_BRACE && closed {
        Seen::Told(true)
    } else if number == MARK_SEMICOLON || number == MARK_EQUAL || number == MARK_COMMA {
        Seen::Told(false)
    } else {
        inside(0, number)
    }
}

/// What a mark tells in so many brackets.
fn inside(depth: usize, number: u8) -> Seen
    requires { depth < 2 ^ 32 }
    ensures told { result ≡ spec.inside depth number }
    ensures shallow { depth_of result ≤ depth + 1 }
{
    match number {
        MARK_LEFT_PAREN | MARK_LEFT_BRACKET | MARK_LEFT_BRACE => Seen::Open {
            depth: depth + 1,
            closed: false,
        },
        MARK_RIGHT_PAREN | MARK_RIGHT_BRACKET => Seen::Open {
            depth: depth.saturating_sub(1),
            closed: true,
        },
        MARK_RIGHT_BRACE => Seen::Open {
            depth: depth.saturating_sub(1),
            closed: false,
        },
        _ => Seen::Open {
            depth,
            closed: false,
        },
    }
}

/// What the next token tells.
fn behind_kind(depth: usize, closed: bool, kind: Kind) -> Seen
    requires { depth < 2 ^ 32 }
    ensures told { result ≡ spec.behind_kind depth closed kind }
    ensures shallow { depth_of result ≤ depth + 1 }
{
    match kind {
        Kind::Mark(number) if depth == 0 => outside(closed, number),
        Kind::Mark(number) => inside(depth, number),
        _ => Seen::Open {
            depth,
            closed: false,
        },
    }
}

/// Whether the marks from the kept token of this number on are those of a function definition.
pub(crate) fn is_definition_at(tokens: &[Token], kept: &[u32], at: usize) -> bool
    requires inside { ArePositionsIn tokens.now kept.now }
    requires few { length kept.now < 2 ^ 32 }
    ensures { result ≡ spec.is_definition_at tokens.now kept.now at }
{
    let mut depth = 0;
    let mut closed = false;
    for number in at..kept.len() {
        let Some(token) = item_at(tokens, kept, number) else {
            return false;
        };
        match behind_kind(depth, closed, token.kind) {
            Seen::Open {
                depth: now_depth,
                closed: now_closed,
            } => {
                depth = now_depth;
                closed = now_closed;
            }
            Seen::Told(answer) => return answer,
        }
    }
    false
}
