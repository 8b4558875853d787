//! The tokens that the parser keeps.
//!
//! System headers are full of what a parser of C11 has no grammar for: `__extension__`,
//! `__attribute__((..))` and `__asm__("..")` behind a declarator. Each is dropped here, with line
//! markers and pragmas.

ghost use Rattle.std.specs.Prelude.{ℕ, ◌≡◌, ◌<◌, ◌≤◌, ◌^◌, ◌↔◌, List, length};
ghost use Rattle.std.specs.Prelude.{IfOk, IfSome, IsErr, IsErrOf, IsOkUnless, IsTrue, not};
ghost use Rattle.std.specs.List.{All};
ghost use Rattle.c_lexer.specs.Finds.{Finds};
ghost use Rattle.line_marks.specs.Balance.{kind_at};
ghost use Rattle.line_marks.specs.Kept.{AreKept, AreParens, IsAbsent, MayEndDeclarator};
ghost use Rattle.line_marks.specs.Kept.{StopsStripping};
ghost use Rattle.line_marks.specs.Stripping.{AreBalancedTo, HasEndsForGroups};
ghost use Rattle.line_marks.specs.Stripping.{IsTreatment, MayDropGroup};

use crate::balance::{balanced_ends, group_from, kind_at};
use crate::stop::StripStop;
use c_lexer::keyword::{KEY_ASM, KEY_ATTRIBUTE, KEY_EXTENSION};
use c_lexer::mark::{MARK_LEFT_PAREN, MARK_RIGHT_BRACKET, MARK_RIGHT_PAREN};
use c_lexer::{Kind, Token};
use std::alloc::{AllocError, Global};

/// What is done with a token.
#[derive(Clone, Copy, Debug, PartialEq, Eq)]
enum Treatment {
    /// The parser reads it.
    Keep,
    /// It is dropped with all before this position.
    Drop(usize),
    /// The tokens are refused for it.
    Refuse,
}

/// Whether the token is dropped alone.
fn is_absent(kind: Kind) -> bool
    ensures { IsTrue result ↔ IsAbsent kind }
{
    matches!(kind, Kind::Line | Kind::Pragma | Kind::Key(KEY_EXTENSION))
}

/// Whether a declarator may end with this token, the last that was kept.
fn may_end_declarator(before: Option<Kind>) -> bool
    ensures { IsTrue result ↔ MayEndDeclarator before }
{
    matches!(
        before,
        Some(Kind::Word | Kind::Mark(MARK_RIGHT_PAREN | MARK_RIGHT_BRACKET))
    )
}

/// Where the parentheses end that follow from `from` on, if they do.
fn parens_end(tokens: &[Token], ends: &[u32], from: usize) -> Option<usize>
    requires few { length tokens.now < 2 ^ 32 }
    requires ends { AreBalancedTo tokens.now ends.now }
    ensures parens { Finds (AreParens tokens.now from) result }
    ensures within { IfSome result (λ to. (from < to) × (to ≤ length tokens.now)) }
{
    let mut at = from;
    while let Some(kind) = kind_at(tokens, at) {
        if kind == Kind::Mark(MARK_LEFT_PAREN) {
            return group_from(tokens, ends, at);
        }
        if !is_absent(kind) {
            return None;
        }
        at += 1;
    }
    None
}

/// What is done with the token at `at`, where `before` was kept last.
fn treatment_at(
    tokens: &[Token],
    ends: &[u32],
    before: Option<Kind>,
    at: usize,
    kind: Kind,
) -> Treatment
    requires few { length tokens.now < 2 ^ 32 }
    requires ends { MayDropGroup kind → AreBalancedTo tokens.now ends.now }
    requires token { kind_at tokens.now at ≡ Some kind }
    ensures { IsTreatment tokens.now before at kind result }
{
    if is_absent(kind) {
        return Treatment::Drop(at + 1);
    }
    match kind {
        Kind::Key(KEY_ATTRIBUTE) => match parens_end(tokens, ends, at + 1) {
            Some(to) => Treatment::Drop(to),
            None => Treatment::Refuse,
        },
        Kind::Key(KEY_ASM) if may_end_declarator(before) => match parens_end(tokens, ends, at + 1) {
            Some(to) => Treatment::Drop(to),
            None => Treatment::Keep,
        },
        _ => Treatment::Keep,
    }
}

/// Whether a token of this kind may be dropped with parentheses behind it.
fn may_drop_group(kind: Kind) -> bool
    ensures { IsTrue result ↔ MayDropGroup kind }
{
    matches!(kind, Kind::Key(KEY_ATTRIBUTE | KEY_ASM))
}

/// Whether there is a token that may be dropped with parentheses behind it.
fn may_drop_groups(tokens: &[Token]) -> bool
    ensures { IsTrue (not result) → All (λ token. ¬ MayDropGroup token.kind) tokens.now }
{
    for token in tokens {
        if may_drop_group(token.kind) {
            return true;
        }
    }
    false
}

/// Where the longest balanced text ends that begins at each position, and nothing where no token
/// asks for it, as in most files without headers.
fn needed_ends(alloc: Global, tokens: &[Token]) -> Result<Vec<u32>, AllocError>
    requires { length tokens.now < 2 ^ 32 }
    ensures { IfOk result (λ ends. HasEndsForGroups tokens.now ends.items) }
{
    if may_drop_groups(tokens) {
        balanced_ends(alloc, tokens)
    } else {
        Ok(Vec::new(alloc))
    }
}

/// The positions of the tokens that the parser keeps, ascending.
///
/// Line markers, pragmas and `__extension__` are dropped, and `__attribute__` with its parentheses.
/// `__asm__` is dropped with its parentheses behind a word, `)` or `]`, where a declarator may end
/// and it names the symbol; any other is kept. Tokens have one list or one bad `__attribute__`
/// (`laws`).
pub fn strip(alloc: Global, tokens: &[Token]) -> Result<Vec<u32>, StripStop>
    requires few { length tokens.now < 2 ^ 32 }
    ensures ok { IfOk result (λ kept. AreKept tokens.now kept.items) }

    // A refusal names the first bad `__attribute__`; want of memory alone needs none.
    ensures bad_attribute { (at : ℕ) → IsErrOf result (StripStop.BadAttribute at) →
        StopsStripping tokens.now at }
    ensures refuses { (at : ℕ) → StopsStripping tokens.now at → IsErr result }
    ensures accepts { (kept : List ℕ) → AreKept tokens.now kept →
        IsOkUnless result StripStop.Memory }
{
    let ends = needed_ends(alloc, tokens)?;
    let mut kept = Vec::new(alloc);
    let mut before = None;
    let mut at = 0;
    while let Some(kind) = kind_at(tokens, at) {
        match treatment_at(tokens, &ends, before, at, kind) {
            Treatment::Keep => {
                kept.push(at as u32)?;
                before = Some(kind);
                at += 1;
            }
            Treatment::Drop(to) => at = to,
            Treatment::Refuse => return Err(StripStop::BadAttribute { token: at as u32 }),
        }
    }
    Ok(kept)
}
