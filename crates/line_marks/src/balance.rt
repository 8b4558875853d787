//! Balanced brackets: where a group ends.
//!
//! One pass from the last token to the first finds where the longest balanced text ends that begins
//! at each position. A group stands where an opening bracket is followed by balanced text whose end
//! is its own closing bracket. So a bracket that nothing closes costs no search of its own.

ghost use Rattle.std.specs.Prelude.{ℕ, ◌≡◌, ◌+◌, ◌<◌, ◌≤◌, ◌^◌, ◌↔◌, length, slice_index};
ghost use Rattle.std.specs.Prelude.{IfOk, IfSome, IsTrue};
ghost use Rattle.c_lexer.specs.Finds.{Finds};
ghost use Rattle.line_marks.specs.Balance.{Closes, IsBracket, IsGroup, kind_at};
ghost use Rattle.line_marks.specs.Stripping.{AreBalancedTo, IsBalancedTo};

use c_lexer::mark::{
    MARK_LEFT_BRACE, MARK_LEFT_BRACKET, MARK_LEFT_PAREN, MARK_RIGHT_BRACE, MARK_RIGHT_BRACKET,
    MARK_RIGHT_PAREN,
};
use c_lexer::{Kind, Token};
use std::alloc::{AllocError, Global};

/// The kind of the token at `at`, if one stands there.
pub(crate) fn kind_at(tokens: &[Token], at: usize) -> Option<Kind>
    ensures kind { result ≡ kind_at tokens.now at }
    ensures inside { IfSome result (λ _. at < length tokens.now) }
{
    match tokens.get(at) {
        Some(token) => Some(token.kind),
        None => None,
    }
}

/// The number of the mark at `at`, if a mark stands there.
fn mark_at(tokens: &[Token], at: usize) -> Option<u8>
    ensures number { Finds (λ number. kind_at tokens.now at ≡ Some (Kind.Mark number)) result }
    ensures inside { IfSome result (λ _. at < length tokens.now) }
{
    match kind_at(tokens, at)? {
        Kind::Mark(number) => Some(number),
        _ => None,
    }
}

/// Whether the first mark is an opening bracket and the second its own closing one.
fn closes(opening: u8, closing: u8) -> bool
    ensures { IsTrue result ↔ Closes opening closing }
{
    match opening {
        MARK_LEFT_PAREN => closing == MARK_RIGHT_PAREN,
        MARK_LEFT_BRACKET => closing == MARK_RIGHT_BRACKET,
        MARK_LEFT_BRACE => closing == MARK_RIGHT_BRACE,
        _ => false,
    }
}

/// Whether the kind is a bracket's. They are the first six marks.
fn is_bracket(kind: Kind) -> bool
    ensures { IsTrue result ↔ IsBracket kind }
{
    matches!(kind, Kind::Mark(number) if number <= MARK_RIGHT_BRACE)
}

/// Where the group ends that begins at `at`, if one does. Balanced text stands from behind `at` to
/// before `end`, and none goes on from there.
fn group_end(tokens: &[Token], at: usize, end: usize) -> Option<usize>
    requires few { length tokens.now < 2 ^ 32 }
    requires inside { IsBalancedTo tokens.now (at + 1) end }
    ensures group { Finds (IsGroup tokens.now at) result }
    ensures within { IfSome result (λ to. (to ≡ end + 1) × (to ≤ length tokens.now)) }
{
    let opening = mark_at(tokens, at)?;
    let closing = mark_at(tokens, end)?;
    if closes(opening, closing) {
        Some(end + 1)
    } else {
        None
    }
}

/// Where the balanced text ends that begins at `at`, from where it ends for each later position.
fn end_from(tokens: &[Token], ends: &[u32], at: usize) -> u32
    requires few { length tokens.now < 2 ^ 32 }
    requires inside { at < length tokens.now }
    requires one_each { length ends.now ≡ length tokens.now + 1 }
    requires later { (k : ℕ) → at < k → k ≤ length tokens.now →
        IsBalancedTo tokens.now k (slice_index ends.now k) }
    ensures { IsBalancedTo tokens.now at result }
{
    let end = ends[at + 1];
    match kind_at(tokens, at) {
        Some(kind) if is_bracket(kind) => match group_end(tokens, at, end as usize) {
            Some(past) => ends[past],
            None => at as u32,
        },
        _ => end,
    }
}

/// Where the longest balanced text ends that begins at each position, the end of the tokens
/// included.
pub(crate) fn balanced_ends(alloc: Global, tokens: &[Token]) -> Result<Vec<u32>, AllocError>
    requires { length tokens.now < 2 ^ 32 }
    ensures { IfOk result (λ ends. AreBalancedTo tokens.now ends.items) }
{
    let count = tokens.len();
    let mut ends = vec![in alloc; count as u32; count + 1]?;
    let mut at = count;
    while at > 0 {
        at -= 1;
        ends[at] = end_from(tokens, &ends, at);
    }
    Ok(ends)
}

/// Where the group ends that begins at `at`, if one does.
pub(crate) fn group_from(tokens: &[Token], ends: &[u32], at: usize) -> Option<usize>
    requires few { length tokens.now < 2 ^ 32 }
    requires inside { at < length tokens.now }
    requires ends { AreBalancedTo tokens.now ends.now }
    ensures group { Finds (IsGroup tokens.now at) result }
    ensures within { IfSome result (λ to. (at < to) × (to ≤ length tokens.now)) }
{
    group_end(tokens, at, ends[at + 1] as usize)
}
