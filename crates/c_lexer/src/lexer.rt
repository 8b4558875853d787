//! The entry: from the bytes of a file to its tokens.

ghost use Rattle.std.specs.Prelude.{ℕ, ◌≡◌, ◌≢◌, ◌<◌, ◌≤◌, List, length, slice_index};
ghost use Rattle.std.specs.Prelude.{IfNone, IfOk, IsErr, IsErrOf, IsOkUnless};
ghost use Rattle.c_lexer.specs.Bytes.{IsLetter, IsWordByte, asterisk, slash};
ghost use Rattle.c_lexer.specs.Comments.{BeginsComment, IsPair};
ghost use Rattle.c_lexer.specs.Finds.{Finds};
ghost use Rattle.c_lexer.specs.Passing.{IsPassed};
ghost use Rattle.c_lexer.specs.Reading.{AreTokensOf, LeavesOpen, StopsAt};
ghost use Rattle.c_lexer.specs.Scanning.{IsLiteralAt, IsLongestToken};
ghost use Rattle.c_lexer.specs.declared.token.Token.{Token};

use crate::byte_class::{is_blank, is_letter};
use crate::comment::{begins_comment, block_comment_end, line_comment_end};
use crate::cursor::Cursor;
use crate::directive::directive_at;
use crate::error::LexStop;
use crate::keyword::keyword_of;
use crate::literal::literal_at;
use crate::mark::mark_at;
use crate::number::{begins_number, number_end};
use crate::pair::is_pair;
use crate::source_text::SourceText;
use crate::token::{FoundToken, Kind, Token};
use crate::word::word_end;
use std::alloc::Global;

/// The longest token at `at`, where no blank and no comment stands.
fn token_at(text: SourceText<'_>, at: usize) -> Option<FoundToken>
    requires inside { at < length text.bytes.now }
    ensures { Finds (IsLongestToken text.entry.bytes.now at) result }
{
    let first = text.bytes[at];
    if is_letter(first) {
        return Some(name_at(text, at));
    }
    if begins_number(text, at) {
        return Some(FoundToken {
            kind: Kind::Number,
            end: number_end(text, at),
        });
    }
    match first {
        b'"' | b'\'' => literal_at(text, at, at),
        b'#' => directive_at(text, at),
        _ => match mark_at(text, at) {
            Some(mark) => Some(FoundToken {
                kind: Kind::Mark(mark.number),
                end: mark.end,
            }),
            None => None,
        },
    }
}

/// The longest token at `at`, where a letter stands.
fn name_at(text: SourceText<'_>, at: usize) -> FoundToken
    requires inside { at < length text.bytes.now }
    requires letter { IsLetter (slice_index text.bytes.now at) }
    ensures { IsLongestToken text.entry.bytes.now at result }
{
    let end = word_end(text.bytes, at);
    if let Some(literal) = prefixed_literal(text, at, end) {
        return literal;
    }
    let kind = match keyword_of(&text.bytes[at..end]) {
        Some(number) => Kind::Key(number),
        None => Kind::Word,
    };
    FoundToken { kind, end }
}

/// The literal whose prefix is the run of word bytes from `from` to `end`.
fn prefixed_literal(text: SourceText<'_>, from: usize, end: usize) -> Option<FoundToken>
    requires some { from < end }
    requires within { end ≤ length text.bytes.now }
    requires each { (i : ℕ) → from ≤ i → i < end → IsWordByte (slice_index text.bytes.now i) }
    requires ends { end < length text.bytes.now → ¬ IsWordByte (slice_index text.bytes.now end) }
    ensures { Finds (IsLiteralAt text.entry.bytes.now from) result }
{
    if end == text.bytes.len() {
        return None;
    }
    match text.bytes[end] {
        b'"' | b'\'' => literal_at(text, from, end),
        _ => None,
    }
}

/// Where the comment ends that begins at `at`, if it does.
fn comment_end(text: SourceText<'_>, at: usize) -> Option<usize>
    requires inside { at < length text.bytes.now }
    requires begins { BeginsComment text.bytes.now at }
    ensures end { Finds (IsPassed text.entry.bytes.now at) result }
    ensures unclosed { IfNone result (IsPair text.entry.bytes.now at slash asterisk) }
{
    if is_pair(text, at, b'/', b'*') {
        block_comment_end(text, at)
    } else {
        Some(line_comment_end(text, at))
    }
}

/// Why the reading stops at `at`, where no token begins and no comment.
fn stop_at(text: SourceText<'_>, at: usize) -> LexStop
    requires inside { at < length text.bytes.now }
    requires no_comment { ¬ BeginsComment text.bytes.now at }
    ensures bad_byte { (n : ℕ) → result ≡ LexStop.BadByte n →
        (n ≡ at) × ¬ LeavesOpen text.entry.bytes.now at }
    ensures unclosed { (n : ℕ) → result ≡ LexStop.Unclosed n →
        (n ≡ at) × LeavesOpen text.entry.bytes.now at }
    ensures no_memory { result ≢ LexStop.Memory }
{
    let offset = at as u32;
    match text.bytes[at] {
        b'"' => LexStop::Unclosed { at: offset },
        b'\'' if !is_pair(text, at, b'\'', b'\'') => LexStop::Unclosed { at: offset },
        _ => LexStop::BadByte { at: offset },
    }
}

/// The tokens of a preprocessed file (C11 6.4), without what is passed over between them.
///
/// A file has one list of tokens or one offset at which its reading stops, and never both (`laws`).
pub fn lex(alloc: Global, text: SourceText<'_>) -> Result<Vec<Token>, LexStop>
    ensures tokens { IfOk result (λ tokens. AreTokensOf text.entry.bytes.now tokens.items) }

    // A refusal has its cause; want of memory alone needs none.
    ensures bad_byte { (at : ℕ) → IsErrOf result (LexStop.BadByte at) →
        StopsAt text.entry.bytes.now at × ¬ LeavesOpen text.entry.bytes.now at }
    ensures unclosed { (at : ℕ) → IsErrOf result (LexStop.Unclosed at) →
        StopsAt text.entry.bytes.now at × LeavesOpen text.entry.bytes.now at }
    ensures refuses { (at : ℕ) → StopsAt text.entry.bytes.now at → IsErr result }
    ensures accepts { (tokens : List Token) → AreTokensOf text.entry.bytes.now tokens →
        IsOkUnless result LexStop.Memory }
{
    let mut tokens = Vec::new(alloc);
    let mut cursor = Cursor::new(text);
    while let Some(first) = cursor.byte() {
        let at = cursor.at();
        if is_blank(first) {
            cursor.step();
        } else if begins_comment(text, at) {
            match comment_end(text, at) {
                Some(end) => cursor.pass_to(end),
                None => return Err(LexStop::Unclosed { at: at as u32 }),
            }
        } else {
            match token_at(text, at) {
                Some(token) => tokens.push(cursor.take(token.kind, token.end))?,
                None => return Err(stop_at(text, at)),
            }
        }
    }
    Ok(tokens)
}
