//! Character constants and string literals (C11 6.4.4.4, 6.4.5).

ghost use Rattle.std.specs.Prelude.{ℕ, ◌≡◌, ◌<◌, ◌≤◌, ◌⊎◌, ◌↔◌, length, slice_index, IsTrue};
ghost use Rattle.std.specs.List.{Contains};
ghost use Rattle.c_lexer.specs.Bytes.{IsWordByte, double_quote, single_quote};
ghost use Rattle.c_lexer.specs.Finds.{Finds};
ghost use Rattle.c_lexer.specs.Literals.{char_prefixes, text_prefixes};
ghost use Rattle.c_lexer.specs.Scanning.{ClosesQuotes, IsLiteralAt};

use crate::source_text::SourceText;
use crate::token::{FoundToken, Kind};

/// Where the quotes that open at `opening` are closed.
pub(crate) fn closing_quote(text: SourceText<'_>, opening: usize) -> Option<usize>
    requires inside { opening < length text.bytes.now }
    requires quote { (slice_index text.bytes.now opening ≡ single_quote)
        ⊎ (slice_index text.bytes.now opening ≡ double_quote) }
    ensures { Finds (ClosesQuotes text.entry.bytes.now opening) result }
{
    let quote = text.bytes[opening];
    let mut at = opening + 1;
    while at < text.bytes.len() {
        let byte = text.bytes[at];
        if byte == quote {
            return Some(at);
        }
        if byte == b'\n' {
            return None;
        }
        if byte == b'\\' {
            at += 1;
            if at < text.bytes.len() && text.bytes[at] == b'\n' {
                return None;
            }
        }
        at += 1;
    }
    None
}

/// Whether this may stand before the quotes of a character constant.
fn is_char_prefix(text: &[u8]) -> bool
    ensures { IsTrue result ↔ Contains char_prefixes text.now }
{
    matches!(text, [] | [b'L' | b'u' | b'U'])
}

/// Whether this may stand before the quotes of a string literal.
fn is_text_prefix(text: &[u8]) -> bool
    ensures { IsTrue result ↔ Contains text_prefixes text.now }
{
    matches!(text, [] | [b'L' | b'u' | b'U'] | [b'u', b'8'])
}

/// The literal that begins at `from`, where its quotes open at `opening`.
pub(crate) fn literal_at(text: SourceText<'_>, from: usize, opening: usize) -> Option<FoundToken>
    requires forward { from ≤ opening }
    requires inside { opening < length text.bytes.now }
    requires before { (i : ℕ) → from ≤ i → i < opening →
        IsWordByte (slice_index text.bytes.now i) }
    requires quote { (slice_index text.bytes.now opening ≡ single_quote)
        ⊎ (slice_index text.bytes.now opening ≡ double_quote) }
    ensures { Finds (IsLiteralAt text.entry.bytes.now from) result }
{
    let prefix = &text.bytes[from..opening];
    if text.bytes[opening] == b'"' {
        if !is_text_prefix(prefix) {
            return None;
        }
        let closing = closing_quote(text, opening)?;
        return Some(FoundToken {
            kind: Kind::Text,
            end: closing + 1,
        });
    }
    if !is_char_prefix(prefix) {
        return None;
    }
    let closing = closing_quote(text, opening)?;
    if closing == opening + 1 {
        return None;
    }
    Some(FoundToken {
        kind: Kind::Char,
        end: closing + 1,
    })
}
