//! Preprocessing numbers (C11 6.4.8).

ghost use Rattle.std.specs.Prelude.{ℕ, ◌<◌, ◌≤◌, ◌↔◌, length, IsTrue};
ghost use Rattle.c_lexer.specs.Numbers.{BeginsNumber, IsNumber, IsNumberByte};

use crate::byte_class::{is_digit, is_exponent, is_sign, is_word_byte};
use crate::source_text::SourceText;

/// Whether a number begins at `at`.
pub(crate) fn begins_number(text: SourceText<'_>, at: usize) -> bool
    requires inside { at < length text.bytes.now }
    ensures { IsTrue result ↔ BeginsNumber text.entry.bytes.now at }
{
    let bytes = text.bytes;
    is_digit(bytes[at]) || (bytes[at] == b'.' && at + 1 < bytes.len() && is_digit(bytes[at + 1]))
}

/// Whether the byte at `at` is one of the number that begins at `from`.
fn is_number_byte(bytes: &[u8], from: usize, at: usize) -> bool
    requires behind { from < at }
    requires inside { at < length bytes.now }
    ensures { IsTrue result ↔ IsNumberByte bytes.now from at }
{
    let byte = bytes[at];
    is_word_byte(byte) || byte == b'.' || (is_sign(byte) && is_exponent(bytes[at - 1]))
}

/// Where the number that begins at `from` ends.
pub(crate) fn number_end(text: SourceText<'_>, from: usize) -> usize
    requires inside { from < length text.bytes.now }
    requires begins { BeginsNumber text.bytes.now from }
    ensures some { from < result }
    ensures within { result ≤ length text.entry.bytes.now }
    ensures number { IsNumber text.entry.bytes.now from result }
    ensures longest { (past : ℕ) → result < past → past ≤ length text.entry.bytes.now →
        ¬ IsNumber text.entry.bytes.now from past }
{
    let mut end = from + 1;
    while end < text.bytes.len() && is_number_byte(text.bytes, from, end) {
        end += 1;
    }
    end
}
