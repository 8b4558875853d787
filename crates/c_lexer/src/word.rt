//! Words: identifiers and keywords (C11 6.4.1 and 6.4.2.1).

ghost use Rattle.std.specs.Prelude.{ℕ, ◌<◌, ◌≤◌, length, slice_index};
ghost use Rattle.c_lexer.specs.Bytes.{IsWordByte};

use crate::byte_class::is_word_byte;

/// Where the run of letters, digits and `_` from `from` on ends.
pub(crate) fn word_end(bytes: &[u8], from: usize) -> usize
    requires { from ≤ length bytes.now }
    ensures forward { from ≤ result }
    ensures within { result ≤ length bytes.now }
    ensures each { (i : ℕ) → from ≤ i → i < result → IsWordByte (slice_index bytes.now i) }
    ensures ends { result < length bytes.now → ¬ IsWordByte (slice_index bytes.now result) }
{
    let mut end = from;
    while end < bytes.len() && is_word_byte(bytes[end]) {
        end += 1;
    }
    end
}
