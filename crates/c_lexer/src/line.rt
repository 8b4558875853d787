//! Where a line begins and ends.

ghost use Rattle.std.specs.Prelude.{◌<◌, ◌≤◌, ◌↔◌, length, slice_index, IsTrue};
ghost use Rattle.c_lexer.specs.Bytes.{IsLineBlank};
ghost use Rattle.c_lexer.specs.Lines.{AreLineBlanks, BeginsLine, EndsLine, OnOneLine};

use crate::byte_class::is_line_blank;

/// Whether only blanks stand before `at` on its line.
pub(crate) fn begins_line(bytes: &[u8], at: usize) -> bool
    requires { at ≤ length bytes.now }
    ensures { IsTrue result ↔ BeginsLine bytes.now at }
{
    let mut start = at;
    while start > 0 && is_line_blank(bytes[start - 1]) {
        start -= 1;
    }
    start == 0 || bytes[start - 1] == b'\n'
}

/// Whether the line ends at `at`.
pub(crate) fn ends_line(bytes: &[u8], at: usize) -> bool
    requires { at ≤ length bytes.now }
    ensures { IsTrue result ↔ EndsLine bytes.now at }
{
    at == bytes.len() || bytes[at] == b'\n'
}

/// Where the line ends that `from` stands in.
pub(crate) fn line_end(bytes: &[u8], from: usize) -> usize
    requires { from ≤ length bytes.now }
    ensures forward { from ≤ result }
    ensures within { result ≤ length bytes.now }
    ensures one_line { OnOneLine bytes.now from result }
    ensures ends { EndsLine bytes.now result }
{
    let mut end = from;
    while end < bytes.len() && bytes[end] != b'\n' {
        end += 1;
    }
    end
}

/// Where the run of blanks from `from` on ends, on its line.
pub(crate) fn blanks_end(bytes: &[u8], from: usize) -> usize
    requires { from ≤ length bytes.now }
    ensures forward { from ≤ result }
    ensures within { result ≤ length bytes.now }
    ensures blanks { AreLineBlanks bytes.now from result }
    ensures ends { result < length bytes.now → ¬ IsLineBlank (slice_index bytes.now result) }
{
    let mut end = from;
    while end < bytes.len() && is_line_blank(bytes[end]) {
        end += 1;
    }
    end
}
