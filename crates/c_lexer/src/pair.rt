//! Two bytes, one after the other.

ghost use Rattle.std.specs.Prelude.{◌<◌, ◌≤◌, ◌↔◌, length, IsTrue};
ghost use Rattle.c_lexer.specs.Comments.{IsPair};

use crate::source_text::SourceText;

/// Whether the two bytes stand at `at`. The second is not 0.
pub(crate) fn is_pair(text: SourceText<'_>, at: usize, first: u8, second: u8) -> bool
    requires inside { at < length text.bytes.now }
    requires some { 0 < second }
    ensures { IsTrue result ↔ IsPair text.entry.bytes.now at first second }
{
    let bytes = text.bytes;
    bytes[at] == first && at + 1 < bytes.len() && bytes[at + 1] == second
}
