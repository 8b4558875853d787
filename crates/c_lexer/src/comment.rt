//! Comments (C11 6.4.9).

ghost use Rattle.std.specs.Prelude.{◌<◌, ◌↔◌, length, IsTrue};
ghost use Rattle.c_lexer.specs.Bytes.{asterisk, slash};
ghost use Rattle.c_lexer.specs.Comments.{BeginsComment, IsBlockComment, IsLineComment, IsPair};
ghost use Rattle.c_lexer.specs.Finds.{Finds};

use crate::line::line_end;
use crate::pair::is_pair;
use crate::source_text::SourceText;

/// Whether a comment begins at `at`.
pub(crate) fn begins_comment(text: SourceText<'_>, at: usize) -> bool
    requires inside { at < length text.bytes.now }
    ensures { IsTrue result ↔ BeginsComment text.entry.bytes.now at }
{
    is_pair(text, at, b'/', b'*') || is_pair(text, at, b'/', b'/')
}

/// Where the comment that begins with the `/*` at `at` ends.
pub(crate) fn block_comment_end(text: SourceText<'_>, at: usize) -> Option<usize>
    requires opens { IsPair text.bytes.now at slash asterisk }
    ensures { Finds (IsBlockComment text.entry.bytes.now at) result }
{
    let mut close = at + 2;
    while close < text.bytes.len() {
        if is_pair(text, close, b'*', b'/') {
            return Some(close + 2);
        }
        close += 1;
    }
    None
}

/// Where the comment that begins with the `//` at `at` ends.
pub(crate) fn line_comment_end(text: SourceText<'_>, at: usize) -> usize
    requires opens { IsPair text.bytes.now at slash slash }
    ensures { IsLineComment text.entry.bytes.now at result }
{
    line_end(text.bytes, at + 2)
}
