//! The lines that begin with `#`.

ghost use Rattle.std.specs.Prelude.{◌≡◌, ◌<◌, ◌≤◌, length, slice_index};
ghost use Rattle.c_lexer.specs.Bytes.{number_sign};
ghost use Rattle.c_lexer.specs.Lines.{BeginsLine};
ghost use Rattle.c_lexer.specs.Directives.{IsPragma};
ghost use Rattle.c_lexer.specs.Finds.{Finds};
ghost use Rattle.c_lexer.specs.Scanning.{IsDirectiveAt};

use crate::line::{begins_line, blanks_end, line_end};
use crate::marker::marker_at;
use crate::source_text::SourceText;
use crate::token::{FoundToken, Kind};

/// The line whose `#` stands at `at`.
pub(crate) fn directive_at(text: SourceText<'_>, at: usize) -> Option<FoundToken>
    requires inside { at < length text.bytes.now }
    requires sign { slice_index text.bytes.now at ≡ number_sign }
    ensures { Finds (IsDirectiveAt text.entry.bytes.now at) result }
{
    if !begins_line(text.bytes, at) {
        return None;
    }
    if let Some(end) = pragma_end(text, at) {
        return Some(FoundToken {
            kind: Kind::Pragma,
            end,
        });
    }
    let end = marker_at(text, at)?.end;
    Some(FoundToken {
        kind: Kind::Line,
        end,
    })
}

/// Where the pragma whose `#` stands at `at` ends, if it is one.
fn pragma_end(text: SourceText<'_>, at: usize) -> Option<usize>
    requires inside { at < length text.bytes.now }
    requires begins_line { BeginsLine text.bytes.now at }
    requires sign { slice_index text.bytes.now at ≡ number_sign }
    ensures { Finds (λ to. (to ≤ length text.entry.bytes.now)
        × IsPragma text.entry.bytes.now at to) result }
{
    let word = blanks_end(text.bytes, at + 1);
    if text.bytes.len() - word < 6 {
        return None;
    }
    let spelled = &text.bytes[word..word + 6];
    if spelled != b"pragma".as_slice() {
        return None;
    }
    Some(line_end(text.bytes, word + 6))
}
