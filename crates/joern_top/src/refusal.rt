//! The refusal of a source.

ghost use Rattle.std.specs.Prelude.{◌≡◌, ◌≤◌, length};
ghost use Rattle.c_lexer.specs.Lines.{line_at, column_at};
ghost use Rattle.joern_top.specs.Refusals.{IsRefusedAt};
ghost use Rattle.joern_top.specs.Reading.{IsRefusal};

use crate::status::Reason;
use c_lexer::SourceText;

/// Why a source is refused, and at which byte of its text.
#[derive(Clone, Copy, Debug)]
pub(crate) struct Refusal {
    pub(crate) reason: Reason,
    /// The offset of the byte.
    pub(crate) at: u32,
    /// The line of the byte in the text as it stands.
    pub(crate) line: u32,
    /// The column of the byte.
    pub(crate) column: u32,
}

impl Refusal {
    /// The refusal of the text, which is refused at this byte for this reason.
    pub(crate) fn new(text: SourceText<'_>, at: u32, reason: Reason) -> Refusal
        requires refused { IsRefusedAt text.bytes.now at reason }
        requires inside { at ≤ length text.bytes.now }
        ensures { IsRefusal text.entry.bytes.now result }
    {
        let before = &text.bytes[..at as usize];
        let mut line = 1;
        let mut column = 1;
        for byte in before {
            if *byte == b'\n' {
                line += 1;
                column = 1;
            } else {
                column += 1;
            }
        }
        Refusal {
            reason,
            at,
            line,
            column,
        }
    }
}
