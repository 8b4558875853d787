//! Line markers: `# 7 "x.c" 2`.

ghost use Rattle.std.specs.Prelude.{◌≡◌, ◌<◌, ◌≤◌, length, slice_index};
ghost use Rattle.c_lexer.specs.Bytes.{number_sign};
ghost use Rattle.c_lexer.specs.Lines.{BeginsLine};
ghost use Rattle.c_lexer.specs.Directives.{AreFlags, IsLineMarker, IsMarkerOf};
ghost use Rattle.c_lexer.specs.Finds.{Finds};
ghost use Rattle.c_lexer.specs.Scanning.{BeginsFlag, EndsGap, IsFileAt, IsLineNumberAt};
ghost use Rattle.c_lexer.specs.Scanning.{IsMarkerAt, file_of};

use crate::byte_class::is_digit;
use crate::line::{blanks_end, ends_line};
use crate::literal::closing_quote;
use crate::source_text::SourceText;
use crate::token::Token;

/// The largest number of a line.
const MAX_LINE: u64 = 2_147_483_647;

/// What a line marker says of the lines after it.
#[derive(Clone, Copy, Debug, PartialEq, Eq)]
pub struct Marker<'b> {
    /// The number of the next line.
    pub line: u32,
    /// The name of its file as it stands between the quotes, if the marker names one.
    pub file: Option<&'b [u8]>,
}

/// The line marker that stands at an offset, and where it ends.
#[derive(Clone, Copy)]
pub(crate) struct FoundMarker<'b> {
    pub(crate) marker: Marker<'b>,
    pub(crate) end: usize,
}

/// The number of a line, and where its digits end.
#[derive(Clone, Copy)]
struct FoundLine {
    line: u32,
    end: usize,
}

/// The name of a file, if one stands there, and where it ends.
#[derive(Clone, Copy)]
struct FoundFile<'b> {
    name: Option<&'b [u8]>,
    end: usize,
}

/// What a line marker says, of its token.
pub fn marker_of<'b>(text: SourceText<'b>, token: &Token) -> Marker<'b>
    requires marker { IsLineMarker text.bytes.now token.now.start token.now.end }
    ensures { IsMarkerOf text.entry.bytes.now token.now.start token.now.end result.line
        (file_of result) }
{
    match marker_at(text, token.start as usize) {
        Some(found) => found.marker,
        // Never reached: the token is a marker.
        None => Marker {
            line: 0,
            file: None,
        },
    }
}

/// The line marker whose `#` stands at `at`.
pub(crate) fn marker_at<'b>(text: SourceText<'b>, at: usize) -> Option<FoundMarker<'b>>
    requires inside { at < length text.bytes.now }
    requires begins_line { BeginsLine text.bytes.now at }
    requires sign { slice_index text.bytes.now at ≡ number_sign }
    ensures { Finds (IsMarkerAt text.entry.bytes.now at) result }
{
    let number = gap_end(text.bytes, at + 1)?;
    let line = line_number(text.bytes, number)?;
    let file = file_part(text, line.end)?;
    let end = flags_end(text.bytes, file.end);
    if !ends_line(text.bytes, end) {
        return None;
    }
    let marker = Marker {
        line: line.line,
        file: file.name,
    };
    Some(FoundMarker { marker, end })
}

/// Where the gap from `from` on ends, if a blank stands there.
fn gap_end(bytes: &[u8], from: usize) -> Option<usize>
    requires { from ≤ length bytes.now }
    ensures { Finds (EndsGap bytes.now from) result }
{
    let end = blanks_end(bytes, from);
    if end == from { None } else { Some(end) }
}

/// The number that the digits from `from` on spell.
fn line_number(bytes: &[u8], from: usize) -> Option<FoundLine>
    requires inside { from ≤ length bytes.now }
    ensures { Finds (IsLineNumberAt bytes.now from) result }
{
    let mut line: u64 = 0;
    let mut past = from;
    while past < bytes.len() && is_digit(bytes[past]) {
        line = 10 * line + u64::from(bytes[past] - b'0');
        if line > MAX_LINE {
            return None;
        }
        past += 1;
    }
    if past == from {
        return None;
    }
    Some(FoundLine {
        line: line as u32,
        end: past,
    })
}

/// The file that is named from `from` on, if one is. None where its name does not end.
fn file_part<'b>(text: SourceText<'b>, from: usize) -> Option<FoundFile<'b>>
    requires inside { from ≤ length text.bytes.now }
    ensures { Finds (IsFileAt text.entry.bytes.now from) result }
{
    match gap_end(text.bytes, from) {
        Some(opening) if opening < text.bytes.len() && text.bytes[opening] == b'"' => {
            let closing = closing_quote(text, opening)?;
            Some(FoundFile {
                name: Some(&text.bytes[opening + 1..closing]),
                end: closing + 1,
            })
        }
        _ => Some(FoundFile {
            name: None,
            end: from,
        }),
    }
}

/// Where the flags from `from` on end.
fn flags_end(bytes: &[u8], from: usize) -> usize
    requires inside { from ≤ length bytes.now }
    ensures forward { from ≤ result }
    ensures within { result ≤ length bytes.now }
    ensures flags { AreFlags bytes.now from result }
    ensures ends { ¬ BeginsFlag bytes.now result }
{
    let mut end = from;
    while let Some(digit) = gap_end(bytes, end) {
        if digit == bytes.len() || !matches!(bytes[digit], b'1'..=b'4') {
            return end;
        }
        end = digit + 1;
    }
    end
}
