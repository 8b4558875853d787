//! The presumed place of each token (C11 6.10.4).
//!
//! A line marker says of the line after it which line of which file it is. So a node has the line
//! that the programmer wrote, and not the one where the preprocessor put it.

ghost use Rattle.std.specs.Prelude.{◌≡◌, ◌+◌, ◌-◌, ◌<◌, ◌≤◌, ◌^◌, length, IfOk};
ghost use Rattle.c_lexer.specs.Directives.{IsLineMarker};
ghost use Rattle.c_lexer.specs.Reading.{AreTokensOf};
ghost use Rattle.line_marks.specs.Naming.{IsBehind, names_of};
ghost use Rattle.line_marks.specs.Presumed.{ArePlacesOf};

use crate::file_names::FileNames;
use c_lexer::{Kind, SourceText, Token, marker_of};
use joern_io::{Bytes, List};
use std::alloc::{AllocError, Global};

/// A line of a file.
#[derive(Clone, Copy, Debug, PartialEq, Eq)]
pub struct Place {
    /// The position of the file in the list of files.
    pub file: u32,
    /// The line in that file.
    pub line: u32,
}

/// The presumed places of a file's tokens.
#[derive(Debug, Drop)]
pub struct Places {
    /// The place of each token.
    pub places: List<Place>,
    /// The names of the files, in the order of their first mention.
    pub files: List<Bytes>,
}

/// From the physical line `from` on the lines are those of this file, and that line is its `line`.
#[derive(Clone, Copy, Debug, PartialEq, Eq)]
struct Presumption {
    file: u32,
    from: u32,
    line: u32,
}

impl Presumption {
    /// The presumed place of a token.
    fn place_of(self, token: &Token) -> Place
        requires { self.line + token.now.line < 2 ^ 32 }
        ensures file { result.file ≡ self.file }
        ensures line { result.line ≡ self.line + (token.now.line - self.from) }
    {
        Place {
            file: self.file,
            line: self.line + token.line.saturating_sub(self.from),
        }
    }
}

/// What is presumed behind a line marker.
fn behind(
    files: &mut FileNames,
    before: Presumption,
    text: SourceText<'_>,
    token: &Token,
) -> Result<Presumption, AllocError>
    requires line { token.now.line ≤ length text.bytes.now + 1 }
    requires marker { IsLineMarker text.bytes.now token.now.start token.now.end }
    ensures { IfOk result (λ after.
        IsBehind text.entry.bytes.now token.now (names_of files.old) (names_of files.new)
        before after) }
{
    let marker = marker_of(text, token);
    let file = match marker.file {
        Some(name) => files.mention(name)?,
        None => before.file,
    };
    Ok(Presumption {
        file,
        from: token.line + 1,
        line: marker.line,
    })
}

/// The presumed place of each token, and the names of the files, that with `name` first.
///
/// Before the first line marker the lines are those of the file itself. A marker speaks of the line
/// after it; one without a file's name keeps the file. A name that is mentioned again is not added
/// again.
pub fn places_of(
    alloc: Global,
    text: SourceText<'_>,
    tokens: &[Token],
    name: &str,
) -> Result<Places, AllocError>
    requires tokens { AreTokensOf text.bytes.now tokens.now }
    ensures ok { IfOk result (λ places.
        ArePlacesOf text.entry.bytes.now tokens.now name.now places.places places.files) }
    ensures one_each { IfOk result (λ places. length places.places ≡ length tokens.now) }
{
    let mut files = FileNames::new(alloc);
    let file = files.mention(name.as_bytes())?;
    let mut presumption = Presumption {
        file,
        from: 1,
        line: 1,
    };
    let mut places = Vec::new(alloc);
    for token in tokens {
        places.push(presumption.place_of(token))?;
        if token.kind == Kind::Line {
            presumption = behind(&mut files, presumption, text, token)?;
        }
    }
    Ok(Places {
        places: List::of(places),
        files: files.to_files()?,
    })
}
