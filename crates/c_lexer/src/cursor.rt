//! An offset in a text, with its line and its column.

ghost use Rattle.std.specs.Prelude.{◌≡◌, ◌+◌, ◌<◌, ◌≤◌, length, slice_get};
ghost use Rattle.c_lexer.specs.Reading.{IsLongest, IsTokenOf};
ghost use Rattle.c_lexer.specs.Scanning.{point};

use crate::source_text::SourceText;
use crate::token::{Kind, Token};
use std::marker::Model;

/// An offset in a text.
///
/// Contracts see the text and the offset. The line is always that of the offset, and begins at
/// `line_start`.
#[derive(Drop)]
pub(crate) struct Cursor<'b> {
    text: SourceText<'b>,
    at: usize,
    line: u32,
    line_start: usize,
}

impl<'b> Model for Cursor<'b> {
    ghost use Rattle.std.specs.Prelude.{◌≡◌, ◌+◌, ◌-◌, ◌<◌, ◌≤◌, length, slice_index};
    ghost use Rattle.c_lexer.specs.Bytes.{line_feed};
    ghost use Rattle.c_lexer.specs.Lines.{OnOneLine, line_at};
    ghost use Rattle.c_lexer.specs.Scanning.{Point, point};

    ghost Value = { Point };

    ghost view = { λ c. point c.text.bytes.now c.at };

    ghost invariant = { λ c. (c.at ≤ length c.text.bytes.now)
        × (c.line ≡ line_at c.text.bytes.now c.at)
        × (c.line ≤ c.at + 1)
        × (c.line_start ≤ c.at)
        × OnOneLine c.text.bytes.now c.line_start c.at
        × (0 < c.line_start → slice_index c.text.bytes.now (c.line_start - 1) ≡ line_feed) };
}

impl<'b> Cursor<'b> {
    /// The beginning of a text.
    pub(crate) fn new(text: SourceText<'b>) -> Cursor<'b>
        ensures { result ≡ point text.entry.bytes.now 0 }
    {
        Cursor {
            text,
            at: 0,
            line: 1,
            line_start: 0,
        }
    }

    /// The offset.
    pub(crate) fn at(&self) -> usize
        ensures { result ≡ self.now.at }
    {
        self.at
    }

    /// The byte at the offset, if it is not the end.
    pub(crate) fn byte(&self) -> Option<u8>
        ensures { result ≡ slice_get self.now.bytes self.now.at }
    {
        self.text.bytes.get(self.at).copied()
    }

    /// Goes past one byte.
    pub(crate) fn step(&mut self)
        requires { self.old.at < length self.old.bytes }
        ensures { self.new ≡ point self.old.bytes (self.old.at + 1) }
    {
        let byte = self.text.bytes[self.at];
        self.at += 1;
        if byte == b'\n' {
            self.line += 1;
            self.line_start = self.at;
        }
    }

    /// Goes on to `end`.
    pub(crate) fn pass_to(&mut self, end: usize)
        requires forward { self.old.at ≤ end }
        requires within { end ≤ length self.old.bytes }
        ensures { self.new ≡ point self.old.bytes end }
    {
        while self.at < end {
            self.step();
        }
    }

    /// Takes the token that begins at the offset.
    pub(crate) fn take(&mut self, kind: Kind, end: usize) -> Token
        requires { IsLongest self.old.bytes self.old.at end kind }
        ensures token { IsTokenOf self.old.bytes result }
        ensures start { result.start ≡ self.old.at }
        ensures end { result.end ≡ end }
        ensures moved { self.new ≡ point self.old.bytes end }
    {
        let token = Token {
            kind,
            start: self.at as u32,
            end: end as u32,
            line: self.line,
            column: (self.at - self.line_start) as u32 + 1,
        };
        self.at = end;
        token
    }
}
