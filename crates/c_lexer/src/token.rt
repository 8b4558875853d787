//! What a token is: its kind, its bytes, its line and its column.

/// The kind of a token.
#[derive(Clone, Copy, Debug, PartialEq, Eq)]
pub enum Kind {
    /// An identifier that is no keyword (6.4.2.1).
    Word,
    /// A keyword with its number, as `keyword::KEY_INT` (6.4.1).
    Key(u8),
    /// A preprocessing number (6.4.8).
    Number,
    /// A character constant (6.4.4.4).
    Char,
    /// A string literal (6.4.5).
    Text,
    /// A punctuator with its number, as `mark::MARK_PLUS` (6.4.6).
    Mark(u8),
    /// A line marker, which the preprocessor wrote, from its `#` to the end of its line.
    Line,
    /// A pragma, from its `#` to the end of its line (6.10.6).
    Pragma,
}

/// A token: its bytes are those from `start` to before `end`.
///
/// Lines and columns are those of its first byte in the file as it stands. They count from 1, and
/// columns count bytes.
#[derive(Clone, Copy, Debug, PartialEq, Eq)]
pub struct Token {
    pub kind: Kind,
    pub start: u32,
    pub end: u32,
    pub line: u32,
    pub column: u32,
}

// A file has a token in each few bytes.
const _: () = prove!(size_of::<Token>() <= 24);

/// The token that stands at an offset: its kind, and where it ends.
#[derive(Clone, Copy)]
pub(crate) struct FoundToken {
    pub(crate) kind: Kind,
    pub(crate) end: usize,
}
