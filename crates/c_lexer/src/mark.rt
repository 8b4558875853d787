//! Punctuators (C11 6.4.6).
//!
//! A mark's number is its position in the list of spellings (`laws::law_names`). A digraph has the
//! number of what it stands for.

ghost use Rattle.std.specs.Prelude.{ℕ, ◌<◌, ◌^◌, ◌↔◌, length, IsTrue};
ghost use Rattle.c_lexer.specs.Comments.{BeginsComment};
ghost use Rattle.c_lexer.specs.Finds.{Finds};
ghost use Rattle.c_lexer.specs.Marks.{BeginsHash, IsMark};
ghost use Rattle.c_lexer.specs.Scanning.{IsLongestMark, IsSecond};

use crate::comment::begins_comment;
use crate::pair::is_pair;
use crate::source_text::SourceText;
use crate::word_table::look_up;

pub const MARK_LEFT_BRACKET: u8 = 0;

pub const MARK_RIGHT_BRACKET: u8 = 1;

pub const MARK_LEFT_PAREN: u8 = 2;

pub const MARK_RIGHT_PAREN: u8 = 3;

pub const MARK_LEFT_BRACE: u8 = 4;

pub const MARK_RIGHT_BRACE: u8 = 5;

pub const MARK_DOT: u8 = 6;

pub const MARK_ARROW: u8 = 7;

pub const MARK_PLUS_PLUS: u8 = 8;

pub const MARK_MINUS_MINUS: u8 = 9;

pub const MARK_AMPERSAND: u8 = 10;

pub const MARK_STAR: u8 = 11;

pub const MARK_PLUS: u8 = 12;

pub const MARK_MINUS: u8 = 13;

pub const MARK_TILDE: u8 = 14;

pub const MARK_EXCLAMATION: u8 = 15;

pub const MARK_SLASH: u8 = 16;

pub const MARK_PERCENT: u8 = 17;

pub const MARK_LEFT_SHIFT: u8 = 18;

pub const MARK_RIGHT_SHIFT: u8 = 19;

pub const MARK_LESS: u8 = 20;

pub const MARK_GREATER: u8 = 21;

pub const MARK_LESS_EQUAL: u8 = 22;

pub const MARK_GREATER_EQUAL: u8 = 23;

pub const MARK_EQUAL_EQUAL: u8 = 24;

pub const MARK_NOT_EQUAL: u8 = 25;

pub const MARK_CARET: u8 = 26;

pub const MARK_BAR: u8 = 27;

pub const MARK_AND_AND: u8 = 28;

pub const MARK_OR_OR: u8 = 29;

pub const MARK_QUESTION: u8 = 30;

pub const MARK_COLON: u8 = 31;

pub const MARK_SEMICOLON: u8 = 32;

pub const MARK_ELLIPSIS: u8 = 33;

pub const MARK_EQUAL: u8 = 34;

pub const MARK_STAR_EQUAL: u8 = 35;

pub const MARK_SLASH_EQUAL: u8 = 36;

pub const MARK_PERCENT_EQUAL: u8 = 37;

pub const MARK_PLUS_EQUAL: u8 = 38;

pub const MARK_MINUS_EQUAL: u8 = 39;

pub const MARK_LEFT_SHIFT_EQUAL: u8 = 40;

pub const MARK_RIGHT_SHIFT_EQUAL: u8 = 41;

pub const MARK_AMPERSAND_EQUAL: u8 = 42;

pub const MARK_CARET_EQUAL: u8 = 43;

pub const MARK_BAR_EQUAL: u8 = 44;

pub const MARK_COMMA: u8 = 45;

/// The marks with their numbers, and then the digraphs.
static MARKS: [(&[u8], u8); 50] = [
    (b"[", MARK_LEFT_BRACKET),
    (b"]", MARK_RIGHT_BRACKET),
    (b"(", MARK_LEFT_PAREN),
    (b")", MARK_RIGHT_PAREN),
    (b"{", MARK_LEFT_BRACE),
    (b"}", MARK_RIGHT_BRACE),
    (b".", MARK_DOT),
    (b"->", MARK_ARROW),
    (b"++", MARK_PLUS_PLUS),
    (b"--", MARK_MINUS_MINUS),
    (b"&", MARK_AMPERSAND),
    (b"*", MARK_STAR),
    (b"+", MARK_PLUS),
    (b"-", MARK_MINUS),
    (b"~", MARK_TILDE),
    (b"!", MARK_EXCLAMATION),
    (b"/", MARK_SLASH),
    (b"%", MARK_PERCENT),
    (b"<<", MARK_LEFT_SHIFT),
    (b">>", MARK_RIGHT_SHIFT),
    (b"<", MARK_LESS),
    (b">", MARK_GREATER),
    (b"<=", MARK_LESS_EQUAL),
    (b">=", MARK_GREATER_EQUAL),
    (b"==", MARK_EQUAL_EQUAL),
    (b"!=", MARK_NOT_EQUAL),
    (b"^", MARK_CARET),
    (b"|", MARK_BAR),
    (b"&&", MARK_AND_AND),
    (b"||", MARK_OR_OR),
    (b"?", MARK_QUESTION),
    (b":", MARK_COLON),
    (b";", MARK_SEMICOLON),
    (b"...", MARK_ELLIPSIS),
    (b"=", MARK_EQUAL),
    (b"*=", MARK_STAR_EQUAL),
    (b"/=", MARK_SLASH_EQUAL),
    (b"%=", MARK_PERCENT_EQUAL),
    (b"+=", MARK_PLUS_EQUAL),
    (b"-=", MARK_MINUS_EQUAL),
    (b"<<=", MARK_LEFT_SHIFT_EQUAL),
    (b">>=", MARK_RIGHT_SHIFT_EQUAL),
    (b"&=", MARK_AMPERSAND_EQUAL),
    (b"^=", MARK_CARET_EQUAL),
    (b"|=", MARK_BAR_EQUAL),
    (b",", MARK_COMMA),
    (b"<:", MARK_LEFT_BRACKET),
    (b":>", MARK_RIGHT_BRACKET),
    (b"<%", MARK_LEFT_BRACE),
    (b"%>", MARK_RIGHT_BRACE),
];

/// The position of a mark in the table, by the slot of `look_up`. The other slots hold 0.
static POSITIONS: [u8; 256] = [
    0, 0, 0, 0, 0, 0, 42, 0, 0, 6, 0, 36, 0, 0, 0, 0, 19, 0, 0, 0, 0, 0, 0, 0, 0, 0, 0, 20, 0, 0,
    0, 0, 0, 0, 17, 7, 0, 0, 0, 0, 0, 0, 0, 45, 0, 0, 0, 0, 0, 0, 18, 0, 0, 0, 0, 33, 0, 0, 0, 49,
    0, 31, 0, 0, 0, 0, 0, 0, 0, 0, 0, 0, 0, 0, 5, 0, 0, 11, 0, 0, 0, 0, 0, 0, 0, 0, 0, 0, 0, 0, 0,
    0, 0, 0, 43, 0, 0, 0, 0, 0, 0, 0, 15, 0, 30, 0, 1, 0, 4, 0, 0, 2, 0, 0, 0, 0, 0, 25, 0, 0, 16,
    0, 35, 0, 0, 0, 0, 0, 0, 0, 0, 0, 22, 0, 0, 0, 0, 0, 34, 0, 0, 0, 46, 0, 0, 10, 0, 0, 0, 0, 0,
    38, 0, 0, 13, 40, 47, 0, 0, 0, 0, 24, 0, 0, 0, 0, 0, 0, 28, 0, 0, 0, 32, 0, 0, 0, 0, 9, 0, 0,
    0, 0, 0, 0, 0, 14, 0, 0, 12, 0, 23, 0, 0, 0, 0, 0, 44, 0, 0, 0, 0, 0, 0, 0, 0, 0, 0, 0, 0, 39,
    0, 8, 48, 41, 0, 0, 0, 26, 0, 27, 0, 0, 3, 0, 0, 0, 0, 0, 0, 0, 0, 0, 0, 37, 0, 0, 0, 0, 0, 0,
    0, 0, 29, 0, 0, 0, 0, 0, 0, 21, 0, 0, 0, 0, 0, 0,
];

/// The mark that stands at an offset: its number, and where it ends.
#[derive(Clone, Copy)]
pub(crate) struct FoundMark {
    pub(crate) number: u8,
    pub(crate) end: usize,
}

/// The number of a mark.
fn mark_of(spelled: &[u8]) -> Option<u8>
    requires some { 0 < length spelled.now }
    requires short { length spelled.now < 2 ^ 32 }
    ensures { Finds (IsMark spelled.now) result }
{
    look_up(&MARKS, &POSITIONS, spelled)
}

/// The longest mark of the table at `at`.
fn longest_mark(text: SourceText<'_>, at: usize) -> Option<FoundMark>
    requires inside { at < length text.bytes.now }
    requires no_comment { ¬ BeginsComment text.bytes.now at }
    requires no_hash { ¬ BeginsHash text.bytes.now at }
    ensures { Finds (IsLongestMark text.entry.bytes.now at) result }
{
    let left = text.bytes.len() - at;
    if left >= 2 && continues_mark(text.bytes[at + 1]) {
        if left >= 3
            && let Some(number) = mark_of(&text.bytes[at..at + 3])
        {
            return Some(FoundMark {
                number,
                end: at + 3,
            });
        }
        if let Some(number) = mark_of(&text.bytes[at..at + 2]) {
            return Some(FoundMark {
                number,
                end: at + 2,
            });
        }
    }
    match mark_of(&text.bytes[at..at + 1]) {
        Some(number) => Some(FoundMark {
            number,
            end: at + 1,
        }),
        None => None,
    }
}

/// Whether a mark of two bytes or more may have this second byte.
fn continues_mark(byte: u8) -> bool
    ensures { IsTrue result ↔ IsSecond byte }
{
    matches!(
        byte,
        b'%' | b'&' | b'+' | b'-' | b'.' | b':' | b'<' | b'=' | b'>' | b'|'
    )
}

/// The longest mark at `at`.
pub(crate) fn mark_at(text: SourceText<'_>, at: usize) -> Option<FoundMark>
    requires inside { at < length text.bytes.now }
    ensures { Finds (IsLongestMark text.entry.bytes.now at) result }
{
    if begins_comment(text, at) || begins_hash(text, at) {
        return None;
    }
    longest_mark(text, at)
}

/// Whether a `%:` stands at `at`.
fn begins_hash(text: SourceText<'_>, at: usize) -> bool
    requires inside { at < length text.bytes.now }
    ensures { IsTrue result ↔ BeginsHash text.entry.bytes.now at }
{
    is_pair(text, at, b'%', b':')
}
