//! The place of a parser among the kept tokens of a file.

ghost use Rattle.std.specs.Prelude.{◌≡◌, ◌∷◌, [], ◌<◌, ◌^◌, length, drop};
ghost use Rattle.std.specs.List.{All};
ghost use Rattle.c_lexer.specs.Reading.{IsWithin};
ghost use Rattle.reading.specs.Exact.{room_on};
ghost use Rattle.reading.specs.Readers.{expect, is_ahead, take};
ghost use Rattle.c_reading.specs.Cursors.{beginning, by_kind, first_kind, first_spelling};
ghost use Rattle.c_reading.specs.Cursors.{input_of, number_of};
ghost use Rattle.c_reading.specs.Kept.{kept_lexemes};
ghost use Rattle.c_reading.specs.Reads.{Reads};
ghost use Rattle.c_reading.specs.Terminals.{terminal};
ghost use Rattle.line_marks.specs.Kept.{ArePositionsIn};

use crate::spelled::spelled;
use crate::stop::Stop;
use c_lexer::{Kind, Token};
use line_marks::item_at;
use std::marker::Model;

/// A place among the kept tokens of a file. Contracts see the tokens that are left, with the number
/// of the first of them, and the nesting level around them.
#[derive(Drop)]
pub struct Cursor<'t> {
    bytes: &'t [u8],
    /// All tokens of the file.
    tokens: &'t [Token],
    /// The positions of the kept ones.
    kept: &'t [u32],
    /// The number of the next one.
    at: usize,
    level: u32,
}

impl<'t> Model for Cursor<'t> {
    ghost use Rattle.std.specs.Prelude.{ℕ, ◌≤◌, ◌<◌, ◌^◌, length, drop};
    ghost use Rattle.std.specs.List.{All};
    ghost use Rattle.c_lexer.specs.Reading.{IsWithin};
    ghost use Rattle.c_reading.specs.Cursors.{Place, place_of};
    ghost use Rattle.c_reading.specs.Kept.{kept_lexemes};
    ghost use Rattle.line_marks.specs.Kept.{ArePositionsIn};

    ghost Value = { Place };

    ghost view = { λ c. place_of (kept_lexemes c.bytes.now c.tokens.now c.kept.now) c.at c.level };

    ghost invariant = { λ c. (c.at ≤ length c.kept.now) × (length c.kept.now < 2 ^ 32)
        × ArePositionsIn c.tokens.now c.kept.now × All (IsWithin c.bytes.now) c.tokens.now };
}

impl<'t> Cursor<'t> {
    /// The place before the first kept token.
    pub fn new(bytes: &'t [u8], tokens: &'t [Token], kept: &'t [u32]) -> Cursor<'t>
        requires within { All (IsWithin bytes.now) tokens.now }
        requires inside { ArePositionsIn tokens.now kept.now }
        requires few { length kept.now < 2 ^ 32 }
        ensures { result ≡ beginning
            (kept_lexemes bytes.entry.now tokens.entry.now kept.entry.now) }
    {
        Cursor {
            bytes,
            tokens,
            kept,
            at: 0,
            level: 0,
        }
    }

    /// The number of the next kept token, or of the end mark.
    pub fn at(&self) -> u32
        ensures { result ≡ self.now.at }
    {
        self.at as u32
    }

    /// How many kept tokens are left.
    pub fn left(&self) -> usize
        ensures { result ≡ length self.now.left }
    {
        self.kept.len() - self.at
    }

    /// The nesting level around the place.
    pub fn level(&self) -> u32
        ensures { result ≡ self.now.level }
    {
        self.level
    }

    /// Sets the nesting level around the place.
    pub fn set_level(&mut self, level: u32)
        ensures { self.new ≡ record self.old { level = level } }
    {
        self.level = level;
    }

    /// How many levels are left from the one around on.
    pub fn room(&self) -> usize
        ensures { result ≡ room_on self.now.level }
    {
        257usize.saturating_sub(self.level as usize)
    }

    /// The kind of the next token, if there is one.
    pub fn ahead(&self) -> Option<Kind>
        ensures { result ≡ first_kind self.now.left }
    {
        match item_at(self.tokens, self.kept, self.at) {
            Some(token) => Some(token.kind),
            None => None,
        }
    }

    /// The kind of the token behind the next one, if there is one.
    pub fn second(&self) -> Option<Kind>
        ensures { result ≡ first_kind (drop 1 self.now.left) }
    {
        match item_at(self.tokens, self.kept, self.at + 1) {
            Some(token) => Some(token.kind),
            None => None,
        }
    }

    /// The bytes of the next token, or none at the end.
    pub fn spelling(&self) -> &'t [u8]
        ensures { result.now ≡ first_spelling self.now.left }
    {
        match item_at(self.tokens, self.kept, self.at) {
            Some(token) => spelled(self.bytes, token),
            None => &[],
        }
    }

    /// Whether the next token is of the kind.
    pub fn is_at(&self, kind: Kind) -> bool
        ensures { result ≡ is_ahead by_kind (terminal kind ∷ []) (input_of self.now) }
    {
        match self.ahead() {
            Some(next) => next == kind,
            None => false,
        }
    }

    /// The stop that blames the next token, for it continues nothing.
    pub fn refusal(&self) -> Stop
        ensures { result ≡ Stop.Offends self.now.at }
    {
        Stop::Offends { token: self.at() }
    }

    /// Takes the next token, which may stand there, if there is room on its level.
    pub fn take(&mut self, room: usize) -> Result<u32, Stop>
        ensures { Reads (take number_of room (input_of self.old)) result (input_of self.new) }
    {
        let number = self.at();
        if self.at == self.kept.len() {
            return Err(Stop::Offends { token: number });
        }
        if room == 0 {
            return Err(Stop::TooDeep { token: number });
        }
        self.at += 1;
        Ok(number)
    }

    /// Takes the next token, which is to be of the kind.
    #[tactic(auto, unfolding(reading::specs::Readers::expect))]
    pub fn expect(&mut self, kind: Kind, room: usize) -> Result<u32, Stop>
        ensures { Reads (expect by_kind (terminal kind ∷ []) number_of room
            (input_of self.old)) result (input_of self.new) }
    {
        if self.is_at(kind) {
            self.take(room)
        } else {
            Err(self.refusal())
        }
    }
}
