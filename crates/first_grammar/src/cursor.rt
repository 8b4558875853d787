//! The tokens that are left.

ghost use Rattle.std.specs.Prelude.{◌≡◌, ◌∷◌, [], ◌<◌, ◌≤◌, ◌^◌, ◌↔◌, IsTrue, MatchOption, length};
ghost use Rattle.c_tree.specs.Fits.{kinds_of};
ghost use Rattle.line_marks.specs.Kept.{ArePositionsIn, items_at};
ghost use Rattle.first_grammar.specs.Rest.{IsAt, TokenAt, numbered};
ghost use Rattle.first_grammar.specs.Reads.{Reads};

use crate::stop::GrammarStop;
use c_lexer::{Kind, Token};
use line_marks::item_at;
use std::alloc::Global;
use std::marker::Model;

/// The kept tokens of a file from a number on. Contracts see the number and the kind of each.
#[derive(Drop)]
pub(crate) struct Cursor<'t> {
    alloc: Global,
    /// All tokens of the file.
    tokens: &'t [Token],
    /// The positions of the kept ones.
    kept: &'t [u32],
    /// The number of the next one.
    at: usize,
}

impl<'t> Model for Cursor<'t> {
    ghost use Rattle.std.specs.Prelude.{ℕ, ◌≤◌, ◌<◌, ◌^◌, length, drop};
    ghost use Rattle.c_tree.specs.Fits.{kinds_of};
    ghost use Rattle.line_marks.specs.Kept.{ArePositionsIn, items_at};
    ghost use Rattle.first_grammar.specs.Rest.{Rest, numbered};

    ghost Value = { Rest };

    ghost view = { λ c. drop c.at (numbered 0 (kinds_of (items_at c.tokens.now c.kept.now))) };

    ghost invariant = { λ c. (c.at ≤ length c.kept.now) × (length c.kept.now < 2 ^ 32)
        × ArePositionsIn c.tokens.now c.kept.now };
}

impl<'t> Cursor<'t> {
    /// All kept tokens of a file.
    pub(crate) fn new(alloc: Global, tokens: &'t [Token], kept: &'t [u32]) -> Cursor<'t>
        requires inside { ArePositionsIn tokens.now kept.now }
        requires few { length kept.now < 2 ^ 32 }
        ensures { result ≡ numbered 0 (kinds_of (items_at tokens.entry.now kept.entry.now)) }
    {
        Cursor {
            alloc,
            tokens,
            kept,
            at: 0,
        }
    }

    /// The allocator of the tree.
    pub(crate) fn alloc(&self) -> Global {
        self.alloc
    }

    /// Whether no token is left.
    pub(crate) fn is_done(&self) -> bool
        ensures { IsTrue result ↔ (self.now ≡ []) }
    {
        self.at == self.kept.len()
    }

    /// Whether the next token is of this kind.
    pub(crate) fn is_at(&self, kind: Kind) -> bool
        ensures { IsTrue result ↔ IsAt kind self.now }
    {
        match item_at(self.tokens, self.kept, self.at) {
            Some(token) => token.kind == kind,
            None => false,
        }
    }

    /// Takes the next token, if it is of this kind, and gives its number.
    pub(crate) fn take_if(&mut self, kind: Kind) -> Option<u32>
        ensures { MatchOption result
            ((self.new ≡ self.old) × (¬ IsAt kind self.old))
            (λ number. self.old ≡ (number, kind) ∷ self.new) }
    {
        if self.is_at(kind) {
            let number = self.at as u32;
            self.at += 1;
            Some(number)
        } else {
            None
        }
    }

    /// Takes the next token, which must be of this kind, and gives its number.
    pub(crate) fn expect(&mut self, kind: Kind) -> Result<u32, GrammarStop>
        ensures { Reads (TokenAt kind) self.old result self.new }
    {
        match self.take_if(kind) {
            Some(number) => Ok(number),
            None => Err(GrammarStop::Unbuilt),
        }
    }
}
