//! The stack of the parts of a tree that are still to be spelled.

ghost use Rattle.std.specs.Prelude.{◌≡◌, ℕ, ◌+◌, ◌-◌, ◌≤◌, [], ◌∷◌, ◌++◌, OnOk, MatchOption};
ghost use Rattle.std.specs.Prelude.{drop, length, map};
ghost use Rattle.c_tree.specs.Spell.{all_wanted, brace_end, braced, joined, key, mark};
ghost use Rattle.c_tree.specs.Spell.{wanted, wanted_if};
ghost use Rattle.c_tree.specs.Walk.{after_commas, with_commas};
ghost use Rattle.c_tree.specs.Walk.{part_spelling, part_weight};
ghost use Rattle.c_tree.specs.Weights.{listed};

use crate::part::{Listed, Part};
use crate::symbol::{Symbol, Want};
use c_lexer::mark::{MARK_COMMA, MARK_LEFT_BRACE, MARK_RIGHT_BRACE};
use std::alloc::{AllocError, Global};
use std::marker::Model;

/// The parts that are left. The last one comes first in the source.
///
/// Contracts see what they spell, and their weight.
#[derive(Drop)]
pub(crate) struct Pending<'t> {
    parts: Vec<Part<'t>>,
}

impl<'t> Model for Pending<'t> {
    ghost use Rattle.std.specs.Prelude.{ℕ};
    ghost use Rattle.c_tree.specs.Spell.{Symbols};
    ghost use Rattle.c_tree.specs.Walk.{pending_spelling, pending_weight};

    ghost Value = { Symbols × ℕ };

    ghost view = { λ p. (pending_spelling p.parts.items, pending_weight p.parts.items) };
}

impl<'t> Pending<'t> {
    /// No parts.
    #[tactic(auto, using(crate::proofs::Stack::stack_laws))]
    pub(crate) fn new(alloc: Global) -> Pending<'t>
        ensures { result.0 ≡ [] }
    {
        Pending {
            parts: Vec::new(alloc),
        }
    }

    /// Takes the first of the parts that are left.
    #[tactic(auto, using(crate::proofs::Stack::stack_laws))]
    pub(crate) fn pop(&mut self) -> Option<Part<'t>>
        ensures spells { MatchOption result (self.old.0 ≡ [])
            (λ part. self.old.0 ≡ part_spelling part ++ self.new.0) }
        ensures weighs { MatchOption result (self.new.1 ≡ self.old.1)
            (λ part. self.old.1 ≡ part_weight part + self.new.1) }
    {
        self.parts.pop()
    }

    /// Puts a part before those that are left.
    #[tactic(auto, using(crate::proofs::Stack::stack_laws))]
    pub(crate) fn push(&mut self, part: Part<'t>) -> Result<(), AllocError>
        ensures spells { OnOk result (self.new.0 ≡ part_spelling part.entry ++ self.old.0) }
        ensures weighs { OnOk result (self.new.1 ≡ part_weight part.entry + self.old.1) }
    {
        self.parts.push(part)?;
        Ok(())
    }

    /// Puts a token before the parts that are left.
    pub(crate) fn push_token(&mut self, token: u32, want: Want) -> Result<(), AllocError>
        ensures spells { OnOk result (self.new.0 ≡ wanted token want ++ self.old.0) }
        ensures weighs { OnOk result (self.new.1 ≡ 1 + self.old.1) }
    {
        self.push(Part::Symbol(Symbol { token, want }))
    }

    /// Puts a token, where it is there, before the parts that are left.
    pub(crate) fn push_if(&mut self, token: Option<u32>, want: Want) -> Result<(), AllocError>
        ensures spells { OnOk result (self.new.0 ≡ wanted_if token want ++ self.old.0) }
        ensures weighs { OnOk result (self.new.1 ≤ 1 + self.old.1) }
    {
        match token {
            Some(token) => self.push_token(token, want),
            None => Ok(()),
        }
    }

    /// Puts the mark at the position, where it is there, before the parts that are left.
    pub(crate) fn push_mark(
        &mut self,
        marks: &[u32],
        position: usize,
        number: u8,
    ) -> Result<(), AllocError>
        ensures spells { OnOk result (self.new.0 ≡ mark marks.now position number ++ self.old.0) }
        ensures weighs { OnOk result (self.new.1 ≤ 1 + self.old.1) }
    {
        self.push_if(marks.get(position).copied(), Want::Mark(number))
    }

    /// Puts the keyword at the position, where it is there, before the parts that are left.
    pub(crate) fn push_key(
        &mut self,
        marks: &[u32],
        position: usize,
        number: u8,
    ) -> Result<(), AllocError>
        ensures spells { OnOk result (self.new.0 ≡ key marks.now position number ++ self.old.0) }
        ensures weighs { OnOk result (self.new.1 ≤ 1 + self.old.1) }
    {
        self.push_if(marks.get(position).copied(), Want::Key(number))
    }

    /// Puts tokens before the parts that are left.
    pub(crate) fn push_tokens(&mut self, tokens: &[u32], want: Want) -> Result<(), AllocError>
        ensures spells { OnOk result (self.new.0 ≡ all_wanted want tokens.now ++ self.old.0) }
        ensures weighs { OnOk result (self.new.1 ≡ length tokens.now + self.old.1) }
    {
        let mut left = tokens.len();
        while left > 0 {
            left -= 1;
            self.push_token(tokens[left], want)?;
        }
        Ok(())
    }

    /// Puts the items of a list before the parts that are left.
    pub(crate) fn push_each<T: Listed>(&mut self, items: &'t [T]) -> Result<(), AllocError>
        ensures spells { OnOk result
            (self.new.0 ≡ joined (map T.spelling items.now) ++ self.old.0) }
        ensures weighs { OnOk result (self.new.1 ≤ listed (map T.weight items.now) + self.old.1) }
    {
        let mut left = items.len();
        while left > 0 {
            left -= 1;
            self.push(items[left].part())?;
        }
        Ok(())
    }

    /// Puts the items of a list, with a comma between two of them, before the parts that are left.
    pub(crate) fn push_list<T: Listed>(
        &mut self,
        items: &'t [T],
        marks: &[u32],
    ) -> Result<(), AllocError>
        ensures spells { OnOk result
            (self.new.0 ≡ with_commas (map T.spelling items.now) marks.now ++ self.old.0) }
        ensures weighs { OnOk result (self.new.1 ≤ listed (map T.weight items.now) + self.old.1) }
    {
        match items.split_first() {
            Some((first, others)) => {
                self.push_others(others, marks)?;
                self.push(first.part())
            }
            None => Ok(()),
        }
    }

    /// Puts the items of a list in braces before the parts that are left.
    #[tactic(auto, using(crate::proofs::Opening::opens_list))]
    pub(crate) fn push_braced<T: Listed>(
        &mut self,
        items: &'t [T],
        marks: &[u32],
    ) -> Result<(), AllocError>
        ensures spells { OnOk result
            (self.new.0 ≡ braced (map T.spelling items.now) marks.now ++ self.old.0) }
        ensures weighs { OnOk result
            (self.new.1 ≤ 3 + (listed (map T.weight items.now) + self.old.1)) }
    {
        let inside = past(marks, 1);
        self.push_brace_end(past_commas(inside, items.len()))?;
        self.push_list(items, inside)?;
        self.push_mark(marks, 0, MARK_LEFT_BRACE)
    }

    /// Puts the `}` that ends a list, after a comma or none, before the parts that are left.
    fn push_brace_end(&mut self, marks: &[u32]) -> Result<(), AllocError>
        ensures spells { OnOk result (self.new.0 ≡ brace_end marks.now ++ self.old.0) }
        ensures weighs { OnOk result (self.new.1 ≤ 2 + self.old.1) }
    {
        match marks {
            [] => Ok(()),
            [right] => self.push_token(*right, Want::Mark(MARK_RIGHT_BRACE)),
            [comma, right, ..] => {
                self.push_token(*right, Want::Mark(MARK_RIGHT_BRACE))?;
                self.push_token(*comma, Want::Mark(MARK_COMMA))
            }
        }
    }

    /// Puts items, each after a comma, before the parts that are left.
    fn push_others<T: Listed>(&mut self, items: &'t [T], marks: &[u32]) -> Result<(), AllocError>
        ensures spells { OnOk result
            (self.new.0 ≡ after_commas (map T.spelling items.now) marks.now ++ self.old.0) }
        ensures weighs { OnOk result (self.new.1 ≤ listed (map T.weight items.now) + self.old.1) }
    {
        let mut left = items.len();
        while left > 0 {
            left -= 1;
            self.push(items[left].part())?;
            self.push_mark(marks, left, MARK_COMMA)?;
        }
        Ok(())
    }
}

/// The marks after the commas between so many items.
pub(crate) fn past_commas(marks: &[u32], items: usize) -> &[u32]
    ensures { result.now ≡ drop (items - 1) marks.now }
{
    past(marks, items.saturating_sub(1))
}

/// The marks after the first ones.
pub(crate) fn past(marks: &[u32], count: usize) -> &[u32]
    ensures { result.now ≡ drop count marks.now }
{
    &marks[count.min(marks.len())..]
}
