//! Pooled names.

ghost use Rattle.std.specs.Prelude.{◌≡◌, ◌+◌, ◌<◌, ◌≤◌, ◌++◌, [], length, take, map, slice_get};
ghost use Rattle.std.specs.Prelude.{slice_index_or, option_copied, IfOk, IfSome, OnOk, OnErr, Some};
ghost use Rattle.graph_store.specs.Pool.{Adds, AreDistinct, BeginsEmpty, Numbers};
ghost use Rattle.graph_store.specs.Rows.{IsNameOrNone};

use indexmap::IndexSet;
use std::alloc::{AllocError, Global};
use std::hash::{FoldHasher, Hasher, RandomState};
use std::marker::Model;

/// The number of no name.
pub(crate) const NO_NAME: u32 = u32::MAX;

/// How many places there are for names that were asked for lately.
const PLACES: usize = 32768;

/// A pool of fewer names has no such places.
const FEW: usize = 64;

/// Names, each kept once. Contracts see the list of them: a name's number is its position.
///
/// They are hashed by SipHash with a key, so that who chooses the names can't have them collide.
/// Before that a name is looked for at one place that a cheaper hash gives, where the number of one
/// such name is remembered: it is compared, and who makes up names that share a place gains nothing
/// but the keyed hash.
#[derive(Drop)]
pub(crate) struct Names {
    set: IndexSet<Vec<u8>, RandomState>,
    recent: Vec<u32>,
}

impl Model for Names {
    ghost use Rattle.std.specs.Prelude.{List, ℕ, ◌≤◌, length, map};
    ghost use Rattle.std.specs.Coded.{coded_list, coded_ℕ};
    ghost use Rattle.graph_store.specs.declared.names.TheConstants.{NO_NAME};
    ghost use Rattle.graph_store.specs.Pool.{names_of};

    ghost Value = { List (List ℕ) };

    ghost coded = { coded_list (coded_list coded_ℕ) };

    ghost view = { λ names. names_of names.set };

    ghost invariant = { λ names. length names.set.keys ≤ NO_NAME };
}

impl Names {
    /// No names, which are to be hashed with this key.
    pub(crate) fn new(alloc: Global, hashes: RandomState) -> Names
        ensures { result ≡ [] }
    {
        Names {
            set: IndexSet::with_hasher(alloc, hashes),
            recent: Vec::new(alloc),
        }
    }

    pub(crate) fn hashes(&self) -> RandomState {
        *self.set.hasher()
    }

    /// How many names there are.
    pub(crate) fn len(&self) -> u32
        ensures len { result ≡ length self.now }
        ensures few { length self.now ≤ NO_NAME }
    {
        self.set.len() as u32
    }

    /// No name stands twice.
    pub(crate) fn law_distinct(&self)
        ensures { AreDistinct self.now }
    {
        let _ = self.set.as_slice();
    }

    /// The name of this number, where there is one.
    #[inline(always)]
    pub(crate) fn text(&self, number: u32) -> Option<&[u8]>
        ensures { option_copied result ≡ slice_get self.now number }
    {
        match self.set.get_index(number as usize) {
            Some(name) => Some(name.as_slice()),
            None => None,
        }
    }

    /// The number of a name, which is added at the end if it is new.
    #[inline(never)]
    pub(crate) fn number_of(&mut self, name: &[u8]) -> Result<u32, AllocError>
        ensures stored { IfOk result (λ number. slice_get self.new number ≡ Some name.now) }
        ensures adds { Adds self.old self.new }
        ensures one { length self.new ≤ length self.old + 1 }
        ensures few { length self.new ≤ NO_NAME }
        ensures err { OnErr result (self.new ≡ self.old) }
    {
        let _ = &self.set;
        let place = place_of(name);
        if let Some(number) = self.remembered(place, name) {
            return Ok(number);
        }
        let number = self.pooled(name)?;
        self.remember(place, number);
        Ok(number)
    }

    /// The number of a name likewise, where the empty name is added before any other.
    #[inline(always)]
    pub(crate) fn number_behind_empty(&mut self, name: &[u8]) -> Result<u32, AllocError>
        requires { BeginsEmpty self.old }
        ensures stored { IfOk result (λ number. slice_get self.new number ≡ Some name.now) }
        ensures adds { Adds self.old self.new }
        ensures few { length self.new ≤ NO_NAME }
        ensures begins { BeginsEmpty self.new }
    {
        if self.set.is_empty() {
            self.pooled(b"")?;
        }
        self.number_of(name)
    }

    /// The number that is remembered at a place, if it is that of the name.
    fn remembered(&self, place: usize, name: &[u8]) -> Option<u32>
        ensures { IfSome result (λ number. slice_get self.now number ≡ Some name.now) }
    {
        let number = *self.recent.get(place)?;
        if self.text(number)? == name {
            Some(number)
        } else {
            None
        }
    }

    /// Remembers a number at a place. Where memory is wanting, nothing is remembered.
    fn remember(&mut self, place: usize, number: u32)
        ensures { self.new ≡ self.old }
    {
        if place < self.recent.len() {
            self.recent[place] = number;
        } else if self.set.len() >= FEW {
            let alloc = *self.set.allocator();
            if let Ok(recent) = Vec::from_elem(alloc, number, PLACES) {
                self.recent = recent;
            }
        }
    }

    /// The number of a name by the keyed hash, where the name is added at the end if it is new.
    #[inline(never)]
    fn pooled(&mut self, name: &[u8]) -> Result<u32, AllocError>
        ensures stored { IfOk result (λ number. slice_get self.new number ≡ Some name.now) }
        ensures adds { Adds self.old self.new }
        ensures one { length self.new ≤ length self.old + 1 }
        ensures few { length self.new ≤ NO_NAME }
        ensures err { OnErr result (self.new ≡ self.old) }
    {
        if let Some(number) = self.set.get_index_of(name) {
            return Ok(number as u32);
        }
        if self.set.len() >= NO_NAME as usize {
            return Err(AllocError);
        }
        let alloc = *self.set.allocator();
        let (number, _) = self.set.insert_full(name.to_vec(alloc)?)?;
        Ok(number as u32)
    }

    /// The number of a variable's name, which is `NO_NAME` for the empty one.
    pub(crate) fn variable_of(&mut self, name: &[u8]) -> Result<u32, AllocError>
        requires { BeginsEmpty self.old }
        ensures stored { IfOk result (λ number. slice_index_or self.new number [] ≡ name.now) }
        ensures number { IfOk result (IsNameOrNone (length self.new)) }
        ensures unnamed { IfOk result (λ number. name.now ≡ [] → number ≡ NO_NAME) }
        ensures adds { Adds self.old self.new }
        ensures few { length self.new ≤ NO_NAME }
        ensures begins { BeginsEmpty self.new }
    {
        if name.is_empty() {
            let _ = &self.set;
            return Ok(NO_NAME);
        }
        self.number_behind_empty(name)
    }

    /// Keeps the first `count` names.
    pub(crate) fn truncate(&mut self, count: u32)
        ensures { self.new ≡ take count self.old }
    {
        self.set.truncate(count as usize);
    }

    /// The numbers that all the names of another pool have in this one, to which they are added.
    pub(crate) fn add_all(&mut self, alloc: Global, more: &Names) -> Result<Vec<u32>, AllocError>
        ensures numbers { IfOk result (λ numbers. Numbers more.now self.new numbers.items) }
        ensures adds { Adds self.old self.new }
        ensures few { length self.new ≤ NO_NAME }
        ensures err { OnErr result (self.new ≡ self.old) }
    {
        let before = self.len();
        let result = self.numbers_of(alloc, more);
        if result.is_err() {
            self.truncate(before);
        }
        result
    }

    fn numbers_of(&mut self, alloc: Global, more: &Names) -> Result<Vec<u32>, AllocError>
        ensures numbers { IfOk result (λ numbers. Numbers more.now self.new numbers.items) }
        ensures adds { Adds self.old self.new }
        ensures few { length self.new ≤ NO_NAME }
    {
        let _ = &self.set;
        let mut numbers = Vec::with_capacity(alloc, more.set.len())?;
        for name in more.set.as_slice() {
            numbers.push(self.number_of(name)?)?;
        }
        Ok(numbers)
    }

    /// The same names, in memory of their own.
    pub(crate) fn copy(&self, alloc: Global) -> Result<Names, AllocError>
        ensures { IfOk result (λ copy. copy ≡ self.now) }
    {
        let mut set = IndexSet::with_capacity_and_hasher(alloc, self.set.len(), self.hashes())?;
        for name in self.set.as_slice() {
            set.insert_full(name.as_slice().to_vec(alloc)?)?;
        }
        Ok(Names {
            set,
            recent: Vec::new(alloc),
        })
    }
}

/// The place at which a name is remembered.
fn place_of(name: &[u8]) -> usize {
    let mut hasher = FoldHasher::default();
    hasher.write(name);
    hasher.finish() as usize % PLACES
}
