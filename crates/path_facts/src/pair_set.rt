//! Pairs of numbers in the order in which they were met.

ghost use Rattle.std.specs.Prelude.{◌≡◌, ◌<◌, ◌↔◌, [], IfOk, IsTrue, OnOk};
ghost use Rattle.std.specs.List.{Contains};
ghost use Rattle.path_facts.specs.PairSets.{IsKept, Meets};

use flow_index::Chains;
use std::alloc::{AllocError, Global};
use std::collections::HashSet;

/// Pairs of numbers in the order in which they were met, each once, and the positions of those that
/// begin with a number. After want of memory it is not to be used.
///
/// Most first numbers have one pair, which is found at its position. Where a first number has more
/// of them, those before the last are found by their hash.
#[derive(Drop)]
pub(crate) struct PairSet {
    pub(crate) pairs: Vec<(u32, u32)>,
    pub(crate) by_first: Chains,
    passed: HashSet<(u32, u32)>,
}

impl PairSet {
    /// No pairs yet, and room for so many. Their first numbers are to be below `count`.
    pub(crate) fn new(alloc: Global, count: usize, room: usize) -> Result<PairSet, AllocError>
        ensures kept { IfOk result IsKept }
        ensures count { IfOk result (λ set. set.by_first.count ≡ count) }
        ensures empty { IfOk result (λ set. set.pairs.items ≡ []) }
    {
        Ok(PairSet {
            pairs: Vec::with_capacity(alloc, room)?,
            by_first: Chains::new(alloc, count)?,
            passed: HashSet::new(alloc),
        })
    }

    /// Whether the pair was met.
    fn has(&self, first: u32, second: u32) -> bool
        requires kept { IsKept self.now }
        requires below { first < self.now.by_first.count }
        ensures { IsTrue result ↔ Contains self.now.pairs.items (first, second) }
    {
        match self.by_first.last(first) {
            Some(position) => {
                self.pairs[position as usize].1 == second || self.passed.contains(&(first, second))
            }
            None => false,
        }
    }

    /// Meets a pair, which may have been met before.
    pub(crate) fn meet(&mut self, first: u32, second: u32) -> Result<(), AllocError>
        requires kept { IsKept self.old }
        requires below { first < self.old.by_first.count }
        ensures { OnOk result (Meets self.old self.new (first, second)) }
    {
        if self.has(first, second) {
            return Ok(());
        }
        if let Some(position) = self.by_first.last(first) {
            self.passed.insert(self.pairs[position as usize])?;
        }
        self.pairs.push((first, second))?;
        self.by_first.push(first)?;
        Ok(())
    }
}
