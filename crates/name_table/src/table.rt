//! A table in which the number of a text is found by its hash.

ghost use Rattle.std.specs.Prelude.{◌≡◌, ◌+◌, ◌<◌, ◌^◌, ℕ, Some, List, length, slice_get};
ghost use Rattle.std.specs.Prelude.{Contains, IfOk, OnOk, OnErr, IfSome, IfNone};
ghost use Rattle.name_table.specs.Names.{AreDistinct};
ghost use Rattle.name_table.specs.Table.{hash_of, home_of, IsFirstFree, IsCrowded, IsTable};

use crate::texts::Texts;
use std::alloc::{AllocError, Global};
use std::collections::BTreeMap;

/// So many slots from its home on may hold a text's number.
const WINDOW: usize = 16;

/// One less than the least number of homes.
const FEWEST: u32 = 63;

/// The numbers of texts. A text's number stands in the first slot from the text's home on that was
/// free when it came; where none of its window was, it stands in a map, so that no choice of texts
/// makes a look-up slow.
#[derive(Drop)]
pub(crate) struct Table {
    /// A number plus one, or 0 where the slot is free.
    slots: Vec<u32>,
    /// The homes are from 0 to this, one below a power of two.
    mask: u32,
    others: BTreeMap<Vec<u8>, u32>,
}

impl Table {
    /// No numbers, and no room for any but in the map.
    pub(crate) fn new(alloc: Global) -> Table
        ensures { (names : List (List ℕ)) → IsTable names 0 result }
    {
        Table {
            slots: Vec::new(alloc),
            mask: 0,
            others: BTreeMap::new(alloc),
        }
    }

    /// The numbers of the texts, with as many homes as told.
    fn of(alloc: Global, texts: &Texts, mask: u32) -> Result<Table, AllocError>
        requires { AreDistinct texts.now }
        ensures { IfOk result (λ table. IsTable texts.now (length texts.now) table) }
    {
        let mut table = Table {
            slots: vec![in alloc; 0; mask as usize + WINDOW]?,
            mask,
            others: BTreeMap::new(alloc),
        };
        for number in 0..texts.len() {
            table.place(alloc, texts, number)?;
        }
        Ok(table)
    }

    /// The same numbers, in a table of twice the homes where they take half of these.
    pub(crate) fn make_room(&mut self, alloc: Global, texts: &Texts) -> Result<(), AllocError>
        requires distinct { AreDistinct texts.now }
        requires table { IsTable texts.now (length texts.now) self.old }
        ensures { IsTable texts.now (length texts.now) self.new }
    {
        if texts.len() >= self.mask / 2 {
            *self = Table::of(alloc, texts, self.mask.saturating_mul(2) | FEWEST)?;
        }
        Ok(())
    }

    /// Places the number of a text, behind those below it.
    pub(crate) fn place(
        &mut self,
        alloc: Global,
        texts: &Texts,
        number: u32,
    ) -> Result<(), AllocError>
        requires distinct { AreDistinct texts.now }
        requires inside { number < length texts.now }
        requires table { IsTable texts.now number self.old }
        ensures ok { OnOk result (IsTable texts.now (number + 1) self.new) }
        ensures err { OnErr result (IsTable texts.now number self.new) }
    {
        let name = texts.text(number);
        match self.free_slot(name) {
            Some(slot) => self.slots[slot] = number + 1,
            None => {
                self.others.insert(name.to_vec(alloc)?, number)?;
            }
        }
        Ok(())
    }

    /// The first slot of the name's window that is free.
    fn free_slot(&self, name: &[u8]) -> Option<usize>
        ensures some { IfSome result (IsFirstFree self.now name.now) }
        ensures none { IfNone result (IsCrowded self.now name.now) }
    {
        let home = self.home(name);
        for slot in home..self.slots.len().min(home + WINDOW) {
            if self.slots[slot] == 0 {
                return Some(slot);
            }
        }
        None
    }

    /// The number of the text that is the name.
    pub(crate) fn number_of(&self, texts: &Texts, name: &[u8]) -> Option<u32>
        requires { IsTable texts.now (length texts.now) self.now }
        ensures number { IfSome result (λ number. slice_get texts.now number ≡ Some name.now) }
        ensures none { IfNone result (¬ Contains texts.now name.now) }
    {
        let home = self.home(name);
        for slot in home..self.slots.len().min(home + WINDOW) {
            let number = self.slots[slot].checked_sub(1)?;
            if texts.text(number) == name {
                return Some(number);
            }
        }
        self.others.get(name).copied()
    }

    /// The first slot of the name's window.
    fn home(&self, name: &[u8]) -> usize
        ensures is { result ≡ home_of self.now.mask name.now }
        ensures small { result < 2 ^ 32 }
    {
        (hash(name) & self.mask) as usize
    }
}

/// The hash of a name.
fn hash(name: &[u8]) -> u32
    ensures { result ≡ hash_of name.now }
{
    let mut hash: u32 = 0;
    for byte in name {
        hash = hash.wrapping_mul(31).wrapping_add(u32::from(*byte));
    }
    hash
}
