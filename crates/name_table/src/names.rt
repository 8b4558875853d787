//! Names that are numbered in the order in which they came.

ghost use Rattle.std.specs.Prelude.{◌≡◌, ◌<◌, ◌++◌, ℕ, Some, [], ◌∷◌, length, slice_get};
ghost use Rattle.std.specs.Prelude.{Contains, IfOk, IfSome, IfNone, OnErr};
ghost use Rattle.name_table.specs.Names.{IsNumberOf, AddsName};

use crate::table::Table;
use crate::texts::Texts;
use std::alloc::{AllocError, Global};
use std::marker::Model;

/// Fewer than 2^32 names, each kept once. Contracts see the list of them: a name's number is its
/// position.
///
/// A name is found by a hash, in at most sixteen comparisons, or else in an ordered map: so most
/// names are found at once, and no choice of names makes a look-up slower than logarithmic.
#[derive(Drop)]
pub struct Names {
    texts: Texts,
    table: Table,
}

impl Model for Names {
    ghost use Rattle.std.specs.Prelude.{List, ℕ, length};
    ghost use Rattle.name_table.specs.Names.{AreDistinct};
    ghost use Rattle.name_table.specs.Table.{IsTable};

    ghost Value = { List (List ℕ) };

    ghost view = { λ names. names.texts };

    ghost invariant = { λ names. AreDistinct names.texts
        × IsTable names.texts (length names.texts) names.table };
}

impl Names {
    /// No names.
    pub fn new(alloc: Global) -> Names
        ensures { result ≡ [] }
    {
        Names {
            texts: Texts::new(alloc),
            table: Table::new(alloc),
        }
    }

    /// How many names there are.
    pub fn len(&self) -> u32
        ensures { result ≡ length self.now }
    {
        self.texts.len()
    }

    /// The name that has the number.
    pub fn text(&self, number: u32) -> &[u8]
        requires { number < length self.now }
        ensures { slice_get self.now number ≡ Some result.now }
    {
        self.texts.text(number)
    }

    /// The number of a name, where it has one.
    pub fn number_of(&self, name: &[u8]) -> Option<u32>
        ensures number { IfSome result (IsNumberOf self.now name.now) }
        ensures none { IfNone result (¬ Contains self.now name.now) }
    {
        self.table.number_of(&self.texts, name)
    }

    /// Adds a name at the end, and gives its number. After want of memory the names are as before.
    pub fn add(&mut self, alloc: Global, name: &[u8]) -> Result<u32, AllocError>
        requires { ¬ Contains self.old name.now }
        ensures ok { IfOk result (λ number. AddsName self.old self.new name.now number) }
        ensures err { OnErr result (self.new ≡ self.old) }
    {
        self.table.make_room(alloc, &self.texts)?;
        let number = self.texts.len();
        self.texts.push(name)?;
        match self.table.place(alloc, &self.texts, number) {
            Ok(()) => Ok(number),
            Err(_) => {
                self.texts.pop();
                Err(AllocError)
            }
        }
    }
}
