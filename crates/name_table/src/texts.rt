//! Texts that are numbered in the order in which they came.

ghost use Rattle.std.specs.Prelude.{◌≡◌, ◌≢◌, ◌<◌, ◌≤◌, ◌^◌, ◌++◌, ℕ, Some, [], ◌∷◌, List};
ghost use Rattle.std.specs.Prelude.{length, slice_get, OnOk, OnErr};
ghost use Rattle.name_table.specs.Texts.{begin_of};

use std::alloc::{AllocError, Global};
use std::marker::Model;

/// Fewer than 2^32 texts, of fewer than 2^32 bytes together. Contracts see the list of them: a
/// text's number is its position.
#[derive(Drop)]
pub(crate) struct Texts {
    /// One text after another.
    bytes: Vec<u8>,
    /// Where each text ends.
    ends: Vec<u32>,
}

impl Model for Texts {
    ghost use Rattle.std.specs.Prelude.{List, ℕ};
    ghost use Rattle.name_table.specs.Texts.{texts_of, AreEnds};

    ghost Value = { List (List ℕ) };

    ghost view = { λ texts. texts_of texts.bytes.items texts.ends.items };

    ghost invariant = { λ texts. AreEnds texts.bytes.items texts.ends.items };
}

impl Texts {
    /// No texts.
    pub(crate) fn new(alloc: Global) -> Texts
        ensures { result ≡ [] }
    {
        Texts {
            bytes: Vec::new(alloc),
            ends: Vec::new(alloc),
        }
    }

    /// How many texts there are.
    pub(crate) fn len(&self) -> u32
        ensures { result ≡ length self.now }
    {
        self.ends.len() as u32
    }

    /// The text that has the number.
    pub(crate) fn text(&self, number: u32) -> &[u8]
        requires { number < length self.now }
        ensures text { slice_get self.now number ≡ Some result.now }
        ensures few { length self.now < 2 ^ 32 }
    {
        let begin = begin_in(&self.ends, number as usize);
        let end = begin_in(&self.ends, number as usize + 1);
        &self.bytes[begin..end]
    }

    /// Adds a text at the end.
    pub(crate) fn push(&mut self, text: &[u8]) -> Result<(), AllocError>
        ensures ok { OnOk result (self.new ≡ self.old ++ text.now ∷ []) }
        ensures err { OnErr result (self.new ≡ self.old) }
    {
        let (Ok(end), Ok(_)) = (
            u32::try_from(self.bytes.len() + text.len()),
            u32::try_from(self.ends.len() + 1),
        ) else {
            return Err(AllocError);
        };
        self.ends.push(end)?;
        match self.bytes.extend_from_slice(text) {
            Ok(()) => Ok(()),
            Err(_) => {
                self.ends.pop();
                Err(AllocError)
            }
        }
    }

    /// Takes the last text away.
    pub(crate) fn pop(&mut self)
        requires { self.old ≢ [] }
        ensures { (text : List ℕ) × (self.old ≡ self.new ++ text ∷ []) }
    {
        self.ends.pop();
        let begin = begin_in(&self.ends, self.ends.len());
        self.bytes.truncate(begin);
    }
}

/// Where the text of the number begins.
fn begin_in(ends: &[u32], number: usize) -> usize
    requires { number ≤ length ends.now }
    ensures { result ≡ begin_of ends.now number }
{
    match number.checked_sub(1) {
        Some(before) => ends[before] as usize,
        None => 0,
    }
}
