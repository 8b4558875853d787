//! Files in memory.
ghost use Rattle.std.specs.Prelude.{◌≡◌, ◌≢◌, ◌≤◌, ◌⊎◌, ◌↔◌, [], Some, None, true, min, take};
ghost use Rattle.std.specs.Prelude.{is_some, Contains, IsTrue, IsSome, IsErr, IfOk, IfSome, IfNone};
ghost use Rattle.std.specs.Prelude.{length, OnOk, OnErr};
ghost use Rattle.joern_io.specs.Faults.{next_count};
ghost use Rattle.joern_io.specs.Held.{file_of};
ghost use Rattle.joern_io.specs.Files.{ReadsLeft};
ghost use Rattle.joern_io.specs.Shelf.{NamesDiffer, KeepsShelf, read_length};
ghost use Rattle.joern_io.specs.Shelf.{held_of, bytes_at, left_at, IsWithin};

use crate::files::{Failed, Files};
use crate::numbers::is_listed;
use std::marker::Model;

/// The file that is open, by its position, and how many of its bytes were read.
#[derive(Clone, Copy, Debug)]
struct OpenFile {
    position: usize,
    offset: usize,
}

/// Files in memory. A read gives at most one piece, and the calls that are listed by their number
/// fail.
///
/// A contract sees its files, what it was made with, how many calls there were, what is left of the
/// open file and how many faults there were.
#[derive(Debug, Drop)]
pub struct Shelf {
    files: Vec<(String, Vec<u8>)>,
    piece: usize,
    fails: Vec<u32>,
    calls: u64,
    open_file: Option<OpenFile>,
    faults: u64,
}

impl Model for Shelf {
    ghost use Rattle.std.specs.Prelude.{◌≤◌};
    ghost use Rattle.joern_io.specs.Shelf.{ShelfState, held_of, left_at, IsWithin};

    ghost Value = { ShelfState };

    ghost view = { λ it. record {
      files = held_of it.files.items;
      piece = it.piece;
      fails = it.fails.items;
      calls = it.calls;
      left = left_at it.files.items it.open_file;
      faults = it.faults;
    } };

    ghost invariant = { λ it. (1 ≤ it.piece) × IsWithin it.files.items it.open_file };
}

impl Shelf {
    /// A shelf of these files by name, of which none is open. `names_differ` tests what it asks of
    /// the names.
    ///
    /// A read gives at most `piece` bytes. `fails` lists the numbers of the calls that fail: the
    /// calls of `open` and of `read` are numbered together, from 1. A call of a name that is not
    /// held has a number too.
    pub fn new(files: Vec<(String, Vec<u8>)>, piece: usize, fails: Vec<u32>) -> Shelf
        requires names_differ { NamesDiffer (held_of files.items) }
        requires some { 1 ≤ piece }
        ensures { result ≡ record {
          files = held_of files.items;
          piece = piece;
          fails = fails.items;
          calls = 0;
          left = None;
          faults = 0;
        } }
    {
        Shelf {
            files,
            piece,
            fails,
            calls: 0,
            open_file: None,
            faults: 0,
        }
    }

    /// Whether each name stands once, as `new` asks.
    pub fn names_differ(files: &[(String, Vec<u8>)]) -> bool
        ensures { IsTrue result ↔ NamesDiffer (held_of files.now) }
    {
        for (position, file) in files.iter().enumerate() {
            if position_of(&files[position + 1..], file.0.as_str()).is_some() {
                return false;
            }
        }
        true
    }

    /// How many calls of `open` and `read` there were.
    pub fn calls(&self) -> u64
        ensures { result ≡ self.now.calls }
    {
        self.calls
    }

    /// How many of the calls were faults.
    pub fn faults(&self) -> u64
        ensures { result ≡ self.now.faults }
    {
        self.faults
    }

    /// Counts a fault.
    fn fault(&mut self) -> Failed
        ensures { self.new ≡ record self.old { faults = next_count self.old.faults } }
    {
        self.faults = self.faults.saturating_add(1);
        Failed
    }
}

impl Files for Shelf {
    ghost state = { λ shelf. record {
      held = Some shelf.files;
      left = shelf.left;
      is_open = is_some shelf.left;
      faults = shelf.faults;
    } };

    /// Opens the file of this name. It fails exactly where the name is not held or the number of
    /// this call is listed, and only the latter, of a name that is held, is a fault.
    fn open(&mut self, name: &str) -> Result<(), Failed>
        ensures keeps { KeepsShelf self.old self.new }

        // The number of this call is the count of calls with it.
        ensures calls { self.new.calls ≡ next_count self.old.calls }
        ensures fails { IsErr result
            ↔ ((file_of self.old.files name.now ≡ None) ⊎ Contains self.old.fails self.new.calls) }

        // What is left to be read.
        ensures open { OnOk result (IsSome self.new.left) }
        ensures ok { OnOk result (self.new.left ≡ file_of self.old.files name.now) }
        ensures err { OnErr result (self.new.left ≡ None) }

        // The count of faults.
        ensures never_falls { self.old.faults ≤ self.new.faults }
        ensures ok_faults { OnOk result (self.new.faults ≡ self.old.faults) }
        ensures refuses { file_of self.old.files name.now ≡ None →
            self.new.faults ≡ self.old.faults }
        ensures failed_faults { IsSome (file_of self.old.files name.now) →
            OnErr result (self.new.faults ≡ next_count self.old.faults) }
    {
        self.calls = self.calls.saturating_add(1);
        self.open_file = None;
        let Some(position) = position_of(&self.files, name) else {
            return Err(Failed);
        };
        if is_listed(&self.fails, self.calls) {
            return Err(self.fault());
        }
        self.open_file = Some(OpenFile {
            position,
            offset: 0,
        });
        Ok(())
    }

    /// Reads the next piece of the open file. It fails exactly where the number of this call is
    /// listed.
    fn read(&mut self, into: &mut [u8]) -> Result<usize, Failed>
        requires open { IsSome self.old.left }
        ensures keeps { KeepsShelf self.old self.new }

        // The number of this call is the count of calls with it.
        ensures calls { self.new.calls ≡ next_count self.old.calls }
        ensures fails { IsErr result ↔ Contains self.old.fails self.new.calls }

        // What is read, and what is left.
        ensures count { IfOk result (λ count. count ≡ read_length self.old into.new) }
        ensures ok { IfOk result (λ count. ReadsLeft self.old.left self.new.left count into.new) }
        ensures open { IsSome self.new.left }
        ensures err { OnErr result (self.new.left ≡ self.old.left) }

        // The count of faults.
        ensures never_falls { self.old.faults ≤ self.new.faults }
        ensures ok_faults { OnOk result (self.new.faults ≡ self.old.faults) }
        ensures failed_faults { OnErr result (self.new.faults ≡ next_count self.old.faults) }
    {
        self.calls = self.calls.saturating_add(1);
        if is_listed(&self.fails, self.calls) {
            return Err(self.fault());
        }
        let Some(open_file) = self.open_file else {
            unreachable!()
        };
        let count = copy_piece(left_from(&self.files, open_file), into, self.piece);
        self.open_file = Some(OpenFile {
            position: open_file.position,
            offset: open_file.offset + count,
        });
        Ok(count)
    }
}

/// The position of the first file of this name.
fn position_of(files: &[(String, Vec<u8>)], name: &str) -> Option<usize>
    ensures found { IfSome result (λ position.
        (file_of (held_of files.now) name.now ≡ bytes_at files.now position)
        × IsSome (bytes_at files.now position)) }
    ensures none { IfNone result (file_of (held_of files.now) name.now ≡ None) }
{
    for (position, file) in files.iter().enumerate() {
        if file.0.as_str() == name {
            return Some(position);
        }
    }
    None
}

/// The bytes that are left of the open file.
fn left_from(files: &[(String, Vec<u8>)], open_file: OpenFile) -> &[u8]
    requires within { IsWithin files.now (Some open_file) }
    ensures { left_at files.now (Some open_file) ≡ Some result.now }
{
    &files[open_file.position].1[open_file.offset..]
}

/// Copies the front of `left` to the front of `into`, of at most `piece` bytes, and returns how
/// many.
fn copy_piece(left: &[u8], into: &mut [u8], piece: usize) -> usize
    requires some { 1 ≤ piece }
    ensures count { result ≡ min piece (min (length into.new) (length left.now)) }
    ensures front { take result into.new ≡ take result left.now }
    ensures end { into.new ≢ [] → result ≡ 0 → left.now ≡ [] }
{
    let count = piece.min(into.len()).min(left.len());
    into[..count].copy_from_slice(&left[..count]);
    count
}
