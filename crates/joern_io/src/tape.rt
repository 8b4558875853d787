//! A sink in memory.
ghost use Rattle.std.specs.Prelude.{◌≡◌, ◌<◌, ◌≤◌, ◌⊎◌, ◌↔◌, ◌++◌, Some, Ok, [], min, take, length};
ghost use Rattle.std.specs.Prelude.{Contains, IsErr, IfOk, OnOk, OnErr};
ghost use Rattle.joern_io.specs.Faults.{next_count};
ghost use Rattle.joern_io.specs.Tape.{room_left, KeepsTape};

use crate::files::Failed;
use crate::numbers::is_listed;
use crate::sink::Sink;
use std::alloc::{AllocError, Global};
use std::marker::Model;

/// A sink in memory, of a fixed room. A write takes at most one piece, and the writes that are
/// listed by their number fail.
///
/// A contract sees what it took, what it was made with, how many writes there were and how many
/// faults.
#[derive(Debug, Drop)]
pub struct Tape {
    bytes: Vec<u8>,
    room: usize,
    piece: usize,
    fails: Vec<u32>,
    writes: u64,
    faults: u64,
}

impl Model for Tape {
    ghost use Rattle.std.specs.Prelude.{◌≤◌, vec_len, vec_capacity};
    ghost use Rattle.joern_io.specs.Tape.{TapeState};

    ghost Value = { TapeState };

    ghost view = { λ it. record {
      took = it.bytes.items;
      room = it.room;
      piece = it.piece;
      fails = it.fails.items;
      writes = it.writes;
      faults = it.faults;
    } };

    ghost invariant = { λ it. (1 ≤ it.piece)
        × (vec_len it.bytes ≤ it.room)
        × (it.room ≤ vec_capacity it.bytes) };
}

impl Tape {
    /// An empty tape, with memory for `room` bytes.
    ///
    /// A write takes at most `piece` bytes. `fails` lists the numbers of the writes that fail:
    /// those of pieces that are not empty are numbered from 1.
    pub fn new(
        alloc: Global,
        room: usize,
        piece: usize,
        fails: Vec<u32>,
    ) -> Result<Tape, AllocError>
        requires some { 1 ≤ piece }
        ensures { IfOk result (λ tape. tape ≡ record {
          took = [];
          room = room;
          piece = piece;
          fails = fails.items;
          writes = 0;
          faults = 0;
        }) }
    {
        Ok(Tape {
            bytes: Vec::with_capacity(alloc, room)?,
            room,
            piece,
            fails,
            writes: 0,
            faults: 0,
        })
    }

    /// All bytes that were taken, in their order.
    pub fn took(&self) -> &[u8]
        ensures { result.now ≡ self.now.took }
    {
        self.bytes.as_slice()
    }

    /// How many writes of pieces that are not empty there were.
    pub fn writes(&self) -> u64
        ensures { result ≡ self.now.writes }
    {
        self.writes
    }

    /// How many of the writes were faults.
    pub fn faults(&self) -> u64
        ensures { result ≡ self.now.faults }
    {
        self.faults
    }
}

impl Sink for Tape {
    ghost state = { λ tape. record { took = Some tape.took; faults = tape.faults } };

    /// Takes the front of the piece, without memory. It fails exactly where the piece is not empty,
    /// and the number of this write is listed or no room is left; that is a fault.
    fn write(&mut self, piece: &[u8]) -> Result<usize, Failed>
        ensures keeps { KeepsTape self.old self.new }
        ensures empty { length piece.now ≡ 0 → (result ≡ Ok 0) × (self.new ≡ self.old) }

        // The number of a write of a piece that is not empty is the count of such writes with it.
        ensures writes { 0 < length piece.now → self.new.writes ≡ next_count self.old.writes }
        ensures fails { IsErr result ↔ ((0 < length piece.now)
            × (Contains self.old.fails self.new.writes ⊎ (room_left self.old ≡ 0))) }

        // What is taken.
        ensures count { IfOk result (λ count.
            count ≡ min self.old.piece (min (length piece.now) (room_left self.old))) }
        ensures progress { IfOk result (λ count. 0 < length piece.now → 0 < count) }
        ensures ok { IfOk result (λ count.
            self.new.took ≡ self.old.took ++ take count piece.now) }
        ensures err { OnErr result (self.new.took ≡ self.old.took) }

        // The count of faults.
        ensures never_falls { self.old.faults ≤ self.new.faults }
        ensures ok_faults { OnOk result (self.new.faults ≡ self.old.faults) }
        ensures failed_faults { OnErr result (self.new.faults ≡ next_count self.old.faults) }
    {
        if piece.is_empty() {
            return Ok(0);
        }
        self.writes = self.writes.saturating_add(1);
        let room = self.room - self.bytes.len();
        if room == 0 || is_listed(&self.fails, self.writes) {
            self.faults = self.faults.saturating_add(1);
            return Err(Failed);
        }
        let count = self.piece.min(piece.len()).min(room);
        self.bytes.extend_from_slice(&piece[..count]).unwrap();
        Ok(count)
    }
}
