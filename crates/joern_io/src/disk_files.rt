//! The files of a file system.
ghost use Rattle.std.specs.Prelude.{◌≡◌, ◌≤◌, None, true, false, length, IfOk, OnErr};
ghost use Rattle.std.specs.Io.KnownBytes.{ReadConsumes};
ghost use Rattle.joern_io.specs.Faults.{Rose};

use crate::files::{Failed, Files};
use std::io::{ErrorKind, Read};
use std::marker::Model;
use std::{fs, rt};

/// The files of the file system that the runtime stands for, by their paths.
///
/// A contract sees whether one is open, what its reader tells of the bytes left, and how many calls
/// failed, and nothing of what the files hold. A path that is not there, a folder that is read and
/// whatever else the system refuses are faults alike.
#[derive(Drop)]
pub struct DiskFiles<R: rt::Files> {
    rt: R,
    file: Option<R::File>,
    faults: u64,
}

impl<R: rt::Files> Model for DiskFiles<R> {
    ghost use Rattle.std.specs.Prelude.{is_some, option_and_then};
    ghost use Rattle.joern_io.specs.Disk.{DiskState};

    ghost Value = { DiskState };

    ghost view = { λ it. record {
      left = option_and_then R.File.remaining it.file;
      is_open = is_some it.file;
      faults = it.faults;
    } };
}

impl<R: rt::Files> DiskFiles<R> {
    /// The files of this runtime, of which none is open.
    pub fn new(rt: R) -> DiskFiles<R>
        ensures { result ≡ record { left = None; is_open = false; faults = 0 } }
    {
        DiskFiles {
            rt,
            file: None,
            faults: 0,
        }
    }
}

impl<R: rt::Files> Files for DiskFiles<R> {
    ghost state = { λ disk. record {
      held = None;
      left = None;
      is_open = disk.is_open;
      faults = disk.faults;
    } };

    fn open(&mut self, name: &str) -> Result<(), Failed> {
        match fs::open(&self.rt, name) {
            Ok(file) => {
                self.file = Some(file);
                Ok(())
            }
            Err(_) => {
                self.file = None;
                self.faults = self.faults.saturating_add(1);
                Err(Failed)
            }
        }
    }

    /// Reads the next bytes of the open file. The bytes given are those that its reader loses, and
    /// with `Failed` it loses none.
    fn read(&mut self, into: &mut [u8]) -> Result<usize, Failed>
        requires open { self.old.is_open ≡ true }
        ensures open { self.new.is_open ≡ true }
        ensures count { IfOk result (λ count. count ≤ length into.new) }
        ensures bytes { ReadConsumes self.old.left self.new.left result into.new }
        ensures never_falls { self.old.faults ≤ self.new.faults }
        ensures failed { OnErr result (Rose self.old.faults self.new.faults) }
    {
        let Some(file) = &mut self.file else {
            unreachable!()
        };
        let count = read_uninterrupted(file, into);
        if count.is_err() {
            self.faults = self.faults.saturating_add(1);
        }
        count
    }
}

/// One read, tried again where a signal interrupts it.
///
/// The bytes given are those that the reader loses, and 0 for an `into` that is not empty comes
/// only at its end. With `Failed` it loses none.
#[tactic(auto, using(crate::proofs::Known::known))]
fn read_uninterrupted<F: Read>(file: &mut F, into: &mut [u8]) -> Result<usize, Failed>
    ensures length { length into.new ≡ length into.old }
    ensures count { IfOk result (λ count. count ≤ length into.new) }
    ensures bytes { ReadConsumes (F.remaining file.old) (F.remaining file.new) result into.new }
{
    for _ in 0..u64::MAX {
        match file.read(into) {
            Ok(count) => return Ok(count),
            Err(error) if error.kind() == ErrorKind::Interrupted => {}
            Err(_) => return Err(Failed),
        }
    }
    Err(Failed)
}
