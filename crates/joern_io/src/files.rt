//! What is read: the trait `Files`.
ghost use Rattle.std.specs.Prelude.{◌≡◌, ◌≤◌, true, false, length, IfOk, OnOk, OnErr, IsErr};
ghost use Rattle.joern_io.specs.Faults.{Rose};
ghost use Rattle.joern_io.specs.Held.{Lacks};
ghost use Rattle.joern_io.specs.Files.{FilesState, KeepsFiles, RoseOrLacks, Opens, Reads};

/// A device answered with a fault, or a file is not held.
#[derive(Clone, Copy, Debug, PartialEq, Eq)]
pub struct Failed;

/// Named files that are read one at a time, from front to back.
///
/// A contract sees them as a `FilesState`: what is held and what is left of the open file, which
/// may be untold, whether a file is open, and the count of faults.
pub trait Files {
    ghost state: { Self → FilesState };

    /// Opens the file of this name at its front, in place of the one that was open.
    ///
    /// `Failed` comes for a name that is known not to be held, which is no fault, or with a fault.
    /// Then no file is open.
    fn open(&mut self, name: &str) -> Result<(), Failed>
        ensures keeps { KeepsFiles (state self.old) (state self.new) }
        ensures ok { OnOk result (Opens (state self.old) (state self.new) name.now) }
        ensures failed { OnErr result (RoseOrLacks (state self.old) (state self.new) name.now) }
        ensures err { OnErr result ((state self.new).is_open ≡ false) }
        ensures refuses { Lacks (state self.old).held name.now →
            IsErr result × ((state self.new).faults ≡ (state self.old).faults) };

    /// Reads the next bytes of the open file to the front of `into`, and returns how many.
    ///
    /// 0 for an `into` that is not empty is the end of the file. `Failed` comes with a fault alone,
    /// and leaves the file open where it stood. What `into` holds after a failure, or past the
    /// count, is not said.
    fn read(&mut self, into: &mut [u8]) -> Result<usize, Failed>
        requires open { (state self.old).is_open ≡ true }
        ensures keeps { KeepsFiles (state self.old) (state self.new) }
        ensures open { (state self.new).is_open ≡ true }
        ensures count { IfOk result (λ count. count ≤ length into.new) }
        ensures ok { IfOk result (λ count. Reads (state self.old) (state self.new) count into.new) }
        ensures failed { OnErr result (Rose (state self.old).faults (state self.new).faults) }
        ensures err { OnErr result ((state self.new).left ≡ (state self.old).left) };
}
