//! Reading a whole file, within a limit.
ghost use Rattle.std.specs.Prelude.{◌≡◌, ◌<◌, ◌≤◌, true, length, IfOk, IfSome, IsErrOf, vec_len};
ghost use Rattle.joern_io.specs.Faults.{Rose};
ghost use Rattle.joern_io.specs.Held.{Lacks};
ghost use Rattle.joern_io.specs.Files.{KeepsFiles, RoseOrLacks, HoldsFile, HoldsLargerFile};
ghost use Rattle.joern_io.specs.declared.reading.ReadStop.TheVariants.{Memory};

use crate::files::{Failed, Files};
use std::alloc::{AllocError, Global};

/// Why a file was not read whole.
#[derive(Clone, Copy, Debug, PartialEq, Eq)]
pub enum ReadStop {
    /// The device answered with a fault, or the file is not held.
    Failed,
    /// The file has more bytes than the limit.
    TooLarge,
    /// Memory is wanting.
    Memory,
}

impl From<AllocError> for ReadStop {
    ghost from_gives = { λ _ stop. stop ≡ Memory };

    fn from(_: AllocError) -> ReadStop {
        ReadStop::Memory
    }
}

/// How many bytes are asked for in one read.
const PIECE: usize = 16384;

/// The bytes of the whole file of this name, if they are at most `limit`.
///
/// `Failed` comes only where the name is known not to be held, which is no fault, or where the
/// files counted a fault in this call. `TooLarge` comes only where the file has more bytes than the
/// limit. What the files hold stays, and which of them is open afterwards is not said.
pub fn read_all<F: Files>(
    alloc: Global,
    files: &mut F,
    name: &str,
    limit: u32,
) -> Result<Vec<u8>, ReadStop>
    ensures keeps { KeepsFiles (F.state files.old) (F.state files.new) }
    ensures ok { IfOk result (λ bytes. HoldsFile (F.state files.old) name.now bytes.items) }
    ensures within { IfOk result (λ bytes. vec_len bytes ≤ limit) }
    ensures failed { IsErrOf result ReadStop.Failed →
        RoseOrLacks (F.state files.old) (F.state files.new) name.now }
    ensures too_large { IsErrOf result ReadStop.TooLarge →
        HoldsLargerFile (F.state files.old) name.now limit }
    ensures refuses { Lacks (F.state files.old).held name.now →
        IsErrOf result ReadStop.Failed
        × ((F.state files.new).faults ≡ (F.state files.old).faults) }
{
    if files.open(name).is_err() {
        return Err(ReadStop::Failed);
    }
    read_rest(alloc, files, limit)
}

/// The bytes that are left of the open file, if they are at most `limit`.
fn read_rest<F: Files>(alloc: Global, files: &mut F, limit: u32) -> Result<Vec<u8>, ReadStop>
    requires open { (F.state files.old).is_open ≡ true }
    ensures keeps { KeepsFiles (F.state files.old) (F.state files.new) }
    ensures ok { IfOk result (λ bytes.
        IfSome (F.state files.old).left (λ left. left ≡ bytes.items)) }
    ensures within { IfOk result (λ bytes. vec_len bytes ≤ limit) }
    ensures failed { IsErrOf result ReadStop.Failed →
        Rose (F.state files.old).faults (F.state files.new).faults }
    ensures too_large { IsErrOf result ReadStop.TooLarge →
        IfSome (F.state files.old).left (λ left. limit < length left) }
{
    let mut bytes = Vec::new(alloc);
    let mut piece = [0u8; PIECE];
    while bytes.len() <= limit as usize {
        match files.read(&mut piece) {
            Err(Failed) => return Err(ReadStop::Failed),
            Ok(0) => return Ok(bytes),
            Ok(count) => bytes.extend_from_slice(&piece[..count])?,
        }
    }
    Err(ReadStop::TooLarge)
}
