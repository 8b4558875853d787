//! Standard output.
ghost use Rattle.std.specs.Prelude.{◌≡◌, ◌≤◌, ◌<◌, None, length, IfOk};
ghost use Rattle.std.specs.Io.KnownBytes.{WriteAppends};

use crate::files::Failed;
use crate::sink::Sink;
use std::io::{self, ErrorKind, Write};
use std::marker::Model;

/// The standard output of the runtime, without a buffer: an error of the device is answered by the
/// write that met it.
///
/// A contract sees how many writes failed, and nothing of what the device took.
#[derive(Drop)]
pub struct StdSink<R: Print> {
    rt: R,
    faults: u64,
}

impl<R: Print> Model for StdSink<R> {
    ghost use Rattle.std.specs.Prelude.{ℕ};

    ghost Value = { ℕ };

    ghost view = { λ it. it.faults };
}

impl<R: Print> StdSink<R> {
    /// The standard output of this runtime.
    pub fn new(rt: R) -> StdSink<R>
        ensures { result ≡ 0 }
    {
        StdSink { rt, faults: 0 }
    }
}

impl<R: Print> Sink for StdSink<R> {
    ghost state = { λ count. record { took = None; faults = count } };

    fn write(&mut self, piece: &[u8]) -> Result<usize, Failed> {
        if piece.is_empty() {
            return Ok(0);
        }
        let count = write_uninterrupted(&mut io::writer(&self.rt), piece);
        if count.is_err() {
            self.faults = self.faults.saturating_add(1);
        }
        count
    }
}

/// One write, tried again where a signal interrupts it.
///
/// The writer holds exactly as many bytes more as the count says. With `Failed` it holds none more:
/// that is an error, or a write that takes nothing.
#[tactic(auto, using(crate::proofs::Known::known))]
fn write_uninterrupted<W: Write>(out: &mut W, piece: &[u8]) -> Result<usize, Failed>
    ensures count { IfOk result (λ count. count ≤ length piece.now) }
    ensures progress { IfOk result (λ count. 0 < count) }
    ensures bytes { WriteAppends (W.contents out.old) (W.contents out.new) result piece.now }
{
    for _ in 0..u64::MAX {
        match out.write(piece) {
            Ok(0) => return Err(Failed),
            Ok(count) => return Ok(count),
            Err(error) if error.kind() == ErrorKind::Interrupted => {}
            Err(_) => return Err(Failed),
        }
    }
    Err(Failed)
}
