//! What is written to: the trait `Sink`.
ghost use Rattle.std.specs.Prelude.{◌<◌, ◌≤◌, length, take, IfOk, OnErr};
ghost use Rattle.joern_io.specs.Sinks.{SinkState, Takes, TakesNothing};

use crate::files::Failed;

/// Takes bytes, in the order in which they are written.
///
/// A contract sees it as a `SinkState`: what it took, which may be untold, and its count of faults.
pub trait Sink {
    ghost state: { Self → SinkState };

    /// Takes a prefix of the piece, and returns its length in bytes: 0 only where the piece is
    /// empty.
    ///
    /// `Failed` comes with a fault alone, for a piece that is not empty, and then nothing was
    /// taken.
    fn write(&mut self, piece: &[u8]) -> Result<usize, Failed>
        ensures count { IfOk result (λ count. count ≤ length piece.now) }
        ensures progress { IfOk result (λ count. 0 < length piece.now → 0 < count) }
        ensures ok { IfOk result (λ count.
            Takes (state self.old) (state self.new) (take count piece.now)) }
        ensures failed { OnErr result (TakesNothing (state self.old) (state self.new)) }
        ensures not_empty { OnErr result (0 < length piece.now) };
}
