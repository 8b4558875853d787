//! Writing to the end.
ghost use Rattle.std.specs.Prelude.{OnOk, OnErr};
ghost use Rattle.joern_io.specs.Sinks.{Takes, TakesPrefix};

use crate::files::Failed;
use crate::sink::Sink;

/// Writes all of the bytes, piece by piece, without memory.
///
/// `Failed` comes only where the sink counted a fault in this call. Then it took a proper prefix of
/// the bytes.
#[tactic(auto, using(crate::proofs::Taking::taking))]
pub fn write_all<S: Sink>(sink: &mut S, bytes: &[u8]) -> Result<(), Failed>
    ensures ok { OnOk result (Takes (S.state sink.old) (S.state sink.new) bytes.now) }
    ensures failed { OnErr result (TakesPrefix (S.state sink.old) (S.state sink.new) bytes.now) }
{
    let mut at: usize = 0;
    while at < bytes.len() {
        let count = sink.write(&bytes[at..])?;
        at += count;
    }
    Ok(())
}
