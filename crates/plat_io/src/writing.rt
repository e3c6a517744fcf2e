//! A loop that writes all of a piece.
ghost use Rattle.plat_io.specs.Adds.{Adds};

use crate::faults::WriteFault;
use crate::sinks::Sink;

/// Writes all of a piece. It takes no memory. After an `Err` a part of the piece may have been added.
#[tactic(auto, using(crate::proofs::Pieces::taking))]
pub fn write_all<K: Sink>(sink: &mut K, bytes: &[u8]) -> Result<(), WriteFault>
    ensures { Adds K.Sink sink.old sink.new result bytes.now }
{
    let mut at = 0;
    while at < bytes.len() {
        let n = sink.write(&bytes[at..])?;
        at += n;
    }
    Ok(())
}
