//! A loop that reads a source to its end.
ghost use Rattle.std.specs.Prelude.{◌≡◌, ◌≤◌, length, IfOk, OnOk, IfSome, IsErrOf};
ghost use Rattle.plat_io.specs.Streams.{HasRisen, IsAtEnd};
ghost use Rattle.plat_io.specs.Takes.{TakesWithin};

use crate::faults::ReadStop;
use crate::quiet::push_all;
use crate::sources::Source;
use plat_base::List;
use std::alloc::Global;

/// How many bytes are asked for at once.
const CHUNK: usize = 4096;

/// Reads a source to its end, but no more than one byte above the limit. What it took before an `Err` is lost.
#[tactic(auto, using(crate::proofs::ReadLemmas::pieces_read))]
pub fn read_all<S: Source>(alloc: Global, source: &mut S, limit: u32) -> Result<List<u8>, ReadStop>
    ensures all { IfOk result (λ bytes. IfSome (S.left source.old) (λ left. bytes.items ≡ left)) }
    ensures end { OnOk result (IsAtEnd (S.left source.new)) }
    ensures short { IfOk result (λ bytes. length bytes.items ≤ limit) }
    ensures taken { TakesWithin limit (S.left source.old) (S.left source.new) result }
    ensures read_fault { IsErrOf result ReadStop.ReadFault →
        HasRisen (S.faults source.old) (S.faults source.new) }
    ensures count { S.faults source.old ≤ S.faults source.new }
{
    let most = limit as usize + 1;
    let mut bytes = List::new(alloc);
    let mut chunk = [0; CHUNK];
    loop {
        let room = CHUNK.min(most - bytes.len());
        let n = source.read(&mut chunk[..room])?;
        if n == 0 {
            return Ok(bytes);
        }
        if bytes.len() + n == most {
            return Err(ReadStop::TooLong);
        }
        bytes.reserve(n)?;
        push_all(&mut bytes, &chunk[..n]);
    }
}
