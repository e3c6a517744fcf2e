//! A source and a sink in memory that fail as little as they can.
ghost use Rattle.std.specs.Prelude.{◌≡◌, ◌+◌, ◌-◌, ◌<◌, ◌≤◌, ◌↔◌, [], ◌++◌, length, take, min, IsOk, IsErr, IfOk, OnOk, OnErr};
ghost use Rattle.plat_io.specs.Streams.{HasRisen, raised};

use crate::faults::Failed;
use crate::sinks::Sink;
use crate::sources::Source;
use plat_base::{List, OutOfMemory};
use std::alloc::Global;
use std::marker::Model;

/// A source in memory that never fails. Contracts see the bytes that are left.
#[derive(Debug, Drop)]
pub struct QuietSource {
    bytes: List<u8>,
    at: usize,
}

impl Model for QuietSource {
    ghost use Rattle.std.specs.Prelude.{ℕ, ◌≤◌, List, length, drop};

    ghost Value = { List ℕ };

    ghost view = { λ it. drop it.at it.bytes.items };

    ghost invariant = { λ it. it.at ≤ length it.bytes.items };
}

impl QuietSource {
    /// A source with a copy of these bytes.
    pub fn new(alloc: Global, bytes: &[u8]) -> Result<QuietSource, OutOfMemory>
        ensures { IfOk result (λ source. source ≡ bytes.now) }
    {
        let mut copy = List::with_room(alloc, bytes.len())?;
        push_all(&mut copy, bytes);
        Ok(QuietSource { bytes: copy, at: 0 })
    }

    /// The bytes that are left.
    pub fn left(&self) -> &[u8]
        ensures { result.now ≡ self.now }
    {
        &self.bytes.as_slice()[self.at..]
    }
}

impl Source for QuietSource {
    ghost use Rattle.std.specs.Prelude.{Some};

    ghost left = { λ source. Some source };

    ghost faults = { λ _. 0 };

    #[tactic(auto, using(crate::proofs::Pieces::read_cut))]
    fn read(&mut self, buf: &mut [u8]) -> Result<usize, Failed>
        ensures quiet { IsOk result }
        ensures most { IfOk result (λ n. n ≡ min (length buf.new) (length self.old)) }
        ensures taken { IfOk result (λ n. self.old ≡ take n buf.new ++ self.new) }
    {
        let n = fill(buf, &self.bytes.as_slice()[self.at..]);
        self.at += n;
        Ok(n)
    }
}

/// A sink in memory that fails only where it is full. Contracts see the bytes that it holds, how many it can hold, and
/// how often it refused a piece, which it does only where it is full.
#[derive(Debug, Drop)]
pub struct QuietSink {
    bytes: List<u8>,
    size: usize,
    refused: u64,
}

impl Model for QuietSink {
    ghost use Rattle.std.specs.Prelude.{◌≡◌, ◌+◌, ◌<◌, ◌≤◌, length};
    ghost use Rattle.plat_io.specs.Memory.{QuietState};

    ghost Value = { QuietState };

    ghost view = { λ it. record { bytes = it.bytes.items; size = it.size; refused = it.refused } };

    ghost invariant = { λ it. (length it.bytes.items ≤ it.size)
        × (it.size ≤ length it.bytes.items + it.bytes.spare)
        × (0 < it.refused → length it.bytes.items ≡ it.size) };
}

impl QuietSink {
    /// An empty sink with room for `size` bytes, which it reserves here.
    pub fn new(alloc: Global, size: usize) -> Result<QuietSink, OutOfMemory>
        ensures empty { IfOk result (λ sink. sink.bytes ≡ []) }
        ensures size { IfOk result (λ sink. sink.size ≡ size) }
        ensures quiet { IfOk result (λ sink. sink.refused ≡ 0) }
    {
        Ok(QuietSink {
            bytes: List::with_room(alloc, size)?,
            size,
            refused: 0,
        })
    }

    /// The bytes that it holds.
    pub fn bytes(&self) -> &[u8]
        ensures bytes { result.now ≡ self.now.bytes }
        ensures size { length self.now.bytes ≤ self.now.size }
        ensures full { 0 < self.now.refused → length self.now.bytes ≡ self.now.size }
    {
        self.bytes.as_slice()
    }
}

impl Sink for QuietSink {
    ghost use Rattle.std.specs.Prelude.{Some};
    ghost use Rattle.plat_io.specs.Memory.{quiet_faults};

    ghost holds = { λ sink. Some sink.bytes };

    ghost size = { λ sink. Some sink.size };

    ghost faults = { quiet_faults };

    fn write(&mut self, bytes: &[u8]) -> Result<usize, Failed>
        ensures same { OnOk result (self.new.refused ≡ self.old.refused) }
        ensures raised { OnErr result (self.new.refused ≡ raised self.old.refused) }
        ensures count { quiet_faults self.old ≤ quiet_faults self.new }
        ensures failed { OnErr result (HasRisen (quiet_faults self.old) (quiet_faults self.new)) }
        ensures full { IsErr result ↔ ((length self.old.bytes ≡ self.old.size) × (0 < length bytes.now)) }
        ensures kept { OnErr result (self.new.bytes ≡ self.old.bytes) }
        ensures room { IfOk result (λ n. n ≡ min (length bytes.now) (self.old.size - length self.old.bytes)) }
        ensures bound { IfOk result (λ n. n ≤ length bytes.now) }
        ensures some { IfOk result (λ n. 0 < length bytes.now → 0 < n) }
        ensures added { IfOk result (λ n. self.new.bytes ≡ self.old.bytes ++ take n bytes.now) }
        ensures size { self.new.size ≡ self.old.size }
    {
        let n = bytes.len().min(self.size - self.bytes.len());
        if n == 0 && !bytes.is_empty() {
            self.refused = self.refused.saturating_add(1);
            return Err(Failed);
        }
        push_all(&mut self.bytes, &bytes[..n]);
        Ok(n)
    }
}

/// Copies bytes to the front of a buffer, as many as there are and as it holds, and says how many.
fn fill(buf: &mut [u8], bytes: &[u8]) -> usize
    ensures count { result ≡ min (length buf.old) (length bytes.now) }
    ensures copied { take result buf.new ≡ take result bytes.now }
{
    let n = buf.len().min(bytes.len());
    buf[..n].copy_from_slice(&bytes[..n]);
    n
}

/// Adds bytes at the end of a list that has room for them.
pub(crate) fn push_all(list: &mut List<u8>, bytes: &[u8])
    requires { length bytes.now ≤ list.old.spare }
    ensures items { list.new.items ≡ list.old.items ++ bytes.now }
    ensures spare { list.old.spare ≡ list.new.spare + length bytes.now }
{
    for byte in bytes {
        list.push(*byte);
    }
}
