//! A source and a sink in memory that fail at calls that are named when they are made.
ghost use Rattle.std.specs.Prelude.{◌≡◌, ◌+◌, ◌-◌, ◌<◌, ◌≤◌, ◌↔◌, ◌⊎◌, if◌then◌else◌, [], ◌++◌, length, take, min, Contains, IsTrue, IsErr};
ghost use Rattle.std.specs.Prelude.{is_err, IfOk, OnOk, OnErr};
ghost use Rattle.plat_io.specs.Streams.{HasRisen, raised};

use crate::faults::Failed;
use crate::quiet::{QuietSink, QuietSource};
use crate::sinks::Sink;
use crate::sources::Source;
use plat_base::{List, OutOfMemory};
use std::alloc::Global;
use std::marker::Model;

/// A source in memory whose calls fail where their numbers, from 1, are in a list. Contracts see the bytes that are
/// left, the number of calls so far, that list, and the count of faults.
#[derive(Debug, Drop)]
pub struct MemorySource {
    bytes: QuietSource,
    calls: u64,
    fails: List<u32>,
    faults: u64,
}

impl Model for MemorySource {
    ghost use Rattle.plat_io.specs.Memory.{SourceState};

    ghost Value = { SourceState };

    ghost view = { λ it. record {
      left = it.bytes;
      calls = it.calls;
      fails = it.fails.items;
      faults = it.faults;
    } };
}

impl MemorySource {
    /// A source with a copy of these bytes. `fails` has the numbers of the calls that fail, in rising order.
    pub fn new(alloc: Global, bytes: &[u8], fails: List<u32>) -> Result<MemorySource, OutOfMemory>
        ensures left { IfOk result (λ source. source.left ≡ bytes.now) }
        ensures calls { IfOk result (λ source. source.calls ≡ 0) }
        ensures fails { IfOk result (λ source. source.fails ≡ fails.items) }
        ensures faults { IfOk result (λ source. source.faults ≡ 0) }
    {
        Ok(MemorySource {
            bytes: QuietSource::new(alloc, bytes)?,
            calls: 0,
            fails,
            faults: 0,
        })
    }

    /// The bytes that are left.
    pub fn left(&self) -> &[u8]
        ensures { result.now ≡ self.now.left }
    {
        self.bytes.left()
    }
}

impl Source for MemorySource {
    ghost use Rattle.std.specs.Prelude.{Some};

    ghost left = { λ source. Some source.left };

    ghost faults = { λ source. source.faults };

    fn read(&mut self, buf: &mut [u8]) -> Result<usize, Failed>
        ensures calls { self.new.calls ≡ raised self.old.calls }
        ensures exactly { IsErr result ↔ Contains self.old.fails self.new.calls }
        ensures fails { self.new.fails ≡ self.old.fails }
        ensures same { OnOk result (self.new.faults ≡ self.old.faults) }
        ensures raised { OnErr result (self.new.faults ≡ raised self.old.faults) }
        ensures count { self.old.faults ≤ self.new.faults }
        ensures failed { OnErr result (HasRisen self.old.faults self.new.faults) }
        ensures kept { OnErr result (self.new.left ≡ self.old.left) }
        ensures most { IfOk result (λ n. n ≡ min (length buf.new) (length self.old.left)) }
        ensures taken { IfOk result (λ n. self.old.left ≡ take n buf.new ++ self.new.left) }
    {
        self.calls = self.calls.saturating_add(1);
        if is_named(self.fails.as_slice(), self.calls) {
            self.faults = self.faults.saturating_add(1);
            return Err(Failed);
        }
        self.bytes.read(buf)
    }
}

/// A sink in memory whose calls fail where their numbers, from 1, are in a list, and where it is full. Contracts see the
/// bytes that it holds, how many it can hold, the number of calls so far, that list, and the count of faults.
#[derive(Debug, Drop)]
pub struct MemorySink {
    bytes: QuietSink,
    calls: u64,
    fails: List<u32>,
    faults: u64,
}

impl Model for MemorySink {
    ghost use Rattle.plat_io.specs.Memory.{SinkState};

    ghost Value = { SinkState };

    ghost view = { λ it. record {
      bytes = it.bytes.bytes;
      size = it.bytes.size;
      calls = it.calls;
      fails = it.fails.items;
      faults = it.faults;
    } };
}

impl MemorySink {
    /// An empty sink with room for `size` bytes, which it reserves here. `fails` is as of a source.
    pub fn new(alloc: Global, size: usize, fails: List<u32>) -> Result<MemorySink, OutOfMemory>
        ensures empty { IfOk result (λ sink. sink.bytes ≡ []) }
        ensures size { IfOk result (λ sink. sink.size ≡ size) }
        ensures calls { IfOk result (λ sink. sink.calls ≡ 0) }
        ensures fails { IfOk result (λ sink. sink.fails ≡ fails.items) }
        ensures faults { IfOk result (λ sink. sink.faults ≡ 0) }
    {
        Ok(MemorySink {
            bytes: QuietSink::new(alloc, size)?,
            calls: 0,
            fails,
            faults: 0,
        })
    }

    /// The bytes that it holds.
    pub fn bytes(&self) -> &[u8]
        ensures bytes { result.now ≡ self.now.bytes }
        ensures size { length self.now.bytes ≤ self.now.size }
    {
        self.bytes.bytes()
    }
}

impl Sink for MemorySink {
    ghost use Rattle.std.specs.Prelude.{Some};

    ghost holds = { λ sink. Some sink.bytes };

    ghost size = { λ sink. Some sink.size };

    ghost faults = { λ sink. sink.faults };

    fn write(&mut self, bytes: &[u8]) -> Result<usize, Failed>
        ensures calls { self.new.calls ≡ raised self.old.calls }
        ensures exactly { IsErr result ↔ (Contains self.old.fails self.new.calls
            ⊎ ((length self.old.bytes ≡ self.old.size) × (0 < length bytes.now))) }
        ensures fails { self.new.fails ≡ self.old.fails }
        ensures same { OnOk result (self.new.faults ≡ self.old.faults) }
        ensures raised { OnErr result (self.new.faults ≡ raised self.old.faults) }
        ensures count { self.old.faults ≤ self.new.faults }
        ensures failed { OnErr result (HasRisen self.old.faults self.new.faults) }
        ensures kept { OnErr result (self.new.bytes ≡ self.old.bytes) }
        ensures room { IfOk result (λ n. n ≡ min (length bytes.now) (self.old.size - length self.old.bytes)) }
        ensures some { IfOk result (λ n. 0 < length bytes.now → 0 < n) }
        ensures added { IfOk result (λ n. self.new.bytes ≡ self.old.bytes ++ take n bytes.now) }
        ensures size { self.new.size ≡ self.old.size }
    {
        self.calls = self.calls.saturating_add(1);
        let written = if is_named(self.fails.as_slice(), self.calls) {
            Err(Failed)
        } else {
            self.bytes.write(bytes)
        };
        if written.is_err() {
            self.faults = self.faults.saturating_add(1);
        }
        written
    }
}

/// Whether a list has the number of a call.
fn is_named(fails: &[u32], call: u64) -> bool
    ensures { IsTrue result ↔ Contains fails.now call }
{
    fails.iter().any(|n| u64::from(*n) == call)
}
