//! Adapters over std's readers and writers. They tell no bytes.
ghost use Rattle.std.specs.Prelude.{◌≡◌, ◌<◌, ◌≤◌, length, IfOk, OnOk, OnErr};
ghost use Rattle.std.specs.Io.KnownBytes.{ReadConsumes, WriteAppends};
ghost use Rattle.plat_io.specs.Streams.{HasRisen, raised};

use crate::faults::Failed;
use crate::sinks::Sink;
use crate::sources::Source;
use std::io::{Read, Write};
use std::marker::Model;

/// A source over a reader. Contracts see the reader and the count of faults, which each error of the reader raises.
#[derive(Drop)]
pub struct StdSource<R: Read> {
    reader: R,
    faults: u64,
}

impl<R: Read> Model for StdSource<R> {
    ghost use Rattle.plat_io.specs.Adapters.{Over, over_code};

    ghost Value = { Over R };

    ghost coded = { over_code R.code };

    ghost view = { λ it. record { inner = it.reader; faults = it.faults } };
}

impl<R: Read> StdSource<R> {
    /// A source over this reader, with no fault so far.
    pub fn new(reader: R) -> StdSource<R>
        ensures reader { result.inner ≡ reader }
        ensures faults { result.faults ≡ 0 }
    {
        StdSource { reader, faults: 0 }
    }
}

impl<R: Read> Source for StdSource<R> {
    ghost use Rattle.std.specs.Prelude.{None};

    ghost left = { λ _. None };

    ghost faults = { λ source. source.faults };

    fn read(&mut self, buf: &mut [u8]) -> Result<usize, Failed>
        ensures same { OnOk result (self.new.faults ≡ self.old.faults) }
        ensures raised { OnErr result (self.new.faults ≡ raised self.old.faults) }
        ensures count { self.old.faults ≤ self.new.faults }
        ensures failed { OnErr result (HasRisen self.old.faults self.new.faults) }
        ensures bound { IfOk result (λ n. n ≤ length buf.new) }
        ensures reader { ReadConsumes (R.remaining self.old.inner) (R.remaining self.new.inner) result
            buf.new }
    {
        match self.reader.read(buf) {
            Ok(n) => Ok(n),
            Err(_) => {
                self.faults = self.faults.saturating_add(1);
                Err(Failed)
            }
        }
    }
}

/// A sink over a writer. Contracts see the writer and the count of faults, which each error of the writer raises, and each
/// write that takes nothing of a piece that is not empty.
#[derive(Drop)]
pub struct StdSink<W: Write> {
    writer: W,
    faults: u64,
}

impl<W: Write> Model for StdSink<W> {
    ghost use Rattle.plat_io.specs.Adapters.{Over, over_code};

    ghost Value = { Over W };

    ghost coded = { over_code W.code };

    ghost view = { λ it. record { inner = it.writer; faults = it.faults } };
}

impl<W: Write> StdSink<W> {
    /// A sink over this writer, with no fault so far.
    pub fn new(writer: W) -> StdSink<W>
        ensures writer { result.inner ≡ writer }
        ensures faults { result.faults ≡ 0 }
    {
        StdSink { writer, faults: 0 }
    }
}

impl<W: Write> Sink for StdSink<W> {
    ghost use Rattle.std.specs.Prelude.{None};

    ghost holds = { λ _. None };

    ghost size = { λ _. None };

    ghost faults = { λ sink. sink.faults };

    fn write(&mut self, bytes: &[u8]) -> Result<usize, Failed>
        ensures same { OnOk result (self.new.faults ≡ self.old.faults) }
        ensures raised { OnErr result (self.new.faults ≡ raised self.old.faults) }
        ensures count { self.old.faults ≤ self.new.faults }
        ensures failed { OnErr result (HasRisen self.old.faults self.new.faults) }
        ensures bound { IfOk result (λ n. n ≤ length bytes.now) }
        ensures writer { WriteAppends (W.contents self.old.inner) (W.contents self.new.inner) result
            bytes.now }
        ensures some { IfOk result (λ n. 0 < length bytes.now → 0 < n) }
    {
        match self.writer.write(bytes) {
            Ok(n) if n > 0 || bytes.is_empty() => Ok(n),
            _ => {
                self.faults = self.faults.saturating_add(1);
                Err(Failed)
            }
        }
    }
}
