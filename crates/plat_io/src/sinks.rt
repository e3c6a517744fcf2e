//! Sinks of bytes.
use crate::faults::Failed;

/// What takes bytes. A sink may tell the bytes that it holds, and how many it can hold; whether it does never changes.
/// Its count of faults is a u64 that stands still at its last value.
pub trait Sink {
    ghost use Rattle.std.specs.Prelude.{◌≡◌, ℕ, ◌<◌, ◌≤◌, List, length, take, Option, IfOk, OnErr};
    ghost use Rattle.plat_io.specs.Streams.{HasRisen, added};

    ghost holds: { Self → Option (List ℕ) };

    ghost size: { Self → Option ℕ };

    ghost faults: { Self → ℕ };

    /// Adds the first bytes of a piece at the end, as many as it says; of a piece that is not empty at least one.
    fn write(&mut self, bytes: &[u8]) -> Result<usize, Failed>
        ensures count { faults self.old ≤ faults self.new }
        ensures failed { OnErr result (HasRisen (faults self.old) (faults self.new)) }
        ensures kept { OnErr result (holds self.new ≡ holds self.old) }
        ensures bound { IfOk result (λ n. n ≤ length bytes.now) }
        ensures some { IfOk result (λ n. 0 < length bytes.now → 0 < n) }
        ensures added { IfOk result (λ n. holds self.new ≡ added (holds self.old) (take n bytes.now)) }
        ensures size { size self.new ≡ size self.old };
}
