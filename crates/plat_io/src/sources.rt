//! Sources of bytes.
use crate::faults::Failed;

/// What gives bytes. A source may tell the bytes that it has left; whether it does never changes. Its count of faults is
/// a u64 that stands still at its last value.
pub trait Source {
    ghost use Rattle.std.specs.Prelude.{◌≡◌, ℕ, ◌<◌, ◌≤◌, List, length, take, Option, IfOk, OnErr};
    ghost use Rattle.plat_io.specs.Streams.{HasRisen, preceded, IsAtEnd};

    ghost left: { Self → Option (List ℕ) };

    ghost faults: { Self → ℕ };

    /// Takes bytes from the front of what is left and puts them at the front of `buf`. `Ok(0)` on a buffer with room
    /// means the end.
    fn read(&mut self, buf: &mut [u8]) -> Result<usize, Failed>
        ensures count { faults self.old ≤ faults self.new }
        ensures failed { OnErr result (HasRisen (faults self.old) (faults self.new)) }
        ensures kept { OnErr result (left self.new ≡ left self.old) }
        ensures bound { IfOk result (λ n. n ≤ length buf.new) }
        ensures taken { IfOk result (λ n. left self.old ≡ preceded (take n buf.new) (left self.new)) }
        ensures end { IfOk result (λ n. n ≡ 0 → 0 < length buf.new → IsAtEnd (left self.new)) };
}
