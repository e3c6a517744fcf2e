//! A port that keeps what it made.
ghost use Rattle.std.specs.Prelude.{◌≡◌, ◌<◌, ◌≤◌, [], length, IfOk};
ghost use Rattle.plat_base.specs.Seen.{machine};
ghost use Rattle.plat_events.specs.Places.{first_words, word_count};

use crate::ports::WordPort;
use crate::vec_ports::VecPort;
use plat_base::{Config, List, Op, OutOfMemory};
use std::alloc::Global;
use std::marker::Model;

/// One operation that was made: the place of its word, and the word that it found, or 0 for a store.
#[derive(Clone, Copy, Debug, PartialEq, Eq)]
pub struct Made {
    pub at: usize,
    pub op: Op,
    pub found: u64,
}

/// A port to words that it holds itself, which keeps its first operations in order, as many as it was made for.
#[derive(Debug, Drop)]
pub struct RecordPort {
    port: VecPort,
    made: List<Made>,
    left: usize,
}

impl Model for RecordPort {
    ghost use Rattle.std.specs.Prelude.{◌≤◌};
    ghost use Rattle.plat_ports.specs.Made.{RecordSeen};

    ghost Value = { RecordSeen };

    ghost view = { λ it. record { words = it.port; made = it.made.items; spare = it.left } };

    ghost invariant = { λ it. it.left ≤ it.made.spare };
}

impl RecordPort {
    /// The words at the start, and no operation yet; `room` operations are kept.
    pub fn new(alloc: Global, cfg: &Config, room: usize) -> Result<RecordPort, OutOfMemory>
        ensures words { IfOk result (λ it. it.words ≡ first_words (machine cfg.now)) }
        ensures count { IfOk result (λ it. length it.words ≡ word_count (machine cfg.now)) }
        ensures made { IfOk result (λ it. it.made ≡ []) }
        ensures spare { IfOk result (λ it. it.spare ≡ room) }
    {
        Ok(RecordPort {
            port: VecPort::new(alloc, cfg)?,
            made: List::with_room(alloc, room)?,
            left: room,
        })
    }

    /// The words.
    pub fn words(&self) -> &[u64]
        ensures { result.now ≡ self.now.words }
    {
        self.port.words()
    }

    /// The operations that were kept.
    pub fn made(&self) -> &[Made]
        ensures { result.now ≡ self.now.made }
    {
        self.made.as_slice()
    }
}

impl WordPort for RecordPort {
    ghost use Rattle.std.specs.Prelude.{Some, None};
    ghost use Rattle.plat_ports.specs.Made.{IsKept};

    ghost words = { λ it. Some it.words };

    ghost serves = { λ _. None };

    ghost stays = { IsKept };

    fn apply(&mut self, at: usize, op: Op) -> u64 {
        let found = self.port.apply(at, op);
        if self.left > 0 {
            self.left -= 1;
            self.made.push(Made { at, op, found });
        }
        found
    }
}
