//! Where a processor stands.
use plat_base::{End, Message, Moment};

/// What follows a poll and its scan.
#[derive(Clone, Copy, Debug, PartialEq, Eq)]
pub enum Onward {
    NewTurn,
    /// The end of the turn.
    TurnOver,
    /// The fault under way: its lock again, or its session.
    Fault,
}

/// The operation that a processor makes next. `i` counts the entries of the active space that a scan has passed.
#[derive(Clone, Copy, Debug, PartialEq, Eq)]
pub enum Place {
    Polling(Onward),
    /// A scan's look at the mask of an entry.
    Looking {
        i: u32,
        moment: Moment,
        onward: Onward,
    },
    /// A message is applied.
    Applying {
        i: u32,
        message: Message,
        moment: Moment,
        onward: Onward,
    },
    Ticking,
    /// The swap of the active space.
    Switching(u32),
    /// The load of a data word.
    Loading,
    /// The load before a write.
    Expecting,
    /// The write, where the word is as seen.
    Exchanging(u64),
    /// What the fault's handler asks for.
    Faulting,
    /// The swap of the active space to none.
    Leaving(End),
    /// One processor less is live.
    Lessening(End),
    /// It has ended.
    Gone(End),
}
