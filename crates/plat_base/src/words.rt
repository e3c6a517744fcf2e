//! Names of the shared words, and the operations on one word.

/// A shared word of 64 bits, by what it keeps. `docs/FORMATS.md` has the bits of each.
#[derive(Clone, Copy, Debug, PartialEq, Eq)]
pub enum WordName {
    /// The number of turns so far.
    Time,
    /// The number of processors that have not ended.
    Live,
    /// A processor's active space.
    Act(u32),
    /// A processor's interrupts that wait for it.
    Intr(u32),
    /// A page's directory, and its lock.
    Dir(u32),
    /// A page's last invalidation, and its number of changes.
    Stamp(u32),
    /// An entry's reference mask, and the messages that wait (Cox and Fowler 1989).
    Cmap(u32),
    /// A module's free frames.
    Pool(u32),
    /// One word of a frame.
    Memory { module: u32, number: u32, word: u32 },
}

/// One operation on one shared word. `Add` and `Sub` wrap at 64 bits. `Exchange` writes `new` where the word equals `old`,
/// and else leaves it.
#[derive(Clone, Copy, Debug, PartialEq, Eq)]
pub enum Op {
    Load,
    Store(u64),
    Swap(u64),
    Add(u64),
    Sub(u64),
    And(u64),
    Or(u64),
    Exchange { old: u64, new: u64 },
}
