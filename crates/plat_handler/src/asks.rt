//! What a handler asks of its actor, and what it does to the actor's own translations.
use plat_base::{Change, Op};

/// What a handler needs next, or how its session ended.
#[derive(Clone, Copy, Debug, PartialEq, Eq)]
pub enum Ask {
    /// An operation on the word at a place.
    Word { at: usize, op: Op },
    /// A poll of the processor. The daemon, which has no poll, is never asked for one.
    Poll,
    /// The page was unlocked with this change of a processor.
    Granted(Change),
    /// The page was unlocked with this change of the daemon.
    Thawed(Change),
    /// The daemon found that the page is not frozen, and unlocked it as it was.
    NotFrozen,
    /// Each module's pool word was read as zero, and the page, which is empty, was unlocked as it was.
    NoFrames,
}
