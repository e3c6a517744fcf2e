//! What a shootdown asks of the actor that makes it.
use plat_base::Op;

/// What a shootdown needs next.
#[derive(Clone, Copy, Debug, PartialEq, Eq)]
pub enum Need {
    /// An operation on the word at a place.
    Word { at: usize, op: Op },
    /// A poll of the processor that makes the shootdown. The daemon, which has no poll, is never asked for one.
    Poll,
    /// Nothing: each message is posted, and no target is waited for.
    Finished,
}

/// What a post takes of the translations of the actor itself, in the same event and whatever their right: where it was made
/// on a mask with the actor's own reference, that entry's translation is dropped, or lowered to read.
#[derive(Clone, Copy, Debug, PartialEq, Eq)]
pub enum Own {
    Nothing,
    Dropped(u32),
    Lowered(u32),
}
