//! Where a shootdown stands.

/// The next operation of a shootdown. A number counts the targets that are passed.
#[derive(Clone, Copy, Debug)]
pub enum Shot {
    /// The mask is looked at before a post.
    Posting,
    /// The post, where the mask is still the one that was seen.
    PostingOn(u64),
    /// The active space of a target.
    Asking(u32),
    /// Its interrupt.
    Interrupting(u32),
    /// The mask, for its pending bits.
    Watching(u32),
    /// Its active space again.
    AskingAgain(u32),
}

/// What a shootdown does next.
#[derive(Clone, Copy, Debug)]
pub enum Step {
    Makes(Shot),
    /// It waits for a poll of the processor that makes it.
    Polls(u32),
    Done,
}
