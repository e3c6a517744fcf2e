//! Where a handler stands.
use crate::faults::Fault;
use plat_base::{Dir, Frame, Removed};
use plat_words::StampWord;

/// What stays the same from the lock of a page to its unlock: the actor, the tick of its turn or the time of its pass, what
/// the page is locked for, and the directory that the lock found.
#[derive(Clone, Copy, Debug)]
pub struct Lock {
    pub actor: u32,
    pub tick: u32,
    pub fault: Fault,
    pub dir: Dir,
}

/// The row of the table is fixed: the page's stamp, and the frame that was taken.
#[derive(Clone, Copy, Debug)]
pub struct Course {
    pub stamp: StampWord,
    pub got: Option<Frame>,
}

/// The next operation of a session, its shootdown aside.
#[derive(Clone, Copy, Debug)]
pub enum Phase {
    /// The stamp is loaded.
    Stamping,
    /// The pool of a module, where so many modules gave no frame.
    Seeking {
        stamp: StampWord,
        passed: u32,
    },
    /// Its lowest frame, where the pool is still as seen.
    Taking {
        stamp: StampWord,
        passed: u32,
        seen: u64,
    },
    /// The unlock of a page that stays as it was.
    Returning,
    /// A word of an empty page is stored.
    Filling {
        course: Course,
        word: u32,
    },
    /// A word of the nearest copy is loaded.
    Reading {
        course: Course,
        word: u32,
    },
    /// And stored.
    Copying {
        course: Course,
        word: u32,
        seen: u64,
    },
    /// A frame is given back, where so many are.
    Giving {
        course: Course,
        given: u32,
    },
    /// The stamp is stored.
    Storing(Course),
    /// The reference is set.
    Granting(Course),
    /// The unlock with the directory after.
    Unlocking(Course),
}

/// What a try of the lock found.
#[derive(Clone, Copy, Debug)]
pub enum Found {
    /// No word of a directory of the machine.
    Nothing,
    /// A page that is locked.
    Taken,
    /// A page that was not.
    Free(Dir),
}

/// What follows an operation: the next one, or a shootdown.
#[derive(Clone, Copy, Debug)]
pub enum Then {
    Runs(Phase),
    Shoots(Course, Removed),
}

/// Where a handler stands.
#[derive(Clone, Copy, Debug)]
pub enum Stage {
    /// The lock is next.
    Locking,
    /// A poll, and then the lock again.
    Relocking,
    /// An operation of the session.
    Running(Phase),
    /// The shootdown.
    Shooting(Course),
    /// The page was unlocked as it was.
    Returned,
    /// The page was unlocked with its change.
    Changed(Course),
}
