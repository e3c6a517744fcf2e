//! The items of a history: accesses, changes of pages, applied messages, and switches of spaces.
use crate::frames::{Dir, Frame};

/// What a translation allows. A write translation serves reads as well.
#[derive(Clone, Copy, Debug, PartialEq, Eq)]
pub enum Right {
    Read,
    Write,
}

/// The translation that a change gives: the number of the entry, the frame it leads to, and the right.
#[derive(Clone, Copy, Debug, PartialEq, Eq)]
pub struct Grant {
    pub entry: u32,
    pub frame: Frame,
    pub right: Right,
}

/// A translation as its processor keeps it: what was granted, the number of the change that granted it, and whether a
/// restrict has lowered it since.
#[derive(Clone, Copy, Debug, PartialEq, Eq)]
pub struct Translation {
    pub grant: Grant,
    pub seq: u32,
    pub restricted: bool,
}

/// The kind of an access; Add is a fetch-and-add.
#[derive(Clone, Copy, Debug, PartialEq, Eq)]
pub enum Kind {
    Load,
    Store,
    Add,
}

/// Why a page changed: a fault of a load, a fault of a store or fetch-and-add, or the thaw of the daemon.
#[derive(Clone, Copy, Debug, PartialEq, Eq)]
pub enum Cause {
    Read,
    Write,
    Thaw,
}

/// What a change does with the copies of its page (Cox and Fowler 1989). `docs/MODEL.md` says which one follows when.
#[derive(Clone, Copy, Debug, PartialEq, Eq)]
pub enum Action {
    /// A page without a copy gets its first one.
    Fill,
    /// The copy on the own node is mapped.
    MapLocal,
    /// The nearest copy is mapped, on another node.
    MapRemote,
    /// A further copy is made, on the own node.
    Replicate,
    /// The page gets a copy on the own node, and loses all others.
    Migrate,
    /// One copy is kept, and all others are given back.
    Collapse,
    /// A frozen page is no longer frozen, and keeps its copies.
    Thaw,
}

/// What a change takes away from the page's translations: nothing, the right to write, or all of them.
#[derive(Clone, Copy, Debug, PartialEq, Eq)]
pub enum Removed {
    Nothing,
    Writes,
    All,
}

/// What a message asks of a processor (Cox and Fowler 1989): to drop its translation of an entry, or to lower it to read.
#[derive(Clone, Copy, Debug, PartialEq, Eq)]
pub enum Message {
    Invalidate,
    Restrict,
}

/// When a message was applied: at an interrupt, or when the processor activated the entry's space (Cox and Fowler 1989).
#[derive(Clone, Copy, Debug, PartialEq, Eq)]
pub enum Moment {
    Interrupt,
    Activation,
}

/// One access of a word. `addr` counts words within the space, and leads to the word `word` of the page `page`. `old` is
/// the value before and `new` the one after. `version` counts the writes to that word, this one included. `frame` is the
/// copy that was accessed, and `grant` the number of the page's change that granted the translation.
#[derive(Clone, Copy, Debug, PartialEq, Eq)]
pub struct Access {
    pub actor: u32,
    pub kind: Kind,
    pub space: u32,
    pub addr: u32,
    pub page: u32,
    pub word: u32,
    pub old: u32,
    pub new: u32,
    pub version: u32,
    pub frame: Frame,
    pub grant: u32,
}

/// One change of a page. `seq` numbers the changes of a page from 0. `time` is the tick of the initiator's turn or of
/// the daemon's pass. A thaw grants nothing, and every other change grants a translation to its actor.
#[derive(Clone, Copy, Debug, PartialEq, Eq)]
pub struct Change {
    pub actor: u32,
    pub page: u32,
    pub seq: u32,
    pub time: u32,
    pub cause: Cause,
    pub action: Action,
    pub removed: Removed,
    pub before: Dir,
    pub after: Dir,
    pub granted: Option<Grant>,
}

/// One message that a processor applied to its translation of an entry.
#[derive(Clone, Copy, Debug, PartialEq, Eq)]
pub struct Applied {
    pub actor: u32,
    pub entry: u32,
    pub message: Message,
    pub moment: Moment,
}

/// One switch of a processor to another space, or to the same one again.
#[derive(Clone, Copy, Debug, PartialEq, Eq)]
pub struct Switch {
    pub actor: u32,
    pub space: u32,
}

/// One item of a history. The actor of a change may be the daemon, whose number is the number of nodes.
#[derive(Clone, Copy, Debug, PartialEq, Eq)]
pub enum Item {
    Access(Access),
    Change(Change),
    Applied(Applied),
    Switch(Switch),
}
