//! The base of PLATINUM: the types that every layer speaks of, and in `specs/` the definitions that its contracts cite.
#![tactic(auto)]

pub mod configs;
pub mod endings;
pub mod entries;
pub mod faults;
pub mod frames;
pub mod guests;
pub mod items;
pub mod journals;
pub mod kinds;
pub mod limits;
pub mod lists;
pub mod names;
pub mod policies;
pub mod statuses;
pub mod words;

pub use configs::{Config, Distance, Entry, Init, Plan};
pub use endings::{End, Ended, Finished};
pub use entries::Entries;
pub use faults::{OutOfMemory, Refused, TextFault, Why};
pub use frames::{Copies, Dir, Frame, State};
pub use guests::{GuestText, Instr, Label, Want};
pub use items::{
    Access, Action, Applied, Cause, Change, Grant, Item, Kind, Message, Moment, Removed, Right,
    Switch, Translation,
};
pub use journals::Journals;
pub use limits::{
    ACTORS, BUDGET, ENTRIES, FRAMES, INSTRUCTIONS, LABELS, LISTED, MODULES, MOST_ITEMS, MOST_TURNS,
    PAGE_WORDS, PAGES, REGISTERS, SPACES, VIRTUAL_PAGES, WORDS,
};
pub use lists::List;
pub use names::Name;
pub use policies::{Decision, Policy, PolicyKind, Verdict};
pub use statuses::{Bad, Rule, Status};
pub use words::{Op, WordName};
