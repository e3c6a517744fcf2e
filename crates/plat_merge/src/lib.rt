//! The merge of the journals of a run by threads into one history.
#![tactic(auto)]

mod counts;
mod heads;
mod keys;
mod merging;
mod placing;
mod rooms;
mod tallies;
mod totals;

pub use merging::merge;
pub use rooms::Room;
