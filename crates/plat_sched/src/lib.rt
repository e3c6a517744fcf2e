//! Schedules: which of the live actors is next. Choosing takes no memory.
#![tactic(auto)]

mod actors;
mod schedules;
mod sources;

pub use schedules::Schedule;
