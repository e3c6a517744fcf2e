//! The coarse run: whole guest instructions, one turn at a time, on one thread.
#![tactic(auto)]

mod accesses;
mod acts;
mod faults;
mod frames;
mod messages;
mod turns;

pub use turns::{Coarse, Turned, most_turns};
