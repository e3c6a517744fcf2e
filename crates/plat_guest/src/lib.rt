//! Guest steps: what a guest wants of its next turn, and its state after its next instruction. No call takes memory.
#![tactic(auto)]

mod guests;
mod programs;

pub use guests::Guest;
