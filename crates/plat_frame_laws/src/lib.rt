//! Laws of the operations that seek, take, fill, copy into and give back frames: each keeps the invariant of the shared state.
#![tactic(auto)]

mod handling;

pub use handling::any_policy_frames;
