//! The law of the unlock of a page with a change: it keeps the invariant of the shared state.
#![tactic(auto)]

mod unlocking;

pub use unlocking::any_policy_unlocks;
