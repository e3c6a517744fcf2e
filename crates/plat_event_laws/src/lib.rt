//! The law of single operations: whichever actor makes which operation, the invariant of the shared state holds on.
#![tactic(auto)]

mod events;

pub use events::any_policy_events;
