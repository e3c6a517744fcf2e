//! Laws of the messages that processors apply in scans: each keeps the invariant of the shared state.
#![tactic(auto)]

mod messages;

pub use messages::any_policy_applies;
