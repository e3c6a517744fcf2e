//! Laws of the operations by which a session locks a page, loads and stores its stamp, grants, and unlocks a page that stays
//! as it was: each keeps the invariant of the shared state.
#![tactic(auto)]

mod handling;

pub use handling::any_policy_sessions;
