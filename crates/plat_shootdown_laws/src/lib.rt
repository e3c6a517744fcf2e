//! Laws of shootdowns: each of their operations keeps the invariant of the shared state.
#![tactic(auto)]

mod shootdowns;

pub use shootdowns::any_policy_shoots;
