//! Laws of single operations: what each one changes, and that it keeps the invariant of the shared state.
#![tactic(auto)]

mod states;

pub use states::any_policy_shows;
