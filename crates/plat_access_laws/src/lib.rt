//! Laws of the operations that write a data word: a store or fetch-and-add keeps the invariant of the shared state.
#![tactic(auto)]

mod exchanges;

pub use exchanges::any_policy_writes;
