//! Laws of the coarse run over every policy, proved of the definitions alone.
#![tactic(auto)]

mod runs;

pub use runs::any_policy_coarse;
