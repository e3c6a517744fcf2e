//! Laws of one actor alone: what its private state says, whatever words its operations find. They know no other actor.
#![tactic(auto)]

mod privates;

pub use privates::any_policy_alone;
