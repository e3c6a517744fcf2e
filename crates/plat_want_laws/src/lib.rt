//! When a processor of a run of single operations may end for want of a frame.
#![tactic(auto)]

mod wants;

pub use wants::any_policy_wants;
