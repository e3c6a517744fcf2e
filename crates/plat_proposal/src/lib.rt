//! Placement policies without a law to prove: proposals, and the policies that they come to.
#![tactic(auto)]

mod proposals;

pub use proposals::{Proposal, Proposed};
