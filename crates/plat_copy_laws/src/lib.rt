//! What runs of single operations say of copies, frames and shootdowns, for whoever writes a kernel.
#![tactic(auto)]

mod copies;

pub use copies::any_policy_copies;
