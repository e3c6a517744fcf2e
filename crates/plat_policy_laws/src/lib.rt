//! What a policy cannot change: two runs of one machine under two policies mean the same to its guests.
#![tactic(auto)]

mod meanings;

pub use meanings::{any_two_policies, any_two_texts};
