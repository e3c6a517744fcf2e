//! What the programs share: how a status is said, as a number and as a line, and the status once all was written.
#![tactic(auto)]

mod faults;
mod statuses;

pub use faults::{Fault, fault_of, number_of};
pub use statuses::{status_after, status_of_words};
