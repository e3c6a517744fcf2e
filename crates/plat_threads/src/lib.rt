//! Runs on threads, by fork and join: each processor and the daemon makes its operations on a thread of its own. Only
//! `Ready::new` takes memory.
#![tactic(auto)]

mod running;

pub use running::{Ready, run_threads};
