//! Flat memory: the value of each word of each page, and how often it was written, with no regard to copies.
#![tactic(auto)]

mod memory;

pub use memory::Flat;
