//! Generated machines: one for each number, of eight guests that step through the pages at random and count on one
//! shared word.
#![tactic(auto)]

mod generated;
mod guests;
mod lists;

pub use generated::generate;
