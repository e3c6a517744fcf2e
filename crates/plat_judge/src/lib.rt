//! The judge of a history: the first item that breaks a rule, or whether the processors' ends do.
#![tactic(auto)]

mod accesses;
mod alike;
mod changes;
mod ends;
mod judges;
mod messages;

pub use judges::Judge;
