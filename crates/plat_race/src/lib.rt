//! Races of a history: the first pair of conflicting accesses that neither program order nor fetch-and-adds order, and
//! what a history without one is worth.
#![tactic(auto)]

mod laws;
mod marks;
mod pairs;
mod racers;
mod tables;

pub use laws::before_is_closure;
pub use pairs::Pair;
pub use racers::Racer;
