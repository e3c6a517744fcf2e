//! The shared words of a machine in an atomic table, under a rule: at every moment they are the words of a run of single
//! operations of live actors, whichever threads make them. A rider is a seat of the table together with some of the actors; it
//! can be split, so that each thread rides some actors, and joined again. No call but `Board::new` takes memory, and none waits.
#![tactic(auto)]

mod actors;
mod boards;
mod gates;
mod ports;
mod riders;
mod rules;

pub use boards::{Board, Closed};
pub use gates::{FreeGate, Gate};
pub use plat_daemon::Went;
pub use riders::Rider;
