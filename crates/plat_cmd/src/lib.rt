//! The commands of the program, and its top call.
#![tactic(auto)]

mod arguments;
mod checks;
mod coarse_runs;
mod commands;
mod costs;
mod fine_runs;
mod generated;
mod judgings;
mod outcomes;
mod races;
mod readings;
mod replays;
mod runs;
mod simulations;
mod thread_runs;
mod traces;
mod trials;
mod words;

pub use commands::{check, cost, platinum, race, replay, run, sim};
pub use generated::{big, print_generated};
pub use outcomes::{Outcome, Stop};
pub use trials::sim_under;
pub use words::{Command, Grain, Output, WordsFault, read_words};
