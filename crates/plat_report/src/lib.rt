//! The report of a history with its ends, written to a sink line by line, and the summary of a generated run.
#![tactic(auto)]

mod actors;
mod caches;
mod counts;
mod lines;
mod prints;
mod processors;
mod reports;
mod runs;
mod sums;
mod tallies;
mod totals;
mod turns;
mod words;

pub use reports::{report, summary};
pub use tallies::Tally;
