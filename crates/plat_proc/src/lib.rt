//! A processor of the machine of single operations: its polls, scans and turns, one operation on a shared word at a time,
//! through any port: accesses by translations, and faults with their sessions (Cox and Fowler 1989). After `Proc::new` nothing
//! takes memory.
#![tactic(auto)]

mod accesses;
mod entries;
mod faults;
mod messages;
mod places;
mod procs;
mod scans;
mod turns;

pub use procs::{Proc, Stepped};
