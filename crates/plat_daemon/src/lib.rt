//! The daemon of the machine of single operations, which thaws frozen pages from time to time (Cox and Fowler 1989): one
//! operation on a shared word at a time, through any port. After `Daemon::new` nothing takes memory.
#![tactic(auto)]

mod daemons;

pub use daemons::{Daemon, Went};
