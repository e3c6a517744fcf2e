//! Sessions, one operation at a time: what an actor does from the lock of a page to its unlock, for a fault or for a thaw (Cox
//! and Fowler 1989). Nothing here takes memory.
#![tactic(auto)]

mod asks;
mod courses;
mod decisions;
mod faults;
mod handlers;
mod modules;
mod operations;
mod phases;
mod sessions;

pub use asks::Ask;
pub use faults::Fault;
pub use handlers::Handler;
pub use plat_shoot::Own;
