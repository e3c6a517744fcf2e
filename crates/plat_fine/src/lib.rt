//! The run of single operations, event by event, on one thread, whichever actor makes each of them. After `Fine::new` nothing
//! takes memory.
#![tactic(auto)]

mod fines;
mod stepping;

pub use fines::Fine;
pub use plat_daemon::Went;
