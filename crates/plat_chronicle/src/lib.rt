//! A history so far, and the present value of all that is asked of it, at a cost that does not grow with the history.
#![tactic(auto)]

mod chronicle;
mod pages;
mod present;
mod removals;
mod rights;
mod spaces;
mod translations;

pub use chronicle::Chronicle;
pub use present::Present;
pub use rights::has_right;
