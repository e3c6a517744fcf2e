//! Shootdowns, one operation at a time: the posts to the entries of a page, the interrupts, and the wait for each target (Cox
//! and Fowler 1989). Nothing here takes memory.
#![tactic(auto)]

mod entries;
mod masks;
mod needs;
mod orders;
mod shoots;
mod steps;
mod targets;

pub use needs::{Need, Own};
pub use shoots::Shoot;
