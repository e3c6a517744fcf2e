//! Small machines and what runs on them, for the tests of the crates above. No code but tests uses them.
#![tactic(auto)]

mod guests;
mod machines;
mod policies;
mod shootdowns;

pub use guests::{
    guest, idle, idle_guests, listed, one_guest, reading, three_guests, two_guests, writing,
};
pub use machines::{Sizes, adding, entry, idle_nodes, sharing, small, two_nodes};
pub use policies::AtMost;
pub use shootdowns::{
    access, both_copies, collapsed, copied, filled, first_copy, frame, halted, history, interrupt,
    no_copy,
};
