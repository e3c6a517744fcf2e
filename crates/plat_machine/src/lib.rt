//! Machine texts: reading them, with the place and the reason of the first fault, and printing them.
#![tactic(auto)]

mod bodies;
mod guests;
mod headers;
mod instructions;
mod lists;
mod printing;
mod printing_guests;
mod whole;

pub use printing::print_machine;
pub use whole::{parse, parse_from, read_machine};
