//! History texts: reading them, with the place and the reason of the first fault, and printing them.
#![tactic(auto)]

mod directories;
mod end_lines;
mod histories;
mod item_lines;
mod names;
mod printing;
mod reading;
mod written_names;
mod written_words;

pub use histories::History;
pub use printing::print_items;
pub use reading::read_history;
