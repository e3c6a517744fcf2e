//! Laws of costs, proved of the definitions alone.
#![tactic(auto)]

mod places;

pub use places::good_places;
