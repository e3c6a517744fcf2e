//! Laws of the generated machines, proved of the definitions alone.
#![tactic(auto)]

mod runs;

pub use runs::generated_run;
