//! Placement: the verdicts of the policies, the copy that is nearest to a node, and the table of protocol actions.
#![tactic(auto)]

mod conditions;
mod decisions;
mod distances;
mod placements;
mod rows;

pub use conditions::{is_dir, may_decide};
pub use decisions::decide;
pub use distances::{distance, nearest};
pub use placements::{Place, Platinum, Replicate};
