//! Costs of a page: what its accesses and copies really cost, and the least cost of a single copy that may move; and the
//! text of the costs of a history.
#![tactic(auto)]

mod bounds;
mod costs;
mod distances;
mod laws;
mod placers;
mod printing;
mod rests;

pub use bounds::check_bound;
pub use laws::one_best_plan;
pub use placers::{Placed, Placer};
pub use printing::print_costs;
