//! Where the guest of each processor stands after the accesses and switches that a history has so far. A guest is run
//! forward once, so that what it wants next, and how it can have ended, is known at once.
#![tactic(auto)]

mod followers;
mod processors;
mod stops;
mod wanted;

pub use followers::Follower;
pub use processors::Followers;
pub use stops::Stop;
pub use wanted::{Wanted, WantedAccess};
