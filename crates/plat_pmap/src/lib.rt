//! The private translations of a processor: its physical map, and the cache of translations in front of it.
#![tactic(auto)]

mod atcs;
mod pmaps;

pub use atcs::{Atc, Look, Slot};
pub use pmaps::Pmap;
