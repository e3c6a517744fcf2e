//! Ports: one operation on one shared word for each call. A port may tell its words, or the private state of the actor that
//! it serves.
#![tactic(auto)]

mod ports;
mod record_ports;
mod vec_ports;

pub use ports::WordPort;
pub use record_ports::{Made, RecordPort};
pub use vec_ports::VecPort;
