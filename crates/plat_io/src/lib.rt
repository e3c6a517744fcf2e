//! Sources and sinks of bytes: the traits, those in memory, adapters over std's readers and writers, and loops that read
//! to the end, write all of a piece, or write lines of words.
#![tactic(auto)]

pub mod adapters;
pub mod faults;
pub mod lines;
pub mod memory;
pub mod quiet;
pub mod reading;
pub mod sinks;
pub mod sources;
pub mod writing;

pub use adapters::{StdSink, StdSource};
pub use faults::{Failed, ReadStop, WriteFault};
pub use lines::{Word, write_line, write_list_line};
pub use memory::{MemorySink, MemorySource};
pub use quiet::{QuietSink, QuietSource};
pub use reading::read_all;
pub use sinks::Sink;
pub use sources::Source;
pub use writing::write_all;
