//! How commands end.
ghost use Rattle.std.specs.Prelude.{◌≡◌, [], None};
ghost use Rattle.plat_base.specs.Statuses.{status_of as status_of_ends};
ghost use Rattle.plat_base.specs.Statuses.{ends_as};
ghost use Rattle.plat_cmd.specs.Steps.{stop_status, status_after};

use plat_base::{End, Ended, Item, List, Refused, Status};
use plat_io::WriteFault;
use plat_table::Closed;
use std::alloc::Global;

/// Why no machine was read.
#[derive(Clone, Copy, Debug, PartialEq, Eq)]
pub enum Stop {
    /// The text is none of a machine; this is its first fault.
    Refused(Refused),
    /// The source failed.
    ReadFault,
    OutOfMemory,
}

/// How a command ended, the history that it kept, and what its threads left. A command that made no run kept none, and only a run
/// on threads leaves something.
#[derive(Debug, Drop)]
pub struct Outcome {
    pub status: Status,
    pub kept: List<Item>,
    pub ran: Option<Closed>,
}

/// The outcome of a command that made no run.
pub fn without_run(alloc: Global, status: Status) -> Outcome
    ensures status { result.status ≡ status }
    ensures kept { result.kept.items ≡ [] }
    ensures ran { result.ran ≡ None }
{
    Outcome {
        status,
        kept: List::new(alloc),
        ran: None,
    }
}

/// The status of a command that stopped so.
pub fn stop_status(stop: Stop) -> Status
    ensures { result ≡ stop_status stop }
{
    match stop {
        Stop::Refused(refused) => Status::Refused(refused),
        Stop::ReadFault => Status::ReadFault,
        Stop::OutOfMemory => Status::OutOfMemory,
    }
}

/// Whether some processor ended so.
fn ends_as(ends: &[Ended], end: End) -> bool
    ensures { result ≡ ends_as end ends.now }
{
    ends.iter().any(|ended| ended.end == end)
}

/// The status of a run whose processors ended so. Where the run is limited, a processor whose end is cut tells that the limit of
/// events was reached.
pub fn status_of(ends: &[Ended], limited: bool) -> Status
    ensures { result ≡ status_of_ends ends.now limited }
{
    if limited && ends_as(ends, End::Cut) {
        Status::EventLimit
    } else if ends_as(ends, End::NoFrames) {
        Status::NoFrames
    } else if ends_as(ends, End::Spent) {
        Status::Spent
    } else {
        Status::Done
    }
}

/// The status of a command that has the status `complete` once all is written.
pub fn status_after(complete: Status, written: Result<(), WriteFault>) -> Status
    ensures { result ≡ status_after complete written }
{
    match written {
        Ok(()) => complete,
        Err(_) => Status::WriteFault,
    }
}
