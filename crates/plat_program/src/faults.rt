//! The statuses of the program as numbers, and as lines on standard error.
ghost use Rattle.std.specs.Prelude.{◌≡◌};
ghost use Rattle.plat_program.specs.Said.{number, said};

use plat_base::{Rule, Status, Why};
use thiserror::Error;

/// What the program says of a status other than Done.
#[derive(Debug, Drop, Error)]
pub enum Fault {
    #[error("item {item} breaks {rule:?}")]
    History { item: u32, rule: Rule },
    #[error("line {line} column {column}: {why:?}")]
    Refused { line: u32, column: u32, why: Why },
    #[error("a processor found no frame")]
    NoFrames,
    #[error("a processor spent its budget")]
    Spent,
    #[error("event limit reached")]
    EventLimit,
    #[error("input could not be read")]
    ReadFault,
    #[error("output could not be written")]
    WriteFault,
    #[error("out of memory")]
    OutOfMemory,
    #[error("bad words")]
    BadWords,
}

/// What the program says of this status, if it is not Done.
pub fn fault_of(status: Status) -> Option<Fault>
    ensures { result ≡ said status }
{
    match status {
        Status::Done => None,
        Status::HistoryBad(bad) => Some(Fault::History {
            item: bad.item,
            rule: bad.rule,
        }),
        Status::Refused(refused) => Some(Fault::Refused {
            line: refused.line,
            column: refused.column,
            why: refused.why,
        }),
        Status::NoFrames => Some(Fault::NoFrames),
        Status::Spent => Some(Fault::Spent),
        Status::EventLimit => Some(Fault::EventLimit),
        Status::ReadFault => Some(Fault::ReadFault),
        Status::WriteFault => Some(Fault::WriteFault),
        Status::OutOfMemory => Some(Fault::OutOfMemory),
        Status::BadWords => Some(Fault::BadWords),
    }
}

/// The number that the program ends with, as `docs/FORMATS.md` has it.
pub fn number_of(status: Status) -> u8
    ensures { result ≡ number status }
{
    match status {
        Status::Done => 0,
        Status::HistoryBad(_) => 1,
        Status::Refused(_) => 2,
        Status::NoFrames => 3,
        Status::Spent => 4,
        Status::EventLimit => 5,
        Status::ReadFault => 6,
        Status::WriteFault => 7,
        Status::OutOfMemory => 8,
        Status::BadWords => 9,
    }
}
