//! How a command ends, and what a judge finds.
use crate::faults::Refused;

/// The rules that a judge checks of a history.
#[derive(Clone, Copy, Debug, PartialEq, Eq)]
pub enum Rule {
    /// An access or switch is the next one of its actor's guest.
    Order,
    /// An access goes by a translation that its actor holds and that no later change has taken away.
    Grant,
    /// An access finds the value of flat memory.
    Legal,
    /// A change follows the page's last one, and is what the protocol decides.
    Chain,
    /// An applied message finds the translation that it was for.
    Held,
    /// The processors' ends and turns are those of their guests.
    Ends,
}

/// The first item that breaks a rule, counted from 0, and that rule. For `Ends` it is the number of items.
#[derive(Clone, Copy, Debug, PartialEq, Eq)]
pub struct Bad {
    pub item: u32,
    pub rule: Rule,
}

/// How a command ended. `docs/FORMATS.md` has its number, and the line that the program writes.
#[derive(Clone, Copy, Debug, PartialEq, Eq)]
pub enum Status {
    Done,
    /// The history that was to be replayed breaks a rule.
    HistoryBad(Bad),
    Refused(Refused),
    /// Some processor found no frame.
    NoFrames,
    /// Some processor spent its budget, and none lacked a frame.
    Spent,
    /// A run of single events made as many as it may, and some processor had not ended.
    EventLimit,
    ReadFault,
    WriteFault,
    OutOfMemory,
    /// The words are no command.
    BadWords,
}
