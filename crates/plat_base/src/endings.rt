//! How processors end, and what a finished run hands out.
ghost use Rattle.std.specs.Prelude.{◌≤◌, length};
ghost use Rattle.plat_base.specs.declared.limits.TheConstants.{MOST_ITEMS};

use crate::configs::Config;
use crate::items::Item;
use crate::lists::List;

/// How a processor's run ended.
#[derive(Clone, Copy, Debug, PartialEq, Eq)]
pub enum End {
    /// Its guest halted, or went past its last instruction.
    Halted,
    /// Its guest reached an address that has no entry in its active space.
    Trapped,
    /// It made as many turns as the budget allows, and its guest goes on.
    Spent,
    /// It faulted on an empty page, and no module had a free frame.
    NoFrames,
    /// It had not ended when the run was cut off.
    Cut,
}

/// A processor's end, and the number of turns that it made. The turn in which it ended is one of them.
#[derive(Clone, Copy, Debug, PartialEq, Eq)]
pub struct Ended {
    pub end: End,
    pub turns: u32,
}

/// A run that is over: its machine, its history, and the processors' ends in rising number.
#[derive(Debug, Drop)]
pub struct Finished {
    pub cfg: Config,
    pub items: List<Item>,
    pub ends: List<Ended>,
    pub ghost within: { length items.items ≤ MOST_ITEMS },
}
