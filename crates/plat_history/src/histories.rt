//! Histories as a text tells them.
ghost use Rattle.std.specs.Prelude.{◌≤◌, length};
ghost use Rattle.plat_base.specs.declared.limits.TheConstants.{MOST_ITEMS};

use plat_base::{Config, Ended, Item, List};

/// A history: its machine, its items in order, and how each processor ended, in rising number. It has at most 2,621,440
/// items. Whether it is a good one is for the judge to say.
#[derive(Debug, Drop)]
pub struct History {
    pub cfg: Config,
    pub items: List<Item>,
    pub ends: List<Ended>,
    pub ghost few: { length items.items ≤ MOST_ITEMS },
}
