//! The search for the first race of a history.
ghost use Rattle.std.specs.Prelude.{◌≡◌, ◌≤◌, length, IfOk, IfNone};
ghost use Rattle.plat_base.specs.declared.limits.TheConstants.{MOST_ITEMS};
ghost use Rattle.plat_base.specs.Seen.{machine};
ghost use Rattle.plat_race.specs.Orders.{AreInRange, EveryOrderIsLegal};
ghost use Rattle.plat_race.specs.Races.{first_race};
ghost use Rattle.plat_race.specs.Tabled.{IsFor};

use crate::pairs::Pair;
use crate::tables::Tables;
use plat_base::{Config, Item, OutOfMemory};
use std::alloc::Global;
use std::marker::Model;

/// A search for the first race of a history. Its tables have one row for each word of the machine, at most 400 KB, and
/// `new` takes all of them. Contracts see the pages and words that it has room for.
#[derive(Debug, Drop)]
pub struct Racer {
    tables: Tables,
}

impl Model for Racer {
    ghost use Rattle.plat_race.specs.Tabled.{Room, AreBlank};

    ghost Value = { Room };

    ghost view = { λ it. record { pages = it.tables.pages; words = it.tables.words } };

    ghost invariant = { λ it. AreBlank it.tables.clocks.items it.tables.adds.items it.tables.accesses.items
        it.tables.writes.items };
}

impl Racer {
    /// A search over histories of this machine. It is the one call here that takes memory.
    pub fn new(alloc: Global, cfg: &Config) -> Result<Racer, OutOfMemory>
        ensures { IfOk result (IsFor (machine cfg.now)) }
    {
        Ok(Racer {
            tables: Tables::new(alloc, cfg)?,
        })
    }

    /// The race with the least second place, and of those the one with the least first place, if there is a race. Two
    /// accesses of different actors to one word conflict where one of them writes; they race unless the earlier is before
    /// the later, by each actor's program order and the order of the fetch-and-adds to one word. Stores order nothing.
    ///
    /// An item costs as much as there are nodes, however long the history is; only the items before the answer are gone
    /// over twice.
    pub fn first(self, cfg: &Config, items: &[Item]) -> Option<Pair>
        requires made { IsFor (machine cfg.now) self }
        requires range { AreInRange (machine cfg.now) items.now }
        requires few { length items.now ≤ MOST_ITEMS }
        ensures first { result ≡ first_race items.now }
        ensures free { IfNone result (EveryOrderIsLegal (machine cfg.now) items.now) }
    {
        let mut tables = self.tables;
        for place in 0..items.len() {
            if let Some(pair) = tables.meet(items, place) {
                return Some(pair);
            }
        }
        None
    }
}
