//! The memory that a report needs.
ghost use Rattle.plat_base.specs.declared.limits.TheConstants.{MOST_ITEMS};
ghost use Rattle.std.specs.Prelude.{◌≤◌, [], length, IfOk};
ghost use Rattle.plat_base.specs.Seen.{machine};
ghost use Rattle.plat_flat.specs.FlatSeen.{IsFlatOf};
ghost use Rattle.plat_report.specs.Flats.{AreLegal};
ghost use Rattle.plat_report.specs.Sums.{ShowsSums};

use crate::sums::Sums;
use plat_base::{Config, Item, OutOfMemory};
use plat_flat::Flat;
use std::alloc::Global;
use std::marker::Model;

/// All the memory that a report needs: the flat memory of a machine before the first item, which is what contracts see
/// of it. Guests, counts and caches are small, and take none.
#[derive(Debug, Drop)]
pub struct Tally {
    flat: Flat,
}

impl Model for Tally {
    ghost use Rattle.plat_flat.specs.FlatSeen.{FlatSeen};

    ghost Value = { FlatSeen };

    ghost view = { λ it. it.flat };
}

impl Tally {
    /// The memory for a report on a machine. It fails only for want of memory, and is the one call here that takes any.
    pub fn new(alloc: Global, cfg: &Config) -> Result<Tally, OutOfMemory>
        ensures { IfOk result (λ tally. IsFlatOf (machine cfg.now) [] tally) }
    {
        Ok(Tally {
            flat: Flat::new(alloc, cfg)?,
        })
    }

    /// The sums of these items, in one pass over them. It takes no memory.
    pub(crate) fn after(self, cfg: &Config, items: &[Item]) -> Sums
        requires made { IsFlatOf (machine cfg.now) [] self }
        requires few { length items.now ≤ MOST_ITEMS }
        requires legal { AreLegal (machine cfg.now) items.now }
        ensures { ShowsSums (machine cfg.now) items.now result }
    {
        let mut sums = Sums::new(self.flat);
        for item in items {
            sums.take_in(cfg, item);
        }
        sums
    }
}
