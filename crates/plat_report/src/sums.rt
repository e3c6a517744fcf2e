//! All that a report says of the items of a history: flat memory, and what is counted.
ghost use Rattle.std.specs.Prelude.{◌≡◌, ℕ, true, List as Many, [], ◌∷◌, ◌++◌, slice_index_or};
ghost use Rattle.plat_base.specs.Machine.{Machine};
ghost use Rattle.plat_base.specs.Seen.{machine};
ghost use Rattle.plat_base.specs.declared.items.Item.{Item as AnyItem};
ghost use Rattle.plat_flat.specs.FlatSeen.{IsFlatOf, is_legal_item};
ghost use Rattle.plat_report.specs.Actors.{no_counts, CountRoom};
ghost use Rattle.plat_report.specs.Counts.{TotalRoom};
ghost use Rattle.plat_report.specs.Sums.{ShowsSums};

use crate::actors::{ActorCounts, take_in};
use crate::totals::Totals;
use plat_base::{Config, Item, MODULES};
use plat_flat::Flat;

/// Flat memory, the counts of the whole history, and those of each processor, by its number. Each is kept up item by
/// item, so that one pass over a history gives them all.
#[derive(Debug, Drop)]
pub(crate) struct Sums {
    pub flat: Flat,
    pub totals: Totals,
    pub actors: [ActorCounts; MODULES as usize],
}

impl Sums {
    /// The sums of no items.
    pub(crate) fn new(flat: Flat) -> Sums
        ensures { (m : Machine) → IsFlatOf m [] flat → ShowsSums m [] result }
    {
        let totals = Totals::none();
        let counts = ActorCounts::none();
        Sums {
            flat,
            totals,
            actors: [counts; MODULES as usize],
        }
    }

    /// Takes one more item in.
    pub(crate) fn take_in(&mut self, cfg: &Config, item: &Item)
        requires totals { TotalRoom self.old.totals }
        requires counts { (q : ℕ) → CountRoom (slice_index_or self.old.actors q no_counts) }
        ensures { (items : Many AnyItem) → ShowsSums (machine cfg.now) items self.old →
            is_legal_item (machine cfg.now) items item.now ≡ true →
            ShowsSums (machine cfg.now) (items ++ item.now ∷ []) self.new }
    {
        self.flat.apply(item);
        self.totals.count(item);
        take_in(cfg, &mut self.actors, item);
    }
}
