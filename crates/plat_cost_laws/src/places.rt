//! The law that the pages of a good history can be placed.
ghost use Rattle.plat_base.specs.Rules.{Good};
ghost use Rattle.plat_base.specs.Seen.{machine};
ghost use Rattle.plat_cost.specs.Costs.{CanPlace};

use plat_base::{Config, Ended, Item, Policy};

/// Does nothing; its contract is the law that each page of a good history can be placed: an access is by a processor to a
/// module of the machine, a copy is made by a processor from one that was there before, and a page has no more accesses
/// than all processors have turns.
pub fn good_places<P: Policy>(cfg: &Config, policy: &P, items: &[Item], ends: &[Ended])
    ensures { Good (machine cfg.now) (P.answer policy.now) items.now ends.now →
        CanPlace (machine cfg.now) items.now }
{}
