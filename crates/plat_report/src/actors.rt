//! What is counted of each processor: its accesses, and the hits and misses of its cache.
ghost use Rattle.std.specs.Prelude.{◌≡◌, ℕ, ◌<◌, length, slice_index_or};
ghost use Rattle.plat_base.specs.Seen.{machine};
ghost use Rattle.plat_report.specs.Actors.{actor_of as actor_of_item, no_counts, with_item, CountRoom};

use crate::caches::CacheCounts;
use crate::counts::AccessCounts;
use plat_base::{Config, Item};

/// What is counted of one processor.
#[derive(Clone, Copy, Debug)]
pub(crate) struct ActorCounts {
    pub accesses: AccessCounts,
    pub cache: CacheCounts,
}

/// The actor of an item.
fn actor_of(item: &Item) -> u32
    ensures { result ≡ actor_of_item item.now }
{
    match item {
        Item::Access(access) => access.actor,
        Item::Change(change) => change.actor,
        Item::Applied(applied) => applied.actor,
        Item::Switch(switch) => switch.actor,
    }
}

impl ActorCounts {
    /// The counts of no items.
    pub(crate) fn none() -> ActorCounts
        ensures { result ≡ no_counts }
    {
        ActorCounts {
            accesses: AccessCounts::none(),
            cache: CacheCounts::empty(),
        }
    }

    /// Takes an item in, if it is one of processor `q`.
    fn take_in(&mut self, cfg: &Config, q: u32, item: &Item)
        requires { CountRoom self.old }
        ensures { self.new ≡ with_item (machine cfg.now) q self.old item.now }
    {
        self.accesses.count(q, item);
        self.cache.take_in(cfg, q, item);
    }
}

/// Takes an item in: it changes what is counted of its actor, and of no other processor.
pub(crate) fn take_in(cfg: &Config, counts: &mut [ActorCounts], item: &Item)
    requires { (q : ℕ) → CountRoom (slice_index_or counts.old q no_counts) }
    ensures size { length counts.new ≡ length counts.old }
    ensures at { (q : ℕ) → q < length counts.old → slice_index_or counts.new q no_counts
        ≡ with_item (machine cfg.now) q (slice_index_or counts.old q no_counts) item.now }
{
    let actor = actor_of(item);
    let at = actor as usize;
    if at < counts.len() {
        let own = &mut counts[at];
        own.take_in(cfg, actor, item);
    }
}
