//! The law of good histories.
ghost use Rattle.plat_base.specs.Histories.{IsOneHistory};
ghost use Rattle.plat_base.specs.Rules.{Good};
ghost use Rattle.plat_base.specs.Seen.{machine};

use plat_base::{Config, Ended, Item, Policy};

/// Does nothing; its contract is the law of good histories: where no item and no end breaks a rule, the accesses are one
/// history of flat memory (Lamport 1979), and each processor's are those of its program. Each goes by a translation that
/// no earlier shootdown removed, to a copy of its page, a write to the only copy, and finds its value in that copy.
pub fn good_history<P: Policy>(cfg: &Config, policy: &P, items: &[Item], ends: &[Ended])
    ensures { Good (machine cfg.now) (P.answer policy.now) items.now ends.now →
        IsOneHistory (machine cfg.now) items.now ends.now }
{}
