//! The law of the unlock of a page with a change.
ghost use Rattle.std.specs.Prelude.{IsTrue};
ghost use Rattle.plat_base.specs.Seen.{machine};
ghost use Rattle.plat_fine_laws.specs.Keeping.{KeepsShown};
ghost use Rattle.plat_unlock_laws.specs.Unlocking.{unlocks_changed};

use plat_base::{Config, Policy};

/// Does nothing; its contract is the law of the unlock with a change: whatever a policy answers, the invariant of the shared
/// state holds on behind the operation by which an actor, a processor or the daemon, stores the directory that it decided
/// and clears the lock of its page.
pub fn any_policy_unlocks<P: Policy>(cfg: &Config, policy: &P)
    ensures { KeepsShown (machine cfg.now) (P.answer policy.now) (λ place. IsTrue (unlocks_changed place)) }
{}
