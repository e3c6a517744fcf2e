//! The law of the exchange of a data word.
ghost use Rattle.std.specs.Prelude.{◌≡◌, ℕ};
ghost use Rattle.plat_base.specs.Seen.{machine};
ghost use Rattle.plat_events.specs.Privates.{Exchanging};
ghost use Rattle.plat_fine_laws.specs.Keeping.{KeepsShown};

use plat_base::{Config, Policy};

/// Does nothing; its contract is the law of stores and fetch-and-adds: whatever a policy answers, the invariant of the shared
/// state holds on behind every exchange of a data word, whether it finds the word that the processor saw before, and writes,
/// or another one.
pub fn any_policy_writes<P: Policy>(cfg: &Config, policy: &P)
    ensures { (seen : ℕ)
        → KeepsShown (machine cfg.now) (P.answer policy.now) (λ place. place ≡ Exchanging seen) }
{}
