//! The law of the application of a message.
ghost use Rattle.std.specs.Prelude.{◌≡◌, ℕ};
ghost use Rattle.plat_base.specs.Seen.{machine};
ghost use Rattle.plat_base.specs.declared.items.Message.{Message};
ghost use Rattle.plat_base.specs.declared.items.Moment.{Moment};
ghost use Rattle.plat_events.specs.Privates.{Onward, Applying};
ghost use Rattle.plat_fine_laws.specs.Keeping.{KeepsShown};

use plat_base::{Config, Policy};

/// Does nothing; its contract is the law of applied messages: whatever a policy answers, the invariant of the shared state holds
/// on where a processor applies the invalidate or restrict that its scan has found in the mask of an entry (Cox and Fowler 1989),
/// be the scan one of an interrupt or one of an activation.
pub fn any_policy_applies<P: Policy>(cfg: &Config, policy: &P)
    ensures { (i : ℕ) (message : Message) (moment : Moment) (onward : Onward)
        → KeepsShown (machine cfg.now) (P.answer policy.now)
        (λ place. place ≡ Applying i message moment onward) }
{}
