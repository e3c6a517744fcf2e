//! The law of the operations of shootdowns.
ghost use Rattle.std.specs.Prelude.{IsTrue};
ghost use Rattle.plat_base.specs.Seen.{machine};
ghost use Rattle.plat_fine_laws.specs.Keeping.{KeepsShown};
ghost use Rattle.plat_shootdown_laws.specs.Shooting.{shoots};

use plat_base::{Config, Policy};

/// Does nothing; its contract is the law of the operations of shootdowns (Cox and Fowler 1989): whatever a policy answers,
/// the invariant of the shared state holds on behind every look at a mask before a post, which finds a reference or counts as
/// posted; every post, made or lost to a mask that has changed; every look at the active space of a target, before its
/// interrupt and while it is waited for; every interrupt; and every look at a mask for a target's messages, with the last
/// target that is passed.
pub fn any_policy_shoots<P: Policy>(cfg: &Config, policy: &P)
    ensures { KeepsShown (machine cfg.now) (P.answer policy.now) (λ place. IsTrue (shoots place)) }
{}
