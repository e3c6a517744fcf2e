//! The law of the operations of a session on its page.
ghost use Rattle.std.specs.Prelude.{IsTrue};
ghost use Rattle.plat_base.specs.Seen.{machine};
ghost use Rattle.plat_fine_laws.specs.Keeping.{KeepsShown};
ghost use Rattle.plat_session_laws.specs.Handling.{handles_page};

use plat_base::{Config, Policy};

/// Does nothing; its contract is the law of the operations of a session on its page: whatever a policy answers, the invariant
/// of the shared state holds on behind the lock of a directory (found clear, so that a session begins, or set, so that its
/// actor polls and locks again), the load of the page's stamp, its store, the grant of a processor's reference, and the unlock
/// of a page that stays as it was. The unlock with a change is not among them.
pub fn any_policy_sessions<P: Policy>(cfg: &Config, policy: &P)
    ensures { KeepsShown (machine cfg.now) (P.answer policy.now) (λ place. IsTrue (handles_page place)) }
{}
