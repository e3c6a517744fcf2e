//! The laws of states with the invariant.
ghost use Rattle.std.specs.Prelude.{◌≡◌, ◌<◌, ℕ, true, IsTrue};
ghost use Rattle.plat_base.specs.Seen.{machine};
ghost use Rattle.plat_events.specs.Places.{entry_count};
ghost use Rattle.plat_events.specs.Views.{view};
ghost use Rattle.plat_events.specs.Runs.{Fine, fine_start};
ghost use Rattle.plat_events.specs.Shown.{Shows};
ghost use Rattle.plat_views.specs.Facts.{ViewFacts};
ghost use Rattle.plat_fine_laws.specs.Keeping.{KeepsShown};
ghost use Rattle.plat_fine_laws.specs.Outside.{is_outside};

use plat_base::{Config, Policy};

/// Does nothing; its contract is what is known of the invariant of the shared state, whatever a policy answers: it holds at
/// the start, what a processor sees of an entry has the facts that the steps of views ask for, and every operation that
/// writes no word of a page, an entry, a pool or a frame, and leaves translations and sessions alone, keeps it: polls, looks
/// of scans, ticks, switches, loads of data words, the load before a write, the last two operations of a processor, and the
/// daemon's looks at the time and at who is live.
pub fn any_policy_shows<P: Policy>(cfg: &Config, policy: &P)
    ensures start { Shows (machine cfg.now) (P.answer policy.now) (fine_start (machine cfg.now)) }
    ensures facts { (s : Fine) (q e : ℕ) → Shows (machine cfg.now) (P.answer policy.now) s
        → q < (machine cfg.now).nodes → e < entry_count (machine cfg.now)
        → ViewFacts (view (machine cfg.now) (P.answer policy.now) s q e) }
    ensures kept { KeepsShown (machine cfg.now) (P.answer policy.now) (λ place. IsTrue (is_outside place)) }
{}
