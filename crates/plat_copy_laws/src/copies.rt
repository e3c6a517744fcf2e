//! The copies of a page at every event of a run.
ghost use Rattle.std.specs.Prelude.{ℕ, List};
ghost use Rattle.plat_base.specs.Seen.{machine};
ghost use Rattle.plat_events.specs.Runs.{fine_start, run, AllLive};
ghost use Rattle.plat_copy_laws.specs.Coherence.{ReachesCurrent, AreApart, ShootdownsRemove, OwesNothing};

use plat_base::{Config, Policy};

/// Does nothing. Its contract is the law of copies, over the definitions and for every policy, after each event of each run
/// of live actors, whatever sessions are in flight. Every translation that a processor may reach a frame by leads to a frame
/// with the words of flat memory. No frame is a kept copy of two pages, or of one page and free. A processor that a shootdown
/// has passed can use nothing that the shootdown removes. A processor with a session on a page owes nothing on that page.
pub fn any_policy_copies<P: Policy>(cfg: &Config, policy: &P)
    ensures current { let m = machine cfg.now in let answer = P.answer policy.now in (who : List ℕ)
        → AllLive m answer (fine_start m) who → ReachesCurrent m answer (run m answer who) }
    ensures apart { let m = machine cfg.now in let answer = P.answer policy.now in (who : List ℕ)
        → AllLive m answer (fine_start m) who → AreApart m answer (run m answer who) }
    ensures passed { let m = machine cfg.now in let answer = P.answer policy.now in (who : List ℕ)
        → AllLive m answer (fine_start m) who → ShootdownsRemove m answer (run m answer who) }
    ensures initiator { let m = machine cfg.now in let answer = P.answer policy.now in (who : List ℕ)
        → AllLive m answer (fine_start m) who → OwesNothing m (run m answer who) }
{}
