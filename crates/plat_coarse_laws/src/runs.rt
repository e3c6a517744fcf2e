//! The law of whole coarse runs.
ghost use Rattle.std.specs.Prelude.{◌≤◌, ℕ, length};
ghost use Rattle.plat_base.specs.Histories.{AtEachAccess};
ghost use Rattle.plat_base.specs.Runs.{IsCoherentRun, IsOver};
ghost use Rattle.plat_base.specs.Coherent.{FindsFrameWord, IsCoherent};
ghost use Rattle.plat_base.specs.Schedule.{coarse_run, scheduled};
ghost use Rattle.plat_base.specs.Seen.{machine};
ghost use Rattle.plat_coarse_laws.specs.Room.{room};

use plat_base::{Config, Policy};

/// Does nothing; its contract is the law of coarse runs: whatever a policy answers, the run of a machine breaks no rule
/// and is one history of flat memory. No processor is spent whose guest halts or traps within the budget on the values that
/// it gets, and none ends for want of a frame where each module has one for every page. Each access finds its value in the
/// frame that it goes to; between turns the translations in use lead to current copies, and pages share no frame. Every
/// processor ends, and the history has a bound.
pub fn any_policy_coarse<P: Policy>(cfg: &Config, policy: &P)
    ensures coherent { let run = coarse_run (machine cfg.now) (P.answer policy.now)
        in IsCoherentRun (machine cfg.now) (P.answer policy.now) run.history run.ends }
    ensures frames { let run = coarse_run (machine cfg.now) (P.answer policy.now)
        in AtEachAccess run.history (FindsFrameWord (machine cfg.now)) }
    ensures between { (turns : ℕ)
        → IsCoherent (machine cfg.now) (scheduled (machine cfg.now) (P.answer policy.now) turns).coarse }
    ensures over { let run = coarse_run (machine cfg.now) (P.answer policy.now)
        in IsOver (machine cfg.now) run.ends }
    ensures bound { let run = coarse_run (machine cfg.now) (P.answer policy.now)
        in length run.history ≤ room (machine cfg.now) }
{}
