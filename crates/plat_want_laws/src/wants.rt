//! Processors that end for want of a frame.
ghost use Rattle.std.specs.Prelude.{◌≡◌, ◌<◌, ℕ, List, Some, slice_get};
ghost use Rattle.plat_base.specs.Seen.{machine};
ghost use Rattle.plat_base.specs.declared.endings.End.TheVariants.{NoFrames};
ghost use Rattle.plat_base.specs.declared.endings.Ended.{Ended};
ghost use Rattle.plat_events.specs.Kept.{private_of};
ghost use Rattle.plat_events.specs.Runs.{run, ends_of};
ghost use Rattle.plat_events.specs.Shown.{goes_to};
ghost use Rattle.plat_want_laws.specs.Emptied.{emptied, HasEachModule};

use plat_base::{Config, Policy};

/// Does nothing. Its contract is the law of want, over the definitions and for every policy, of each run by a list of actors
/// in whatever order they come, where an actor that has ended makes no event. A processor is on its way to its end as
/// NoFrames, or has ended so, only where it has found the pool of every module to be 0 in the fault that it ends in.
pub fn any_policy_wants<P: Policy>(cfg: &Config, policy: &P)
    ensures goes { let m = machine cfg.now in let answer = P.answer policy.now in (who : List ℕ) (q : ℕ)
        → q < m.nodes → goes_to (private_of m (run m answer who) q).place ≡ Some NoFrames
        → HasEachModule m (emptied m answer q who) }
    ensures ends { let m = machine cfg.now in let answer = P.answer policy.now in (who : List ℕ) (q : ℕ)
        (e : Ended) → q < m.nodes → slice_get (ends_of m (run m answer who).privates) q ≡ Some e
        → e.end ≡ NoFrames → HasEachModule m (emptied m answer q who) }
{}
