//! What a run means, and that no policy changes it.
ghost use Rattle.std.specs.Prelude.{◌≡◌, ℕ};
ghost use Rattle.plat_base.specs.Rules.{HasEnoughFrames};
ghost use Rattle.plat_base.specs.Schedule.{coarse_run, scheduled};
ghost use Rattle.plat_base.specs.Seen.{machine};
ghost use Rattle.plat_policy_laws.specs.FlatRun.{flat_run, flat_meaning};
ghost use Rattle.plat_policy_laws.specs.Meaning.{meaning, StarvesNobody, DifferInPolicy};

use plat_base::{Config, Policy};

/// Does nothing. Its contract is the law of what a policy cannot change: where each module has a frame for every page,
/// the coarse runs of one machine under two policies mean the same, at their end and after however many turns. They make
/// the same accesses and switches in one common order, with the same values; their guests stand at the same places, with
/// the same registers, and printed the same; memory is the same, and each processor ended alike. What differs is the cost:
/// the copies that accesses went to, the changes of pages, and the messages. With fewer frames that is so of two runs
/// which end no processor for want of a frame, and each such run means what the guests do on flat memory alone.
pub fn any_two_policies<P: Policy, Q: Policy>(cfg: &Config, policy: &P, other: &Q)
    ensures same { let m = machine cfg.now in HasEnoughFrames m
        → meaning m (coarse_run m (P.answer policy.now)) ≡ meaning m (coarse_run m (Q.answer other.now)) }
    ensures between { let m = machine cfg.now in HasEnoughFrames m → (turns : ℕ)
        → meaning m (scheduled m (P.answer policy.now) turns).coarse
        ≡ meaning m (scheduled m (Q.answer other.now) turns).coarse }
    ensures scarce { let m = machine cfg.now in let run = coarse_run m (P.answer policy.now)
        in let run_of_other = coarse_run m (Q.answer other.now)
        in StarvesNobody m run → StarvesNobody m run_of_other → meaning m run ≡ meaning m run_of_other }
    ensures flat { let m = machine cfg.now in let run = coarse_run m (P.answer policy.now)
        in StarvesNobody m run → meaning m run ≡ flat_meaning m (flat_run m) }
{}

/// Does nothing. Its contract is the same law of two machine texts that differ in the policy which they name, and so maybe
/// in the period of the daemon: as where one text is run under each policy of a list.
pub fn any_two_texts<P: Policy, Q: Policy>(cfg: &Config, policy: &P, other_cfg: &Config, other: &Q)
    ensures same { let m = machine cfg.now in let n = machine other_cfg.now
        in DifferInPolicy m n → HasEnoughFrames m
        → meaning m (coarse_run m (P.answer policy.now)) ≡ meaning n (coarse_run n (Q.answer other.now)) }
    ensures scarce { let m = machine cfg.now in let n = machine other_cfg.now
        in let run = coarse_run m (P.answer policy.now) in let run_of_other = coarse_run n (Q.answer other.now)
        in DifferInPolicy m n → StarvesNobody m run → StarvesNobody n run_of_other
        → meaning m run ≡ meaning n run_of_other }
{}
