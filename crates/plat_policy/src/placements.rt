//! The three placement policies, each as a type of its own.
ghost use Rattle.std.specs.Prelude.{◌≡◌};
ghost use Rattle.plat_base.specs.Verdicts.{is_recent};

use plat_base::{Dir, Policy, Verdict};

/// Never moves a page that has a copy.
#[derive(Clone, Copy, Debug, PartialEq, Eq)]
pub struct Place;

/// Moves a page at each fault, where there is a frame.
#[derive(Clone, Copy, Debug, PartialEq, Eq)]
pub struct Replicate;

/// Moves a page unless it was invalidated within the last `t1` ticks: then it freezes the page, which stays until it is
/// thawed (Cox and Fowler 1989). `t2` is the daemon's period; no verdict looks at it.
#[derive(Clone, Copy, Debug, PartialEq, Eq)]
pub struct Platinum {
    pub t1: u32,
    pub t2: u32,
}

impl Policy for Place {
    ghost use Rattle.plat_base.specs.Verdicts.{policy_answer, policy_answer-frozen};
    ghost use Rattle.plat_base.specs.declared.policies.PolicyKind.TheVariants as kind;

    ghost answer = { λ it. policy_answer kind.Place };

    ghost frozen_stays = { λ it. policy_answer-frozen kind.Place };

    fn verdict(&self, _dir: &Dir, _last: Option<u32>, _now: u32) -> Verdict {
        Verdict::Stay
    }
}

impl Policy for Replicate {
    ghost use Rattle.plat_base.specs.Verdicts.{policy_answer, policy_answer-frozen};
    ghost use Rattle.plat_base.specs.declared.policies.PolicyKind.TheVariants as kind;

    ghost answer = { λ it. policy_answer kind.Replicate };

    ghost frozen_stays = { λ it. policy_answer-frozen kind.Replicate };

    fn verdict(&self, _dir: &Dir, _last: Option<u32>, _now: u32) -> Verdict {
        Verdict::Move
    }
}

impl Policy for Platinum {
    ghost use Rattle.plat_base.specs.Verdicts.{policy_answer, policy_answer-frozen};
    ghost use Rattle.plat_base.specs.declared.policies.PolicyKind.TheVariants as kind;

    ghost answer = { λ it. policy_answer (kind.Platinum it.t1 it.t2) };

    ghost frozen_stays = { λ it. policy_answer-frozen (kind.Platinum it.t1 it.t2) };

    fn verdict(&self, dir: &Dir, last: Option<u32>, now: u32) -> Verdict {
        if dir.frozen {
            Verdict::Stay
        } else if is_recent(self.t1, last, now) {
            Verdict::Freeze
        } else {
            Verdict::Move
        }
    }
}

/// Whether the last invalidation, if any, is less than `t1` ticks ago. A tick before it counts as recent.
fn is_recent(t1: u32, last: Option<u32>, now: u32) -> bool
    ensures { result ≡ is_recent t1 last now }
{
    last.is_some_and(|tick| u64::from(now) < u64::from(tick) + u64::from(t1))
}
