//! A policy that no machine text names.
use plat_base::{Dir, Policy, Verdict};

/// A page has at most so many copies: it is copied while it has fewer, and then it stays.
#[derive(Clone, Copy)]
pub struct AtMost {
    pub copies: u32,
}

impl Policy for AtMost {
    ghost use Rattle.plat_samples.specs.AtMost.{at_most, at_most-frozen};

    ghost answer = { λ it. at_most it.copies };

    ghost frozen_stays = { λ it. at_most-frozen it.copies };

    fn verdict(&self, dir: &Dir, _last: Option<u32>, _now: u32) -> Verdict {
        if dir.copies.count() < self.copies {
            Verdict::Move
        } else {
            Verdict::Stay
        }
    }
}
