//! Proposals, and the policies that they come to.
use plat_base::{Dir, Policy, Verdict};

/// What a policy would say of a fault, frozen pages or not: like `Policy`, but nothing has to be proved of the answer.
pub trait Proposal {
    ghost use Rattle.std.specs.Prelude.{◌≡◌};
    ghost use Rattle.plat_base.specs.Verdicts.{Answer};

    ghost proposed: { Self → Answer };

    /// The verdict; each call answers the same function.
    fn propose(&self, dir: &Dir, last: Option<u32>, now: u32) -> Verdict
        ensures { result ≡ proposed self.now dir.now last now };
}

/// The policy that a proposal comes to: a page that is frozen already is not frozen again, but stays.
#[derive(Clone, Copy, Debug)]
pub struct Proposed<T> {
    pub proposal: T,
}

impl<T: Proposal> Policy for Proposed<T> {
    ghost use Rattle.plat_proposal.specs.Proposals.{answer_of, answer_of-frozen};

    ghost answer = { λ it. answer_of (T.proposed it.proposal) };

    ghost frozen_stays = { λ it. answer_of-frozen (T.proposed it.proposal) };

    fn verdict(&self, dir: &Dir, last: Option<u32>, now: u32) -> Verdict {
        match self.proposal.propose(dir, last, now) {
            Verdict::Freeze if dir.frozen => Verdict::Stay,
            verdict => verdict,
        }
    }
}
