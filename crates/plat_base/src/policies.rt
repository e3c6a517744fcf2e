//! Placement policies: the verdict on a fault, and the decision that follows from it.
ghost use Rattle.std.specs.Prelude.{◌≡◌};
ghost use Rattle.plat_base.specs.Verdicts.{policy_answer};

use crate::frames::{Dir, Frame};
use crate::items::{Action, Removed};

/// What a policy says of a fault on a node that has no copy of the page.
#[derive(Clone, Copy, Debug, PartialEq, Eq)]
pub enum Verdict {
    /// The copies stay where they are, and one of them is mapped remotely.
    Stay,
    /// The same, and the page is frozen.
    Freeze,
    /// The page gets a copy on the node, where the node has a free frame.
    Move,
}

/// A placement policy: a function of a page's directory, the time of the last invalidation by the protocol, if any, and
/// the present tick (Cox and Fowler 1989). It never freezes a page that is frozen.
pub trait Policy {
    ghost use Rattle.std.specs.Prelude.{ℕ, Option, ◌≢◌, IsTrue};
    ghost use Rattle.plat_base.specs.declared.frames.Dir.{Dir};
    ghost use Rattle.plat_base.specs.declared.policies.Verdict.{Verdict};
    ghost use Rattle.plat_base.specs.declared.policies.Verdict.TheVariants as verdict;

    ghost answer: { Self → Dir → Option ℕ → ℕ → Verdict };

    /// The verdict; each call answers the same function.
    fn verdict(&self, dir: &Dir, last: Option<u32>, now: u32) -> Verdict
        ensures { result ≡ answer self.now dir.now last now };

    ghost frozen_stays: { (p : Self) (dir : Dir) (last : Option ℕ) (now : ℕ) → IsTrue dir.frozen →
        answer p dir last now ≢ verdict.Freeze };
}

/// The policies that a machine text can name. A tick is one turn of any processor.
#[derive(Clone, Copy, Debug, PartialEq, Eq)]
pub enum PolicyKind {
    /// A page stays where it was touched first.
    Place,
    /// A fault on a node without a copy brings the page there, where the node has a free frame.
    Replicate,
    /// A page whose last invalidation is less than `t1` ticks old is frozen, and other pages move; a daemon thaws the
    /// frozen pages every `t2` ticks (Cox and Fowler 1989). `t1` is 0 to 1,000,000, and `t2` 64 to 1,000,000.
    Platinum { t1: u32, t2: u32 },
}

impl Policy for PolicyKind {
    ghost use Rattle.plat_base.specs.Verdicts.{policy_answer, policy_answer-frozen};

    ghost answer = { policy_answer };

    ghost frozen_stays = { policy_answer-frozen };

    fn verdict(&self, dir: &Dir, last: Option<u32>, now: u32) -> Verdict {
        match *self {
            PolicyKind::Place => Verdict::Stay,
            PolicyKind::Replicate => Verdict::Move,
            PolicyKind::Platinum { t1, .. } => {
                let now = u64::from(now);
                let is_recent = last.is_some_and(|tick| now < u64::from(tick) + u64::from(t1));
                if dir.frozen {
                    Verdict::Stay
                } else if is_recent {
                    Verdict::Freeze
                } else {
                    Verdict::Move
                }
            }
        }
    }
}

/// What the protocol does about a fault: the action, which translations it removes, the directory after, whether the
/// time of the last invalidation is set, and the frame that the new translation leads to.
#[derive(Clone, Copy, Debug, PartialEq, Eq)]
pub struct Decision {
    pub action: Action,
    pub removed: Removed,
    pub after: Dir,
    pub sets_last: bool,
    pub frame: Frame,
}
