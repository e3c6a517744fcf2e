//! The policy of this laboratory: one type, what it proposes as a definition, and the same as code.
ghost use Rattle.std.specs.Prelude.{if◌then◌else◌};
ghost use Rattle.plat_base.specs.Alike.{same_state};
ghost use Rattle.plat_base.specs.declared.frames.State.TheVariants.{Modified};
ghost use Rattle.plat_base.specs.declared.policies.Verdict.TheVariants.{Stay, Move};

use plat_base::{Dir, State, Verdict};
use plat_proposal::Proposal;

/// A modified page stays where it is, and others use it from afar. Any other page is copied or moved to the node that faults.
#[derive(Clone, Copy, Debug)]
pub struct Written;

/// What the program runs.
pub const POLICY: Written = Written;

impl Proposal for Written {
    ghost proposed = { λ it dir last now. if same_state dir.state Modified then Stay else Move };

    fn propose(&self, dir: &Dir, _last: Option<u32>, _now: u32) -> Verdict {
        if dir.state == State::Modified {
            Verdict::Stay
        } else {
            Verdict::Move
        }
    }
}
