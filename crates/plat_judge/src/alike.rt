//! When two parts of a change are the same, and when a change does what was decided.
ghost use Rattle.std.specs.Prelude.{◌≡◌, ◌&&◌};
ghost use Rattle.plat_base.specs.Alike.{same_cause as same_cause_of, same_dir as same_dir_of, same_right};
ghost use Rattle.plat_base.specs.Accesses.{right_of as right_of_cause};
ghost use Rattle.plat_base.specs.Copies.{same_frame};
ghost use Rattle.plat_base.specs.Rules.{is_decided as is_decided_of};

use plat_base::{Cause, Change, Decision, Dir, Grant};

/// Whether two causes are the same.
pub fn same_cause(a: Cause, b: Cause) -> bool
    ensures { result ≡ same_cause_of a b }
{
    a == b
}

/// Whether two directories are the same.
pub fn same_dir(a: &Dir, b: &Dir) -> bool
    ensures { result ≡ same_dir_of a.now b.now }
{
    a == b
}

/// Whether a change does what was decided.
pub fn is_decided(decision: &Decision, change: &Change) -> bool
    ensures { result ≡ is_decided_of decision.now change.now }
{
    decision.action == change.action
        && decision.removed == change.removed
        && same_dir(&decision.after, &change.after)
}

/// Whether a change does what was decided, and grants the frame that was decided with the right of its cause.
pub fn is_granted_so(decision: &Decision, change: &Change, grant: Grant) -> bool
    ensures { result ≡ (is_decided_of decision.now change.now && same_frame decision.now.frame grant.frame
        && same_right grant.right (right_of_cause change.now.cause)) }
{
    is_decided(decision, change)
        && decision.frame == grant.frame
        && grant.right == change.cause.right()
}
