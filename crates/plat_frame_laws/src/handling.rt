//! The law of the operations that handle frames.
ghost use Rattle.std.specs.Prelude.{IsTrue};
ghost use Rattle.plat_base.specs.Seen.{machine};
ghost use Rattle.plat_fine_laws.specs.Keeping.{KeepsShown};
ghost use Rattle.plat_frame_laws.specs.Handling.{handles_frames};

use plat_base::{Config, Policy};

/// Does nothing; its contract is the law of the operations that handle frames: whatever a policy answers, the invariant of
/// the shared state holds on behind every load of a pool, every take of its lowest frame (won, or lost to another actor),
/// every store of an initial value in the frame of a fill, every load of a word for a copy and its store, and every frame
/// that is given back.
pub fn any_policy_frames<P: Policy>(cfg: &Config, policy: &P)
    ensures { KeepsShown (machine cfg.now) (P.answer policy.now) (λ place. IsTrue (handles_frames place)) }
{}
