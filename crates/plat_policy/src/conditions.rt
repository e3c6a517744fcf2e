//! When a decision may be asked for.
ghost use Rattle.std.specs.Prelude.{◌≡◌, ◌≢◌, ◌<◌};
ghost use Rattle.std.specs.List.{list_all};
ghost use Rattle.plat_base.specs.Copies.{AreCopies};
ghost use Rattle.plat_base.specs.Decide.{may_decide, is_dir, has_copies, is_frame, fits_cause};
ghost use Rattle.plat_base.specs.Seen.{machine};

use crate::decisions::verdict_on;
use plat_base::{Cause, Config, Copies, Dir, Frame, MODULES, Policy, State, Verdict};

/// The test of what `decide` requires: whether `dir` is a directory that the machine can have, and `got` is a frame that
/// the fault can use, or none where it can use none.
pub fn may_decide<P: Policy>(
    cfg: &Config,
    policy: &P,
    dir: &Dir,
    last: Option<u32>,
    now: u32,
    node: u32,
    cause: Cause,
    got: Option<Frame>,
) -> bool
    requires { cause ≢ Cause.Thaw → node < cfg.now.nodes }
    ensures { result ≡ may_decide (machine cfg.now) (P.answer policy.now) dir.now last now node cause got }
{
    is_dir(cfg, dir) && fits_cause(cfg, policy, dir, last, now, node, cause, got)
}

/// Whether the machine can have this directory: its copies are frames of the machine, as many as its state says, and an
/// empty page is not frozen.
#[tactic(auto, using(crate::proofs::Walks::rising))]
pub fn is_dir(cfg: &Config, dir: &Dir) -> bool
    ensures { result ≡ is_dir (machine cfg.now) dir.now }
{
    let count = dir.copies.count();
    are_frames(cfg, &dir.copies)
        && has_copies(dir.state, count)
        && !(dir.state == State::Empty && dir.frozen)
}

/// Whether a page in this state can have so many copies.
fn has_copies(state: State, count: u32) -> bool
    ensures { result ≡ has_copies state count }
{
    match state {
        State::Empty => count == 0,
        State::Present1 | State::Modified => count == 1,
        State::PresentPlus => count > 1,
    }
}

/// Whether each copy is in a frame of the machine.
#[tactic(auto, using(crate::proofs::Walks::walks))]
fn are_frames(cfg: &Config, copies: &Copies) -> bool
    requires { AreCopies copies.now }
    ensures { result ≡ list_all (is_frame (machine cfg.now)) copies.now }
{
    for module in 0..MODULES {
        if let Some(frame) = copies.on(module) {
            if !is_frame(cfg, frame) {
                return false;
            }
        }
    }
    true
}

/// Whether the machine has this frame.
fn is_frame(cfg: &Config, frame: Frame) -> bool
    ensures { result ≡ is_frame (machine cfg.now) frame }
{
    frame.module < cfg.nodes && frame.number < cfg.frames
}

/// Whether `got` is what this fault, or a thaw of a frozen page, can use.
fn fits_cause<P: Policy>(
    cfg: &Config,
    policy: &P,
    dir: &Dir,
    last: Option<u32>,
    now: u32,
    node: u32,
    cause: Cause,
    got: Option<Frame>,
) -> bool
    requires { cause ≢ Cause.Thaw → node < cfg.now.nodes }
    ensures { result ≡ fits_cause (machine cfg.now) (P.answer policy.now) dir.now last now node cause got }
{
    match cause {
        Cause::Thaw => dir.frozen && got.is_none(),
        Cause::Read | Cause::Write => {
            if dir.state == State::Empty {
                got.is_some_and(|frame| is_frame(cfg, frame))
            } else if verdict_on(policy, dir, last, now, node) == Verdict::Move {
                got.is_none_or(|frame| is_frame(cfg, frame) && frame.module == node)
            } else {
                got.is_none()
            }
        }
    }
}
