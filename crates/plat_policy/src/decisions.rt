//! The decision of the protocol at a fault or a thaw: the table of actions, a row at a time.
ghost use Rattle.std.specs.Prelude.{◌≡◌, ◌≢◌, ◌<◌, ◌||◌, IsTrue, true, false, [], ◌∷◌, length};
ghost use Rattle.plat_base.specs.Alike.{same_verdict};
ghost use Rattle.plat_base.specs.Copies.{copy_on, with_frame};
ghost use Rattle.plat_base.specs.Decide.{decide, is_dir, fits_cause, moves_page, row_does, decision, after_with, thawed_state, first_frame};
ghost use Rattle.plat_base.specs.Seen.{machine};
ghost use Rattle.plat_base.specs.declared.limits.TheConstants.{MODULES, FRAMES};
ghost use Rattle.plat_policy.specs.Rows.{row_seen, row_fits, asked};

use crate::distances::{lowest, nearest};
use crate::rows::{Row, row_of};
use plat_base::{
    Action, Cause, Config, Copies, Decision, Dir, Frame, Policy, Removed, State, Verdict,
};

/// What the protocol does at a fault of `node`, or at a thaw, where `node` is not looked at. `last` is the tick of the
/// page's last invalidation, and `got` the frame that the caller took for the page: for an empty page any frame, else one
/// on `node`, and only where the policy is asked and says to move. `None` says that there was no such frame.
pub fn decide<P: Policy>(
    cfg: &Config,
    policy: &P,
    dir: &Dir,
    last: Option<u32>,
    now: u32,
    node: u32,
    cause: Cause,
    got: Option<Frame>,
) -> Decision
    requires dir { IsTrue (is_dir (machine cfg.now) dir.now) }
    requires node { cause ≢ Cause.Thaw → node < cfg.now.nodes }
    requires fits { IsTrue (fits_cause (machine cfg.now) (P.answer policy.now) dir.now last now node cause
        got) }
    ensures { result ≡ decide (machine cfg.now) (P.answer policy.now) dir.now last now node cause got }
{
    if cause == Cause::Thaw {
        return row_does(cfg, Row::Thawed, dir, false, node, got);
    }
    let here = dir.copies.on(node).is_some();
    let verdict = verdict_on(policy, dir, last, now, node);
    let row = row_of(cause, dir.state, here, moves(verdict, got));
    row_does(cfg, row, dir, is_frozen(dir, verdict), node, got)
}

/// The policy's verdict on a fault of `node`. It is asked only where the page has copies and none is on `node`; else the
/// copies stay.
pub(crate) fn verdict_on<P: Policy>(
    policy: &P,
    dir: &Dir,
    last: Option<u32>,
    now: u32,
    node: u32,
) -> Verdict
    requires { node < MODULES }
    ensures { result ≡ asked (P.answer policy.now) dir.now last now node }
{
    if dir.state != State::Empty && dir.copies.on(node).is_none() {
        policy.verdict(dir, last, now)
    } else {
        Verdict::Stay
    }
}

/// Whether the page moves to the node: the verdict is so, and there is a frame for it.
fn moves(verdict: Verdict, got: Option<Frame>) -> bool
    ensures { result ≡ moves_page verdict got }
{
    verdict == Verdict::Move && got.is_some()
}

/// Whether the page is frozen after a fault. No fault thaws it.
fn is_frozen(dir: &Dir, verdict: Verdict) -> bool
    ensures { result ≡ (dir.now.frozen || same_verdict verdict Verdict.Freeze) }
{
    dir.frozen || verdict == Verdict::Freeze
}

/// What a row of the table does. `frozen` is the frozen bit after it.
#[tactic(auto, using(crate::proofs::Frames::frames_fit))]
fn row_does(
    cfg: &Config,
    row: Row,
    dir: &Dir,
    frozen: bool,
    node: u32,
    got: Option<Frame>,
) -> Decision
    requires dir { IsTrue (is_dir (machine cfg.now) dir.now) }
    requires fits { IsTrue (row_fits (machine cfg.now) (row_seen row) dir.now.state
        (copy_on node dir.now.copies) node got) }
    ensures { result ≡ row_does (machine cfg.now) (row_seen row) dir.now frozen node got }
{
    match row {
        Row::ReadFill => fill(State::Present1, frozen, got.unwrap()),
        Row::WriteFill => fill(State::Modified, frozen, got.unwrap()),
        Row::ReadLocal => map_local(dir, dir.state, frozen, dir.copies.on(node).unwrap()),
        Row::WriteLocal => map_local(dir, State::Modified, frozen, dir.copies.on(node).unwrap()),
        Row::ReadRemote => map_remote(dir, dir.state, frozen, nearest(cfg, node, &dir.copies)),
        Row::ReadRemoteDirty | Row::WriteRemote => map_remote(
            dir,
            State::Modified,
            frozen,
            nearest(cfg, node, &dir.copies),
        ),
        Row::ReadCopy => replicate(Removed::Nothing, dir, frozen, got.unwrap()),
        Row::ReadCopyDirty => replicate(Removed::Writes, dir, frozen, got.unwrap()),
        Row::WriteMove | Row::WriteMoveMany => keep_one(Action::Migrate, frozen, got.unwrap()),
        Row::CollapseHere => keep_one(Action::Collapse, frozen, dir.copies.on(node).unwrap()),
        Row::CollapseNear => keep_one(Action::Collapse, frozen, nearest(cfg, node, &dir.copies)),
        Row::Thawed => thaw(dir),
    }
}

/// An empty page gets its first copy.
fn fill(state: State, frozen: bool, frame: Frame) -> Decision
    requires module { frame.module < MODULES }
    requires number { frame.number < FRAMES }
    ensures { result ≡ decision Action.Fill Removed.Nothing (after_with state frozen (frame ∷ [])) false
        frame }
{
    Decision {
        action: Action::Fill,
        removed: Removed::Nothing,
        after: Dir {
            state,
            frozen,
            copies: Copies::none().with(frame),
        },
        sets_last: false,
        frame,
    }
}

/// The copies stay, and the node's own is mapped.
fn map_local(dir: &Dir, state: State, frozen: bool, frame: Frame) -> Decision
    ensures { result ≡ decision Action.MapLocal Removed.Nothing (after_with state frozen dir.now.copies) false
        frame }
{
    map(Action::MapLocal, dir, state, frozen, frame)
}

/// The copies stay, and one on another node is mapped.
fn map_remote(dir: &Dir, state: State, frozen: bool, frame: Frame) -> Decision
    ensures { result ≡ decision Action.MapRemote Removed.Nothing (after_with state frozen dir.now.copies)
        false frame }
{
    map(Action::MapRemote, dir, state, frozen, frame)
}

/// The copies stay, and one of them is mapped.
fn map(action: Action, dir: &Dir, state: State, frozen: bool, frame: Frame) -> Decision
    ensures { result ≡ decision action Removed.Nothing (after_with state frozen dir.now.copies) false frame }
{
    Decision {
        action,
        removed: Removed::Nothing,
        after: Dir {
            state,
            frozen,
            copies: dir.copies,
        },
        sets_last: false,
        frame,
    }
}

/// The page gets one more copy.
fn replicate(removed: Removed, dir: &Dir, frozen: bool, frame: Frame) -> Decision
    requires module { frame.module < MODULES }
    requires number { frame.number < FRAMES }
    ensures { result ≡ decision Action.Replicate removed
        (after_with State.PresentPlus frozen (with_frame frame dir.now.copies)) false frame }
{
    Decision {
        action: Action::Replicate,
        removed,
        after: Dir {
            state: State::PresentPlus,
            frozen,
            copies: dir.copies.with(frame),
        },
        sets_last: false,
        frame,
    }
}

/// One copy is left, which may be written; the others are freed.
fn keep_one(action: Action, frozen: bool, frame: Frame) -> Decision
    requires module { frame.module < MODULES }
    requires number { frame.number < FRAMES }
    ensures { result ≡ decision action Removed.All (after_with State.Modified frozen (frame ∷ [])) true
        frame }
{
    Decision {
        action,
        removed: Removed::All,
        after: Dir {
            state: State::Modified,
            frozen,
            copies: Copies::none().with(frame),
        },
        sets_last: true,
        frame,
    }
}

/// The page is frozen no more. Its copies stay, and no translation leads to them.
fn thaw(dir: &Dir) -> Decision
    requires { 0 < length dir.now.copies }
    ensures { result ≡ decision Action.Thaw Removed.All
        (after_with (thawed_state dir.now.state) false dir.now.copies) false (first_frame dir.now.copies) }
{
    let state = match dir.state {
        State::Modified => State::Present1,
        state => state,
    };
    Decision {
        action: Action::Thaw,
        removed: Removed::All,
        after: Dir {
            state,
            frozen: false,
            copies: dir.copies,
        },
        sets_last: false,
        frame: lowest(&dir.copies),
    }
}
