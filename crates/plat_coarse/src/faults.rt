//! Faults and thaws: the changes of pages.
ghost use Rattle.std.specs.Prelude.{◌≡◌, ◌≢◌, ℕ, ◌+◌, ◌<◌, ◌≤◌, ◌++◌, ◌∷◌, [], length, true, None, Some};
ghost use Rattle.plat_base.specs.Frames.{got_frame as got_frame_of};
ghost use Rattle.plat_base.specs.Turns.{change_by};
ghost use Rattle.std.specs.Prelude.{◌&&◌, is_none};
ghost use Rattle.plat_base.specs.Decide.{is_dir, is_empty, asks as asks_of};
ghost use Rattle.plat_base.specs.Directories.{dir_of};
ghost use Rattle.plat_base.specs.declared.limits.TheConstants.{MODULES, MOST_ITEMS};
ghost use Rattle.plat_coarse.specs.Reached.{decided_if_fed};
ghost use Rattle.plat_chronicle.specs.Chronicle.{HasAdded, HasRoom};
ghost use Rattle.plat_coarse.specs.Running.{state_of, fault_items_now, fault_made_now, thawed_now};

use crate::accesses::{Reached, access_of};
use crate::frames::{free_frame, nearest_free};
use crate::messages::interrupt;
use plat_base::{Cause, Change, Decision, Dir, End, Ended, Frame, Grant, Policy, State, Verdict};
use plat_chronicle::Chronicle;
use plat_policy::decide;

/// Whether the policy is asked about a fault: the page has copies, and none on the node.
fn asks(dir: &Dir, node: u32) -> bool
    requires { node < MODULES }
    ensures read { result ≡ asks_of Cause.Read dir.now node }
    ensures write { result ≡ asks_of Cause.Write dir.now node }
{
    dir.state != State::Empty && dir.copies.on(node).is_none()
}

/// The frame that a fault takes: for an empty page from the nearest module that has one, for a page that moves from the
/// own module.
fn got_frame<P: Policy>(
    chronicle: &Chronicle,
    policy: &P,
    q: u32,
    page: u32,
    now: u32,
    cause: Cause,
) -> Option<Frame>
    requires processor { q < chronicle.now.machine.nodes }
    requires page { page < chronicle.now.machine.pages }
    requires fault { cause ≢ Cause.Thaw }
    ensures { result
        ≡ got_frame_of chronicle.now.machine (P.answer policy.now) chronicle.now.items q page now cause }
{
    let dir = chronicle.dir(page);
    if dir.state == State::Empty {
        return nearest_free(chronicle, q);
    }
    // It is within the limits, so `q` is below 8.
    let _cfg = chronicle.config();
    if !asks(&dir, q) {
        return None;
    }
    if policy.verdict(&dir, chronicle.last(page), now) == Verdict::Move {
        free_frame(chronicle, q)
    } else {
        None
    }
}

/// Whether a fault of an empty page got no frame.
fn is_starved(dir: &Dir, got: Option<Frame>) -> bool
    ensures { result ≡ (is_empty dir.now.state && is_none got) }
{
    dir.state == State::Empty && got.is_none()
}

/// The decision of a fault, or none where no frame is free for an empty page.
fn decision_of<P: Policy>(
    chronicle: &Chronicle,
    policy: &P,
    q: u32,
    page: u32,
    now: u32,
    cause: Cause,
) -> Option<Decision>
    requires processor { q < chronicle.now.machine.nodes }
    requires page { page < chronicle.now.machine.pages }
    requires fault { cause ≢ Cause.Thaw }
    requires dirs { is_dir chronicle.now.machine (dir_of chronicle.now.items page) ≡ true }
    ensures { result
        ≡ decided_if_fed chronicle.now.machine (P.answer policy.now) chronicle.now.items q page now cause }
{
    let dir = chronicle.dir(page);
    let got = got_frame(chronicle, policy, q, page, now, cause);
    if is_starved(&dir, got) {
        return None;
    }
    Some(decide(
        chronicle.config(),
        policy,
        &dir,
        chronicle.last(page),
        now,
        q,
        cause,
        got,
    ))
}

/// The change of a page by a decision.
fn change_of(
    chronicle: &Chronicle,
    actor: u32,
    page: u32,
    now: u32,
    cause: Cause,
    decision: &Decision,
    granted: Option<Grant>,
) -> Change
    requires { page < chronicle.now.machine.pages }
    ensures { result ≡ change_by chronicle.now.items actor page now cause decision.now granted }
{
    Change {
        actor,
        page,
        seq: chronicle.seq(page),
        time: now,
        cause,
        action: decision.action,
        removed: decision.removed,
        before: chronicle.dir(page),
        after: decision.after,
        granted,
    }
}

/// Adds the messages, the change and the access of a fault.
fn add_fault(
    chronicle: &mut Chronicle,
    ends: &[Ended],
    q: u32,
    now: u32,
    entry: u32,
    reach: &Reached,
    decision: &Decision,
)
    requires processor { q < chronicle.old.machine.nodes }
    requires entry { entry < length chronicle.old.machine.entries }
    requires page { reach.now.page < chronicle.old.machine.pages }
    requires word { reach.now.word < chronicle.old.machine.words }
    requires room { HasRoom chronicle.old
        (fault_items_now chronicle.old ends.now q now entry reach.now decision.now) }
    ensures { HasAdded chronicle.old chronicle.new
        (fault_items_now chronicle.old ends.now q now entry reach.now decision.now) }
{
    let cause = reach.kind.cause();
    let grant = Grant {
        entry,
        frame: decision.frame,
        right: cause.right(),
    };
    let access = access_of(
        chronicle,
        q,
        reach,
        decision.frame,
        chronicle.seq(reach.page),
    );
    let change = change_of(chronicle, q, reach.page, now, cause, decision, Some(grant));
    interrupt(chronicle, ends, q, reach.page, decision.removed);
    chronicle.add_change(change);
    chronicle.add_access(access);
}

/// A fault of processor `q`: its messages, its change and then the access, or nothing where no frame is free for an empty
/// page (Cox and Fowler 1989).
pub fn fault<P: Policy>(
    chronicle: &mut Chronicle,
    policy: &P,
    ends: &[Ended],
    q: u32,
    now: u32,
    entry: u32,
    reach: &Reached,
) -> End
    requires processor { q < chronicle.old.machine.nodes }
    requires entry { entry < length chronicle.old.machine.entries }
    requires page { reach.now.page < chronicle.old.machine.pages }
    requires word { reach.now.word < chronicle.old.machine.words }
    requires dirs { is_dir chronicle.old.machine (dir_of chronicle.old.items reach.now.page) ≡ true }
    requires room { HasRoom chronicle.old
        (fault_made_now chronicle.old (P.answer policy.now) ends.now q now entry reach.now).items }
    ensures end { result ≡ (fault_made_now chronicle.old (P.answer policy.now) ends.now q now entry
        reach.now).end }
    ensures added { HasAdded chronicle.old chronicle.new
        (fault_made_now chronicle.old (P.answer policy.now) ends.now q now entry reach.now).items }
{
    match decision_of(chronicle, policy, q, reach.page, now, reach.kind.cause()) {
        None => End::NoFrames,
        Some(decision) => {
            add_fault(chronicle, ends, q, now, entry, reach, &decision);
            End::Cut
        }
    }
}

/// Thaws a page, if it is frozen: the daemon removes all its translations, so that later faults may move it again.
pub fn thaw<P: Policy>(chronicle: &mut Chronicle, policy: &P, ends: &[Ended], page: u32, now: u32)
    requires page { page < chronicle.old.machine.pages }
    requires dirs { is_dir chronicle.old.machine (dir_of chronicle.old.items page) ≡ true }
    requires spare { length (thawed_now chronicle.old (P.answer policy.now) ends.now now page).history
        ≤ length chronicle.old.items + chronicle.old.spare }
    requires few { length (thawed_now chronicle.old (P.answer policy.now) ends.now now
        page).history ≤ MOST_ITEMS }
    ensures machine { chronicle.new.machine ≡ chronicle.old.machine }
    ensures items { state_of chronicle.new ends.now
        ≡ thawed_now chronicle.old (P.answer policy.now) ends.now now page }
    ensures spare { chronicle.new.spare + length chronicle.new.items
        ≡ chronicle.old.spare + length chronicle.old.items }
{
    let dir = chronicle.dir(page);
    if !dir.frozen {
        return;
    }
    let cfg = chronicle.config();
    let nodes = cfg.nodes;
    let decision = decide(
        cfg,
        policy,
        &dir,
        chronicle.last(page),
        now,
        nodes,
        Cause::Thaw,
        None,
    );
    let change = change_of(chronicle, nodes, page, now, Cause::Thaw, &decision, None);
    interrupt(chronicle, ends, nodes, page, decision.removed);
    chronicle.add_change(change);
}
