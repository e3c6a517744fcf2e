//! What is decided in a session: the row of the table, the frames that go, the change and the translation that it grants.
ghost use Rattle.std.specs.Prelude.{◌≡◌, ◌<◌, ◌==◌, ◌&&◌, find, slice_get, []};
ghost use Rattle.std.specs.List.{list_any};
ghost use Rattle.std.specs.Option.{option_map};
ghost use Rattle.plat_base.specs.Accesses.{right_of};
ghost use Rattle.plat_base.specs.Copies.{AreCopies, same_frame};
ghost use Rattle.plat_base.specs.Pages.{initial_value};
ghost use Rattle.plat_base.specs.Seen.{machine};
ghost use Rattle.plat_base.specs.declared.limits.TheConstants.{MODULES};
ghost use Rattle.plat_handler.specs.Courses.{change_of, translation_of};
ghost use Rattle.plat_handler.specs.Phases.{decided};
ghost use Rattle.plat_handler.specs.Decided.{Decides, going_to};

use crate::phases::{Course, Lock};
use plat_base::limits::MODULES;
use plat_base::{
    Cause, Change, Config, Copies, Decision, Dir, Frame, Grant, Init, Right, Translation,
};
use plat_policy::decide;

/// What the protocol does on this course.
pub fn decision(cfg: &Config, lock: &Lock, course: &Course) -> Decision
    requires { Decides (machine cfg.now) lock.now course.now }
    ensures { result ≡ decided (machine cfg.now) lock.now course.now }
{
    decide(
        cfg,
        &cfg.policy,
        &lock.dir,
        course.stamp.last,
        lock.tick,
        lock.actor,
        lock.fault.cause,
        course.got,
    )
}

/// The value of a word of a page at the start.
pub fn initial_value(cfg: &Config, page: u32, word: u32) -> u32
    ensures { result ≡ initial_value (machine cfg.now) page word }
{
    match init_of(cfg, page, word) {
        Some(init) => init.value,
        None => 0,
    }
}

/// What the machine text says of a word of a page, if anything.
fn init_of(cfg: &Config, page: u32, word: u32) -> Option<Init>
    ensures { result ≡ find (λ i. i.page == page && i.word == word) cfg.now.inits.items }
{
    cfg.inits
        .as_slice()
        .iter()
        .copied()
        .find(|init| init.page == page && init.word == word)
}

/// Whether the frame is one of these copies.
#[tactic(auto, using(crate::proofs::GoingLemmas::copy_tests))]
fn has_frame(copies: &Copies, frame: Frame) -> bool
    requires module { frame.module < MODULES }
    requires rising { AreCopies copies.now }
    ensures { result ≡ list_any (same_frame frame) copies.now }
{
    match copies.on(frame.module) {
        Some(copy) => frame.number == copy.number,
        None => false,
    }
}

/// The copy at place `at` among those of `dir` that `after` does not have.
#[tactic(auto, using(crate::proofs::GoingLemmas::copy_modules))]
pub fn frame_going(dir: &Dir, after: &Dir, at: u32) -> Option<Frame>
    ensures { result ≡ slice_get (going_to dir.now after.now) at }
{
    let _before = dir.copies.count();
    let _after = after.copies.count();
    let mut left = at;
    for module in 0..MODULES {
        if let Some(frame) = dir.copies.on(module) {
            if !has_frame(&after.copies, frame) {
                if left == 0 {
                    return Some(frame);
                }
                left -= 1;
            }
        }
    }
    None
}

/// What a session grants for its entry.
fn grant(lock: &Lock, entry: u32, frame: Frame) -> Grant
    ensures { result ≡ record { entry = entry; frame = frame; right = right_of lock.now.fault.cause } }
{
    let right = match lock.fault.cause {
        Cause::Write => Right::Write,
        Cause::Read | Cause::Thaw => Right::Read,
    };
    Grant {
        entry,
        frame,
        right,
    }
}

/// What a session grants, if it has an entry.
fn granted(lock: &Lock, frame: Frame) -> Option<Grant>
    ensures { result
        ≡ option_map (λ e. record { entry = e; frame = frame; right = right_of lock.now.fault.cause })
        lock.now.fault.entry }
{
    match lock.fault.entry {
        Some(entry) => Some(grant(lock, entry, frame)),
        None => None,
    }
}

/// The change of a session that unlocks.
pub fn change(cfg: &Config, lock: &Lock, course: &Course) -> Change
    requires { Decides (machine cfg.now) lock.now course.now }
    ensures { result ≡ change_of (machine cfg.now) lock.now course.now }
{
    let decision = decision(cfg, lock, course);
    Change {
        actor: lock.actor,
        page: lock.fault.page,
        seq: course.stamp.seq,
        time: lock.tick,
        cause: lock.fault.cause,
        action: decision.action,
        removed: decision.removed,
        before: lock.dir,
        after: decision.after,
        granted: granted(lock, decision.frame),
    }
}

/// The translation of its entry that a session grants.
pub fn translation(cfg: &Config, lock: &Lock, course: &Course, entry: u32) -> Translation
    requires { Decides (machine cfg.now) lock.now course.now }
    ensures { result ≡ translation_of (machine cfg.now) lock.now course.now entry }
{
    let decision = decision(cfg, lock, course);
    Translation {
        grant: grant(lock, entry, decision.frame),
        seq: course.stamp.seq,
        restricted: false,
    }
}
