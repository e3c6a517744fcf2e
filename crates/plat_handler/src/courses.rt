//! What follows each operation of a session, from the last to the first.
ghost use Rattle.std.specs.Prelude.{◌≡◌, ℕ, ◌<◌, List, [], Some};
ghost use Rattle.plat_base.specs.Seen.{machine};
ghost use Rattle.plat_base.specs.declared.limits.TheConstants.{MODULES};
ghost use Rattle.plat_handler.specs.Courses.{gives, fills, copies, follows_shot, starts, seeks, finds, takes, goes_on};
ghost use Rattle.plat_handler.specs.Phases.{phase_seen, then_seen, PostsSuit};
ghost use Rattle.plat_handler.specs.Decided.{Begins, Decides, RunsOn, RemovesSome};

use crate::decisions::{decision, frame_going};
use crate::modules::{is_empty, module_tried, tried_count};
use crate::phases::{Course, Lock, Phase, Then};
use plat_base::{Action, Config, Frame, Removed};
use plat_words::StampWord;

/// The next frame is given back, or the stamp is stored.
fn give_from(cfg: &Config, lock: &Lock, course: Course, given: u32) -> Phase
    requires { Decides (machine cfg.now) lock.now course }
    ensures { (posts : List ℕ) → phase_seen posts result
        ≡ gives (machine cfg.now) lock.now posts course given }
{
    let decision = decision(cfg, lock, &course);
    match frame_going(&lock.dir, &decision.after, given) {
        Some(_) => Phase::Giving { course, given },
        None => Phase::Storing(course),
    }
}

/// The next word of an empty page is stored, or what follows that.
fn fill_from(cfg: &Config, lock: &Lock, course: Course, word: u32) -> Phase
    requires { Decides (machine cfg.now) lock.now course }
    ensures { (posts : List ℕ) → phase_seen posts result
        ≡ fills (machine cfg.now) lock.now posts course word }
{
    if word < cfg.words {
        Phase::Filling { course, word }
    } else {
        give_from(cfg, lock, course, 0)
    }
}

/// The next word of the nearest copy is loaded, or what follows that.
fn copy_from(cfg: &Config, lock: &Lock, course: Course, word: u32) -> Phase
    requires { Decides (machine cfg.now) lock.now course }
    ensures { (posts : List ℕ) → phase_seen posts result
        ≡ copies (machine cfg.now) lock.now posts course word }
{
    if word < cfg.words {
        Phase::Reading { course, word }
    } else {
        give_from(cfg, lock, course, 0)
    }
}

/// What follows the shootdown: a fill fills its frame, and a replicate or migrate copies into it.
pub fn shot_over(cfg: &Config, lock: &Lock, course: Course) -> Phase
    requires { Decides (machine cfg.now) lock.now course }
    ensures { (posts : List ℕ) → phase_seen posts result
        ≡ follows_shot (machine cfg.now) lock.now posts course }
{
    match decision(cfg, lock, &course).action {
        Action::Fill => fill_from(cfg, lock, course, 0),
        Action::Replicate | Action::Migrate => copy_from(cfg, lock, course, 0),
        _ => give_from(cfg, lock, course, 0),
    }
}

/// The row is fixed: its shootdown begins, where it removes something.
fn start_course(cfg: &Config, lock: &Lock, course: Course) -> Then
    requires { Decides (machine cfg.now) lock.now course }
    ensures phase { then_seen (machine cfg.now) lock.now [] result
        ≡ starts (machine cfg.now) lock.now course }
    ensures removed { RemovesSome (machine cfg.now) lock.now result }
{
    match decision(cfg, lock, &course).removed {
        Removed::Nothing => Then::Runs(shot_over(cfg, lock, course)),
        removed => Then::Shoots(course, removed),
    }
}

/// The next module; where every one gave no frame, an empty page stays as it was, and another page goes without one.
fn seek_from(cfg: &Config, lock: &Lock, stamp: StampWord, passed: u32) -> Then
    requires { Begins (machine cfg.now) lock.now }
    ensures phase { then_seen (machine cfg.now) lock.now [] result
        ≡ seeks (machine cfg.now) lock.now stamp passed }
    ensures removed { RemovesSome (machine cfg.now) lock.now result }
{
    if passed < tried_count(cfg, lock, &stamp) {
        Then::Runs(Phase::Seeking { stamp, passed })
    } else if is_empty(lock.dir.state) {
        Then::Runs(Phase::Returning)
    } else {
        start_course(cfg, lock, Course { stamp, got: None })
    }
}

/// A pool was found: an empty one leads to the next module.
fn pool_found(cfg: &Config, lock: &Lock, stamp: StampWord, passed: u32, found: u64) -> Then
    requires seeks { Begins (machine cfg.now) lock.now }
    requires few { passed < MODULES }
    ensures phase { then_seen (machine cfg.now) lock.now [] result
        ≡ finds (machine cfg.now) lock.now stamp passed found }
    ensures removed { RemovesSome (machine cfg.now) lock.now result }
{
    if found == 0 {
        seek_from(cfg, lock, stamp, passed + 1)
    } else {
        Then::Runs(Phase::Taking {
            stamp,
            passed,
            seen: found,
        })
    }
}

/// The lowest frame of a pool was taken.
fn frame_taken(cfg: &Config, lock: &Lock, stamp: StampWord, passed: u32, seen: u64) -> Then
    requires begins { Begins (machine cfg.now) lock.now }
    requires fits { RunsOn (machine cfg.now) lock.now (Phase.Taking stamp passed seen) }
    ensures phase { then_seen (machine cfg.now) lock.now [] result
        ≡ takes (machine cfg.now) lock.now stamp passed seen }
    ensures removed { RemovesSome (machine cfg.now) lock.now result }
{
    let frame = Frame {
        module: module_tried(cfg, lock, &stamp, passed),
        number: seen.trailing_zeros(),
    };
    let course = Course {
        stamp,
        got: Some(frame),
    };
    start_course(cfg, lock, course)
}

/// What follows the operation where it found `old`. The phases that end a session stay.
pub fn after(cfg: &Config, lock: &Lock, phase: Phase, old: u64) -> Then
    requires { RunsOn (machine cfg.now) lock.now phase }
    ensures phase { (posts : List ℕ) → PostsSuit posts phase
        → then_seen (machine cfg.now) lock.now posts result
        ≡ goes_on (machine cfg.now) lock.now old (phase_seen posts phase) }
    ensures removed { RemovesSome (machine cfg.now) lock.now result }
{
    match phase {
        Phase::Stamping => match StampWord::decode(old) {
            Some(stamp) => seek_from(cfg, lock, stamp, 0),
            None => unreachable!(),
        },
        Phase::Seeking { stamp, passed } => pool_found(cfg, lock, stamp, passed, old),
        Phase::Taking {
            stamp,
            passed,
            seen,
        } => {
            if old == seen {
                frame_taken(cfg, lock, stamp, passed, seen)
            } else {
                pool_found(cfg, lock, stamp, passed, old)
            }
        }
        Phase::Filling { course, word } => Then::Runs(fill_from(cfg, lock, course, word + 1)),
        Phase::Reading { course, word } => Then::Runs(Phase::Copying {
            course,
            word,
            seen: old,
        }),
        Phase::Copying { course, word, .. } => Then::Runs(copy_from(cfg, lock, course, word + 1)),
        Phase::Giving { course, given } => {
            let _copies = lock.dir.copies.count();
            Then::Runs(give_from(cfg, lock, course, given + 1))
        }
        Phase::Storing(course) if lock.actor == cfg.nodes => Then::Runs(Phase::Unlocking(course)),
        Phase::Storing(course) => Then::Runs(Phase::Granting(course)),
        Phase::Granting(course) => Then::Runs(Phase::Unlocking(course)),
        Phase::Returning | Phase::Unlocking(_) => Then::Runs(phase),
    }
}
