//! The operation of each phase of a session.
ghost use Rattle.std.specs.Prelude.{◌≡◌, ◌<◌, ◌≤◌, ◌+◌, [], IsTrue, IsSome, Some, false, length};
ghost use Rattle.plat_base.specs.Seen.{machine};
ghost use Rattle.plat_base.specs.Decide.{is_frame};
ghost use Rattle.plat_events.specs.Places.{is_name, most_changes};
ghost use Rattle.plat_events.specs.Words.{dir_word};
ghost use Rattle.plat_events.specs.Sessions.{memory_at, going, frame_going, last_stored};
ghost use Rattle.plat_handler.specs.Courses.{operation_of};
ghost use Rattle.plat_handler.specs.Phases.{decided};
ghost use Rattle.plat_handler.specs.Decided.{RunsOn, Decides};

use crate::decisions::{decision, frame_going, initial_value};
use crate::modules::module_tried;
use crate::phases::{Course, Lock, Phase};
use plat_base::{Config, Dir, Frame, Op, WordName};
use plat_policy::nearest;
use plat_words::{DataWord, DirWord, StampWord};

/// The word of the next operation of a session, and the operation.
pub fn operation(cfg: &Config, lock: &Lock, phase: Phase) -> (WordName, Op)
    requires fits { RunsOn (machine cfg.now) lock.now phase }
    requires tick { lock.now.tick < 4294967295 }
    ensures operation { result ≡ operation_of (machine cfg.now) lock.now phase }
    ensures name { IsTrue (is_name (machine cfg.now) result.0) }
{
    let page = lock.fault.page;
    match phase {
        Phase::Stamping => (WordName::Stamp(page), Op::Load),
        Phase::Seeking { stamp, passed } => {
            let module = module_tried(cfg, lock, &stamp, passed);
            (WordName::Pool(module), Op::Load)
        }
        Phase::Taking {
            stamp,
            passed,
            seen,
        } => {
            let module = module_tried(cfg, lock, &stamp, passed);
            let new = seen & (seen - 1);
            (WordName::Pool(module), Op::Exchange { old: seen, new })
        }
        Phase::Returning => (WordName::Dir(page), Op::Store(unlocked(&lock.dir))),
        Phase::Filling { course, word } => {
            let value = initial_value(cfg, page, word);
            let new = DataWord { value, version: 0 }.encode();
            (memory_at(taken(cfg, lock, &course), word), Op::Store(new))
        }
        Phase::Reading { word, .. } => {
            let near = nearest(cfg, lock.actor, &lock.dir.copies);
            (memory_at(near, word), Op::Load)
        }
        Phase::Copying { course, word, seen } => {
            (memory_at(taken(cfg, lock, &course), word), Op::Store(seen))
        }
        Phase::Giving { course, given } => {
            let frame = given_back(cfg, lock, &course, given);
            (WordName::Pool(frame.module), Op::Or(1 << frame.number))
        }
        Phase::Storing(course) => {
            let new = stamp_after(cfg, lock, &course).encode();
            (WordName::Stamp(page), Op::Store(new))
        }
        Phase::Granting(_) => (WordName::Cmap(entry(lock)), Op::Or(1 << lock.actor)),
        Phase::Unlocking(course) => {
            let after = decision(cfg, lock, &course).after;
            (WordName::Dir(page), Op::Store(unlocked(&after)))
        }
    }
}

/// A word of a frame.
fn memory_at(frame: Frame, word: u32) -> WordName
    ensures { result ≡ memory_at frame word }
{
    WordName::Memory {
        module: frame.module,
        number: frame.number,
        word,
    }
}

/// The directory as a word without the lock.
fn unlocked(dir: &Dir) -> u64
    ensures { result ≡ dir_word dir.now false }
{
    let _copies = dir.copies.count();
    let word = DirWord {
        state: dir.state,
        frozen: dir.frozen,
        locked: false,
        copies: dir.copies,
    };
    word.encode()
}

/// The frame that the granted translation leads to: one that was taken from a pool, if any.
fn taken(cfg: &Config, lock: &Lock, course: &Course) -> Frame
    requires { Decides (machine cfg.now) lock.now course.now }
    ensures frame { result ≡ (decided (machine cfg.now) lock.now course.now).frame }
    ensures within { IsTrue (is_frame (machine cfg.now) result) }
{
    match course.got {
        Some(frame) => frame,
        None => decision(cfg, lock, course).frame,
    }
}

/// The frame that is given back where so many are.
fn given_back(cfg: &Config, lock: &Lock, course: &Course, given: u32) -> Frame
    requires decides { Decides (machine cfg.now) lock.now course.now }
    requires more { given < length (going lock.now.dir (decided (machine cfg.now) lock.now course.now)) }
    ensures frame { result
        ≡ frame_going lock.now.dir (decided (machine cfg.now) lock.now course.now) given }
    ensures within { IsTrue (is_frame (machine cfg.now) result) }
{
    let after = decision(cfg, lock, course).after;
    match frame_going(&lock.dir, &after, given) {
        Some(frame) => frame,
        None => unreachable!(),
    }
}

/// The stamp after the change.
fn stamp_after(cfg: &Config, lock: &Lock, course: &Course) -> StampWord
    requires decides { Decides (machine cfg.now) lock.now course.now }
    requires tick { lock.now.tick < 4294967295 }
    requires few { course.now.stamp.seq ≤ most_changes }
    ensures last { result.last
        ≡ last_stored (decided (machine cfg.now) lock.now course.now) lock.now.tick course.now.stamp.last }
    ensures seq { result.seq ≡ course.now.stamp.seq + 1 }
{
    let last = if decision(cfg, lock, course).sets_last {
        Some(lock.tick)
    } else {
        course.stamp.last
    };
    StampWord {
        last,
        seq: course.stamp.seq + 1,
    }
}

/// The entry of a fault.
fn entry(lock: &Lock) -> u32
    requires { IsSome lock.now.fault.entry }
    ensures { Some result ≡ lock.now.fault.entry }
{
    lock.fault.entry.unwrap()
}
