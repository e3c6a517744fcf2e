//! What each operation of a handler leads to: the lock, a phase of the session, or its shootdown.
ghost use Rattle.std.specs.Prelude.{◌≡◌, ◌<◌, [], Option, Some, None};
ghost use Rattle.plat_base.specs.Seen.{machine};
ghost use Rattle.plat_events.specs.Events.{is_followed};
ghost use Rattle.plat_shoot.specs.ShootSeen.{ShootSeen};
ghost use Rattle.plat_handler.specs.Decided.{Decides, RunsOn, RemovesSome};
ghost use Rattle.plat_handler.specs.Courses.{operation_of, stage_told, Shoots};
ghost use Rattle.plat_handler.specs.Phases.{session_seen, phase_seen, then_seen, stage_seen, posts_in, ShootsWell, fault_seen};
ghost use Rattle.plat_handler.specs.Locks.{IsTaken, found_in};
ghost use Rattle.plat_handler.specs.Stages.{Locks, Runs};
ghost use Rattle.plat_handler.specs.Settled.{stage_with, IsOf, IsShootOf, EntersOn, ThenShoots, own_of_shot};

use crate::courses::{after, shot_over};
use crate::phases::{Course, Found, Lock, Phase, Stage, Then};
use plat_base::{Config, Dir, WordName};
use plat_policy::is_dir;
use plat_shoot::{Own, Shoot};
use plat_words::{DirWord, is_word};

/// What a try of the lock found in a word. `tried` is the word of a locked page: the last one that was tested, so that a try
/// which finds it again need not test it.
fn found_in(cfg: &Config, tried: &mut u64, word: u64) -> Found
    requires tried { IsTaken (machine cfg.now) tried.old }
    ensures found { result ≡ found_in (machine cfg.now) word }
    ensures tried { IsTaken (machine cfg.now) tried.new }
{
    if word == *tried {
        return Found::Taken;
    }
    let Some(found) = DirWord::decode(word) else {
        return Found::Nothing;
    };
    let dir = Dir {
        state: found.state,
        frozen: found.frozen,
        copies: found.copies,
    };
    if !is_dir(cfg, &dir) {
        return Found::Nothing;
    }
    if found.locked {
        *tried = word;
        return Found::Taken;
    }
    Found::Free(dir)
}

/// The lock found `old`: a set bit sends a processor to poll, and the daemon to lock again; else the session begins.
pub fn locked(cfg: &Config, lock: &mut Lock, tried: &mut u64, old: u64) -> Stage
    requires tried { IsTaken (machine cfg.now) tried.old }
    ensures tried { IsTaken (machine cfg.now) tried.new }
    ensures actor { lock.new.actor ≡ lock.old.actor }
    ensures tick { lock.new.tick ≡ lock.old.tick }
    ensures fault { lock.new.fault ≡ lock.old.fault }
    ensures shoots { Shoots (machine cfg.now) lock.new None (stage_seen lock.new None result) }
    ensures well { (shoot : Option ShootSeen) → ShootsWell shoot result }
    ensures stage { stage_seen lock.new None result
        ≡ stage_told (machine cfg.now) lock.old old (Locks (fault_seen lock.old.fault)) }
{
    match found_in(cfg, tried, old) {
        Found::Nothing => Stage::Locking,
        Found::Taken => {
            if lock.actor == cfg.nodes {
                Stage::Locking
            } else {
                Stage::Relocking
            }
        }
        Found::Free(dir) => {
            let frozen = dir.frozen;
            lock.dir = dir;
            if lock.actor == cfg.nodes && !frozen {
                Stage::Running(Phase::Returning)
            } else {
                Stage::Running(Phase::Stamping)
            }
        }
    }
}

/// Where the session stands with its shootdown: in it, or behind it.
fn settled(cfg: &Config, lock: &Lock, course: Course, shoot: &Shoot) -> Stage
    requires decides { Decides (machine cfg.now) lock.now course }
    requires shoots { IsOf (machine cfg.now) lock.now course shoot.now }
    ensures shoots { Shoots (machine cfg.now) lock.now (Some shoot.now)
        (stage_seen lock.now (Some shoot.now) result) }
    ensures stage { stage_seen lock.now (Some shoot.now) result
        ≡ stage_with (machine cfg.now) lock.now course shoot.now.shoot }
    ensures well { ShootsWell (Some shoot.now) result }
{
    if shoot.is_finished() {
        Stage::Running(shot_over(cfg, lock, course))
    } else {
        Stage::Shooting(course)
    }
}

/// The next phase, or a new shootdown.
fn entered(cfg: &Config, lock: &Lock, shoot: &mut Option<Shoot>, next: Then) -> Stage
    requires fits { EntersOn (machine cfg.now) lock.now next }
    requires shoots { ThenShoots (machine cfg.now) lock.now shoot.old next }
    ensures shoots { Shoots (machine cfg.now) lock.now shoot.new (stage_seen lock.now shoot.new result) }
    ensures stage { stage_seen lock.now shoot.new result
        ≡ Runs (session_seen lock.now (then_seen (machine cfg.now) lock.now (posts_in shoot.old) next)) }
    ensures well { ShootsWell shoot.new result }
{
    match next {
        Then::Runs(phase) => Stage::Running(phase),
        Then::Shoots(course, removed) => {
            let new = Shoot::start(cfg, lock.actor, lock.fault.page, removed);
            let stage = settled(cfg, lock, course, &new);
            *shoot = Some(new);
            stage
        }
    }
}

/// The operation of a phase found `old`.
pub fn ran(cfg: &Config, lock: &Lock, shoot: &mut Option<Shoot>, phase: Phase, old: u64) -> Stage
    requires fits { RunsOn (machine cfg.now) lock.now phase }
    requires tick { lock.now.tick < 4294967295 }
    requires shoots { Shoots (machine cfg.now) lock.now shoot.old
        (stage_seen lock.now shoot.old (Stage.Running phase)) }
    ensures shoots { Shoots (machine cfg.now) lock.now shoot.new (stage_seen lock.now shoot.new result) }
    ensures stage { stage_seen lock.now shoot.new result
        ≡ stage_told (machine cfg.now) lock.now old (stage_seen lock.now shoot.old (Stage.Running phase)) }
    ensures well { ShootsWell shoot.new result }
{
    if !is_followed(cfg, phase, old) {
        return Stage::Running(phase);
    }
    match phase {
        Phase::Returning => Stage::Returned,
        Phase::Unlocking(course) => Stage::Changed(course),
        _ => entered(cfg, lock, shoot, after(cfg, lock, phase, old)),
    }
}

/// Whether the operation of a phase tells a number that its word may be, which is asked of the kind of the word alone. A store
/// tells nothing, and is always followed.
fn is_followed(cfg: &Config, phase: Phase, old: u64) -> bool
    ensures { (lock : Lock)
        → result ≡ is_followed (machine cfg.now) (Some (operation_of (machine cfg.now) lock phase)) old }
{
    let name = match phase {
        Phase::Returning
        | Phase::Filling { .. }
        | Phase::Copying { .. }
        | Phase::Storing(_)
        | Phase::Unlocking(_) => return true,
        Phase::Stamping => WordName::Stamp(0),
        Phase::Seeking { .. } | Phase::Taking { .. } | Phase::Giving { .. } => WordName::Pool(0),
        Phase::Reading { .. } => WordName::Memory {
            module: 0,
            number: 0,
            word: 0,
        },
        Phase::Granting(_) => WordName::Cmap(0),
    };
    is_word(cfg, name, old)
}

/// The operation of the shootdown found `old`.
pub fn shot(
    cfg: &Config,
    lock: &Lock,
    shoot: &mut Option<Shoot>,
    course: Course,
    old: u64,
) -> (Stage, Own)
    requires decides { Decides (machine cfg.now) lock.now course }
    requires shoots { IsShootOf (machine cfg.now) lock.now course shoot.old }
    ensures shoots { Shoots (machine cfg.now) lock.now shoot.new (stage_seen lock.now shoot.new result.0) }
    ensures stage { stage_seen lock.now shoot.new result.0
        ≡ stage_told (machine cfg.now) lock.now old (stage_seen lock.now shoot.old (Stage.Shooting course)) }
    ensures own { result.1 ≡ own_of_shot (machine cfg.now) old shoot.old }
    ensures well { ShootsWell shoot.new result.0 }
{
    let Some(running) = shoot else { unreachable!() };
    let own = running.after(cfg, old);
    (settled(cfg, lock, course, running), own)
}
