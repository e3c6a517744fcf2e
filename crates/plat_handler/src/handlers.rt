//! A session as a value: what it asks next, and how it goes on.
ghost use Rattle.std.specs.Prelude.{◌≡◌, ◌≢◌, ◌<◌, IsTrue};
ghost use Rattle.plat_base.specs.Machine.{Machine};
ghost use Rattle.plat_base.specs.Seen.{machine};
ghost use Rattle.plat_events.specs.Places.{is_name, place_of};
ghost use Rattle.plat_handler.specs.Fits.{is_fault};
ghost use Rattle.plat_handler.specs.HandlerSeen.{HandlesOn, handler_started, asked, ask_seen, is_word_asked, is_polling, stage_told};
ghost use Rattle.plat_handler.specs.HandlerSeen.{own_taken, installed};
ghost use Rattle.plat_handler.specs.Phases.{fault_seen};
ghost use Rattle.plat_handler.specs.Stages.{stage_polled};

use crate::asks::Ask;
use crate::decisions::{change, translation};
use crate::faults::Fault;
use crate::operations::operation;
use crate::phases::{Lock, Phase, Stage};
use crate::sessions::{locked, ran, shot};
use plat_base::{Config, Copies, Dir, Op, State, Translation, WordName};
use plat_shoot::{Need, Own, Shoot};
use plat_words::place;
use std::marker::Model;

/// The lock of a directory.
const LOCK: u64 = 8;

/// A session of an actor on a page, from the lock on (Cox and Fowler 1989): a processor's fault, or the daemon's look at a
/// page that may be frozen. It makes one operation at a time, its shootdown included, and takes no memory.
#[derive(Debug, Drop)]
pub struct Handler {
    lock: Lock,
    shoot: Option<Shoot>,
    stage: Stage,
    /// A word of a locked page: the last one that a try of the lock tested.
    tried: u64,
}

impl Model for Handler {
    ghost use Rattle.plat_handler.specs.HandlerSeen.{HandlerSeen};
    ghost use Rattle.plat_handler.specs.Phases.{stage_seen, ShootsWell};

    ghost Value = { HandlerSeen };

    ghost view = { λ it. record {
      actor = it.lock.actor;
      now = it.lock.tick;
      stage = stage_seen it.lock it.shoot it.stage;
      shoot = it.shoot;
      tried = it.tried;
    } };

    ghost invariant = { λ it. ShootsWell it.shoot it.stage };
}

impl Handler {
    /// A session that has made no operation: its first one is the lock. Actor `nodes` is the daemon, and `now` the tick of
    /// the processor's turn or the time of the daemon's pass.
    pub fn start(cfg: &Config, actor: u32, fault: Fault, now: u32) -> Handler
        requires fault { IsTrue (is_fault (machine cfg.now) actor (fault_seen fault)) }
        requires now { now < 4294967295 }
        ensures handler { result ≡ handler_started actor now (fault_seen fault) }
        ensures fits { HandlesOn (machine cfg.now) result }
    {
        let dir = Dir {
            state: State::Empty,
            frozen: false,
            copies: Copies::none(),
        };
        let lock = Lock {
            actor,
            tick: now,
            fault,
            dir,
        };
        Handler {
            lock,
            shoot: None,
            stage: Stage::Locking,
            tried: LOCK,
        }
    }

    /// What it asks next.
    pub fn next(&self, cfg: &Config) -> Ask
        requires { HandlesOn (machine cfg.now) self.now }
        ensures { result ≡ asked (machine cfg.now) self.now }
    {
        match self.stage {
            Stage::Locking => {
                let name = WordName::Dir(self.lock.fault.page);
                ask_word(cfg, name, Op::Or(LOCK))
            }
            Stage::Relocking => Ask::Poll,
            Stage::Running(phase) => {
                let (name, op) = operation(cfg, &self.lock, phase);
                ask_word(cfg, name, op)
            }
            Stage::Shooting(_) => match &self.shoot {
                Some(shoot) => ask_of_need(shoot.next(cfg)),
                None => unreachable!(),
            },
            Stage::Returned => {
                if self.lock.actor == cfg.nodes {
                    Ask::NotFrozen
                } else {
                    Ask::NoFrames
                }
            }
            Stage::Changed(course) => {
                let change = change(cfg, &self.lock, &course);
                if self.lock.actor == cfg.nodes {
                    Ask::Thawed(change)
                } else {
                    Ask::Granted(change)
                }
            }
        }
    }

    /// Whether it asks for an operation next.
    pub fn asks_word(&self) -> bool
        ensures { (m : Machine) → result ≡ is_word_asked (asked m self.now) }
    {
        match self.stage {
            Stage::Locking | Stage::Running(_) => true,
            Stage::Shooting(_) => match &self.shoot {
                Some(shoot) => shoot.needs_word(),
                None => unreachable!(),
            },
            Stage::Relocking | Stage::Returned | Stage::Changed(_) => false,
        }
    }

    /// Goes on after its operation, which found `old` (0 for a store), and says what that takes of the actor's own
    /// translations. A number that the word cannot be changes nothing.
    pub fn after(&mut self, cfg: &Config, old: u64) -> Own
        requires fits { HandlesOn (machine cfg.now) self.old }
        requires word { IsTrue (is_word_asked (asked (machine cfg.now) self.old)) }
        ensures own { result ≡ own_taken (machine cfg.now) self.old old }
        ensures after { self.new.stage ≡ stage_told (machine cfg.now) self.old old }
        ensures actor { self.new.actor ≡ self.old.actor }
        ensures now { self.new.now ≡ self.old.now }
        ensures fits { HandlesOn (machine cfg.now) self.new }
    {
        match self.stage {
            Stage::Locking => {
                self.stage = locked(cfg, &mut self.lock, &mut self.tried, old);
                Own::Nothing
            }
            Stage::Running(phase) => {
                self.stage = ran(cfg, &self.lock, &mut self.shoot, phase, old);
                Own::Nothing
            }
            Stage::Shooting(course) => {
                let (stage, own) = shot(cfg, &self.lock, &mut self.shoot, course, old);
                self.stage = stage;
                own
            }
            _ => unreachable!(),
        }
    }

    /// Goes on after a poll and its scan: to the lock, or to the session.
    pub fn polled(&mut self)
        requires { IsTrue (is_polling self.old.stage) }
        ensures after { self.new.stage ≡ stage_polled self.old.stage }
        ensures actor { self.new.actor ≡ self.old.actor }
        ensures now { self.new.now ≡ self.old.now }
        ensures fits { (m : Machine) → HandlesOn m self.old → HandlesOn m self.new }
    {
        match self.stage {
            Stage::Relocking => self.stage = Stage::Locking,
            Stage::Shooting(_) => {
                if let Some(shoot) = &mut self.shoot {
                    shoot.polled();
                }
            }
            _ => {}
        }
    }

    /// The translation that the session's grant gave; None before the grant. The processor puts it into its Pmap in the
    /// same event.
    pub fn installed(&self, cfg: &Config) -> Option<Translation>
        requires { HandlesOn (machine cfg.now) self.now }
        ensures { result ≡ installed (machine cfg.now) self.now }
    {
        match self.stage {
            Stage::Running(Phase::Unlocking(course)) | Stage::Changed(course) => {
                let entry = self.lock.fault.entry?;
                Some(translation(cfg, &self.lock, &course, entry))
            }
            _ => None,
        }
    }
}

/// An operation on a word of the machine.
fn ask_word(cfg: &Config, name: WordName, op: Op) -> Ask
    requires { IsTrue (is_name (machine cfg.now) name) }
    ensures { result ≡ Ask.Word (place_of (machine cfg.now) name) op }
{
    Ask::Word {
        at: place(cfg, name),
        op,
    }
}

/// What the shootdown needs, as it is asked. It is not over.
fn ask_of_need(need: Need) -> Ask
    requires { need ≢ Need.Finished }
    ensures { result ≡ ask_seen need }
{
    match need {
        Need::Word { at, op } => Ask::Word { at, op },
        Need::Poll => Ask::Poll,
        Need::Finished => unreachable!(),
    }
}
