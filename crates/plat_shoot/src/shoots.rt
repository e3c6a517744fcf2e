//! A shootdown as a value: what it needs next, and how it goes on.
ghost use Rattle.std.specs.Prelude.{◌≡◌, ◌≢◌, ◌<◌, ◌≤◌, IsTrue};
ghost use Rattle.plat_base.specs.Machine.{Machine};
ghost use Rattle.plat_base.specs.Seen.{machine};
ghost use Rattle.plat_shoot.specs.ShootSeen.{ShootsOn, shoot_started, with_shoot, need_of, is_word_needed, is_polling, shoot_after};
ghost use Rattle.plat_shoot.specs.ShootSeen.{is_finished, watch_again, own_after, own_by};

use crate::needs::{Need, Own};
use crate::orders::{Order, Posts, after, may_find, operation, own_post, shoot_from};
use crate::steps::{Shot, Step};
use crate::targets::Passed;
use arrayvec::ArrayVec;
use plat_base::{Config, Removed};
use plat_words::place;
use std::marker::Model;

/// A shootdown of a page by an actor, a processor or the daemon (Cox and Fowler 1989): it posts to each entry of the page, and
/// then waits for each processor that a message went to, until that has applied it or left the entry's space. It takes no
/// memory: the masks that it found, at most 512, stand in the value.
#[derive(Debug, Drop)]
pub struct Shoot {
    order: Order,
    posts: Posts,
    passed: Passed,
    step: Step,
}

impl Model for Shoot {
    ghost use Rattle.plat_shoot.specs.ShootSeen.{ShootSeen};
    ghost use Rattle.plat_shoot.specs.Sought.{HasPassed};
    ghost use Rattle.plat_shoot.specs.Steps.{shoot_seen};

    ghost Value = { ShootSeen };

    ghost view = { λ it. record {
      actor = it.order.actor;
      page = it.order.page;
      removed = it.order.removed;
      shoot = shoot_seen it.posts.items it.step;
    } };

    ghost invariant = { λ it. HasPassed it.order.actor it.posts.items it.passed };
}

impl Shoot {
    /// A shootdown that has made no operation. Actor `nodes` is the daemon.
    pub fn start(cfg: &Config, actor: u32, page: u32, removed: Removed) -> Shoot
        requires actor { actor ≤ cfg.now.nodes }
        requires page { page < cfg.now.pages }
        requires removed { removed ≢ Removed.Nothing }
        ensures shoot { result ≡ shoot_started (machine cfg.now) actor page removed }
        ensures fits { ShootsOn (machine cfg.now) result }
    {
        let order = Order {
            actor,
            page,
            removed,
        };
        let posts = ArrayVec::new();
        let mut passed = Passed::none(cfg.nodes);
        let step = shoot_from(cfg, order, posts.as_slice(), &mut passed);
        Shoot {
            order,
            posts,
            passed,
            step,
        }
    }

    /// What it needs next.
    pub fn next(&self, cfg: &Config) -> Need
        requires { ShootsOn (machine cfg.now) self.now }
        ensures { result ≡ need_of (machine cfg.now) self.now }
    {
        match self.step {
            Step::Makes(shot) => {
                let (name, op) = operation(
                    cfg,
                    self.order,
                    self.posts.as_slice(),
                    self.passed,
                    shot,
                );
                Need::Word {
                    at: place(cfg, name),
                    op,
                }
            }
            Step::Polls(_) => Need::Poll,
            Step::Done => Need::Finished,
        }
    }

    /// Whether it needs an operation next.
    pub fn needs_word(&self) -> bool
        ensures { (m : Machine) → result ≡ is_word_needed (need_of m self.now) }
    {
        matches!(self.step, Step::Makes(_))
    }

    /// Whether it is over.
    pub fn is_finished(&self) -> bool
        ensures { (m : Machine) → result ≡ is_finished (need_of m self.now) }
    {
        matches!(self.step, Step::Done)
    }

    /// Goes on after its operation, which found `old`, and says what that takes of the actor's own translations. A number
    /// that the word cannot be changes nothing.
    pub fn after(&mut self, cfg: &Config, old: u64) -> Own
        requires fits { ShootsOn (machine cfg.now) self.old }
        requires word { IsTrue (is_word_needed (need_of (machine cfg.now) self.old)) }
        ensures own { result ≡ own_after (machine cfg.now) self.old old self.old.shoot }
        ensures after { self.new
            ≡ with_shoot self.old (shoot_after (machine cfg.now) self.old old self.old.shoot) }
        ensures fits { ShootsOn (machine cfg.now) self.new }
    {
        let Step::Makes(shot) = self.step else {
            unreachable!()
        };
        if !may_find(cfg, shot, old) {
            return Own::Nothing;
        }
        let entry = own_post(cfg, self.order, self.posts.as_slice(), shot, old);
        self.step = after(
            cfg,
            self.order,
            &mut self.posts,
            &mut self.passed,
            shot,
            old,
        );
        own_of(self.order.removed, entry)
    }

    /// Goes on after a poll: it watches its target again.
    pub fn polled(&mut self)
        requires { IsTrue (is_polling self.old.shoot) }
        ensures after { self.new ≡ with_shoot self.old (watch_again self.old.shoot) }
        ensures fits { (m : Machine) → ShootsOn m self.old → ShootsOn m self.new }
    {
        if let Step::Polls(k) = self.step {
            self.step = Step::Makes(Shot::Watching(k));
        }
    }
}

/// What a post on a mask with the actor's own reference takes of its translations.
fn own_of(removed: Removed, entry: Option<u32>) -> Own
    ensures { result ≡ own_by removed entry }
{
    match (removed, entry) {
        (Removed::All, Some(entry)) => Own::Dropped(entry),
        (Removed::Writes, Some(entry)) => Own::Lowered(entry),
        _ => Own::Nothing,
    }
}
