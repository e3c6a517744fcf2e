//! The followers of all processors of a machine.
ghost use Rattle.std.specs.Prelude.{◌≡◌, ℕ, ◌<◌, ◌++◌, ◌∷◌, [], List as Many, IfOk, IfSome, length};
ghost use Rattle.std.specs.Option.{option_map};
ghost use Rattle.plat_base.specs.Machine.{Machine};
ghost use Rattle.plat_base.specs.Rules.{next_operation};
ghost use Rattle.plat_base.specs.Seen.{machine};
ghost use Rattle.plat_follow.specs.Wanted.{operation_seen, IsThroughEntry};
ghost use Rattle.plat_follow.specs.Followed.{AllStand, AllFollow, IsMade, IsNextItem, is_ended, lacks_right as lacks_right_of};

use crate::followers::Follower;
use crate::wanted::Wanted;
use plat_base::{Config, Ended, Item, OutOfMemory};
use std::alloc::Global;
use std::marker::Model;

/// The followers of all processors, in rising number. Contracts see them as a list.
#[derive(Debug, Drop)]
pub struct Followers {
    followers: Vec<Follower>,
}

impl Model for Followers {
    ghost use Rattle.std.specs.Prelude.{List};
    ghost use Rattle.plat_follow.specs.Followed.{FollowerSeen};

    ghost Value = { List FollowerSeen };

    ghost view = { λ it. it.followers.items };
}

impl Followers {
    /// The guests of all processors after no item.
    pub fn new(alloc: Global, cfg: &Config) -> Result<Followers, OutOfMemory>
        ensures stand { IfOk result (AllStand (machine cfg.now)) }
        ensures follow { IfOk result (AllFollow (machine cfg.now) []) }
    {
        let Ok(mut followers) = Vec::with_capacity(alloc, cfg.nodes as usize) else {
            return Err(OutOfMemory);
        };
        for q in 0..cfg.nodes {
            followers.push_reserved(Follower::new(cfg, q));
        }
        Ok(Followers { followers })
    }

    /// The next operation of the guest of processor `q`, if its budget reaches so far.
    pub fn next(&self, q: u32) -> Option<Wanted>
        requires { q < length self.now }
        ensures next { (m : Machine) (items : Many Item) → AllFollow m items self.now
            → option_map operation_seen result ≡ next_operation m items q }
        ensures entry { (m : Machine) → AllStand m self.now → IfSome result (IsThroughEntry m) }
    {
        self.followers[q as usize].next()
    }

    /// One more item, which has to be in its place where it is an access or a switch. It takes no memory, and runs no turn
    /// of a guest twice.
    pub fn add(&mut self, cfg: &Config, item: &Item)
        requires { AllStand (machine cfg.now) self.old }
        ensures stand { AllStand (machine cfg.now) self.new }
        ensures follow { (items : Many Item) → AllFollow (machine cfg.now) items self.old
            → IsNextItem (machine cfg.now) items item.now
            → AllFollow (machine cfg.now) (items ++ item.now ∷ []) self.new }
    {
        match item {
            Item::Access(access) => self.made(cfg, access.actor, access.old),
            Item::Switch(switch) => self.made(cfg, switch.actor, 0),
            Item::Change(_) => {}
            Item::Applied(_) => {}
        }
    }

    // The next operation of processor `q` was made, and found this value.
    fn made(&mut self, cfg: &Config, q: u32, old: u32)
        requires { AllStand (machine cfg.now) self.old }
        ensures stand { AllStand (machine cfg.now) self.new }
        ensures follow { (items : Many Item) (item : Item) → AllFollow (machine cfg.now) items self.old
            → IsMade (machine cfg.now) items q old item
            → AllFollow (machine cfg.now) (items ++ item ∷ []) self.new }
    {
        let at = q as usize;
        if at < self.followers.len() && self.followers[at].next().is_some() {
            let follower = &mut self.followers[at];
            follower.made(cfg, old);
        }
    }

    /// Whether processor `q` can have ended so, in so many turns. `lacks_right` says whether its next operation is an
    /// access for which it holds no translation with enough right.
    pub fn ends_so(&self, cfg: &Config, q: u32, ended: Ended, lacks_right: bool) -> bool
        requires stand { AllStand (machine cfg.now) self.now }
        requires processor { q < cfg.now.nodes }
        ensures { (items : Many Item) → AllFollow (machine cfg.now) items self.now
            → lacks_right ≡ lacks_right_of (machine cfg.now) items q
            → result ≡ is_ended (machine cfg.now) items q ended }
    {
        self.followers[q as usize].ends_so(cfg, ended, lacks_right)
    }
}
