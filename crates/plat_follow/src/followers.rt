//! The follower of one guest.
ghost use Rattle.std.specs.Prelude.{◌≡◌, ℕ, ◌<◌, ◌≤◌, ◌++◌, ◌∷◌, [], List as Many, IsTrue, is_some, IfSome};
ghost use Rattle.std.specs.Option.{option_map};
ghost use Rattle.plat_base.specs.Machine.{Machine};
ghost use Rattle.plat_base.specs.Rules.{next_operation};
ghost use Rattle.plat_base.specs.Seen.{machine};
ghost use Rattle.plat_follow.specs.Wanted.{operation_seen, IsThroughEntry};
ghost use Rattle.plat_follow.specs.Followed.{Stands, IsAt, Follows, IsMade, can_end, is_waiting, is_ended, lacks_right as lacks_right_of};

use crate::stops::{Stop, stop_of};
use crate::wanted::Wanted;
use plat_base::{Config, End, Ended, Item};
use plat_guest::Guest;
use std::marker::Model;

/// Where the guest of one processor stands after the accesses and switches that a history has so far: it was run forward
/// to its next operation, its last turn, or the end of its budget. Contracts see the guest as it stands there, how many
/// turns it has made, how many of them when it had made its last operation (0 where it made none), and why it is not run
/// on.
#[derive(Clone, Copy, Debug)]
pub struct Follower {
    guest: Guest,
    last: u32,
    turns: u32,
    stop: Stop,
}

impl Model for Follower {
    ghost use Rattle.plat_follow.specs.Followed.{FollowerSeen};

    ghost Value = { FollowerSeen };

    ghost view = { λ it. record { guest = it.guest; last = it.last; turns = it.turns; stop = it.stop } };

    ghost inverse = { λ f. record { guest = f.guest; last = f.last; turns = f.turns; stop = f.stop } };
}

impl Follower {
    /// The guest of node `q` after no item.
    pub fn new(cfg: &Config, q: u32) -> Follower
        requires { q < cfg.now.nodes }
        ensures stands { Stands (machine cfg.now) result }
        ensures follows { Follows (machine cfg.now) [] q result }
    {
        Follower::run_on(cfg, Guest::new(cfg, q), 0)
    }

    /// The next operation of the guest, if its budget reaches so far.
    pub fn next(&self) -> Option<Wanted>
        ensures next { (m : Machine) (items : Many Item) (q : ℕ) → Follows m items q self.now
            → option_map operation_seen result ≡ next_operation m items q }
        ensures entry { (m : Machine) → Stands m self.now → IfSome result (IsThroughEntry m) }
        ensures waits { is_waiting self.now ≡ is_some result }
    {
        match self.stop {
            Stop::Wants(wanted) => Some(wanted),
            Stop::Halts | Stop::Traps | Stop::Spent => None,
        }
    }

    /// The next operation was made, and found this value, which is not looked at for a store or a switch. The guest is run
    /// forward at once, so that no turn of it is run twice.
    pub fn made(&mut self, cfg: &Config, old: u32)
        requires stands { Stands (machine cfg.now) self.old }
        requires waits { IsTrue (is_waiting self.old) }
        ensures stands { Stands (machine cfg.now) self.new }
        ensures follows { (items : Many Item) (q : ℕ) (item : Item)
            → Follows (machine cfg.now) items q self.old → IsMade (machine cfg.now) items q old item
            → Follows (machine cfg.now) (items ++ item ∷ []) q self.new }
    {
        let mut guest = self.guest;
        guest.after(cfg, old);
        *self = Follower::run_on(cfg, guest, self.turns + 1);
    }

    /// Whether the processor can have ended so, in so many turns. `lacks_right` says whether the next operation is an
    /// access for which the processor holds no translation with enough right.
    pub fn ends_so(&self, cfg: &Config, ended: Ended, lacks_right: bool) -> bool
        requires { Stands (machine cfg.now) self.now }
        ensures { (items : Many Item) (q : ℕ) → Follows (machine cfg.now) items q self.now
            → lacks_right ≡ lacks_right_of (machine cfg.now) items q
            → result ≡ is_ended (machine cfg.now) items q ended }
    {
        self.can_end(cfg, ended, lacks_right)
    }

    /// Whether a guest that stands so can have ended so: in the turn after those that it has made, in its last one where
    /// it is spent, or cut off since its last operation.
    fn can_end(&self, cfg: &Config, ended: Ended, lacks_right: bool) -> bool
        requires { Stands (machine cfg.now) self.now }
        ensures { result ≡ can_end (machine cfg.now) self.now lacks_right ended.end ended.turns }
    {
        match ended.end {
            End::Halted => matches!(self.stop, Stop::Halts) && ended.turns == self.turns + 1,
            End::Trapped => matches!(self.stop, Stop::Traps) && ended.turns == self.turns + 1,
            End::Spent => matches!(self.stop, Stop::Spent) && ended.turns == self.turns,
            End::NoFrames => {
                cfg.frames < cfg.pages && lacks_right && ended.turns == self.turns + 1
            }
            End::Cut => {
                self.last <= ended.turns
                    && ended.turns <= self.turns + 1
                    && ended.turns <= cfg.budget
            }
        }
    }

    /// Runs a guest on that has made its last operation at this turn.
    fn run_on(cfg: &Config, guest: Guest, last: u32) -> Follower
        requires node { guest.node < cfg.now.nodes }
        requires within { last ≤ cfg.now.budget }
        ensures stands { Stands (machine cfg.now) result }
        ensures follows { (items : Many Item) (q : ℕ) → IsAt (machine cfg.now) items q guest last last
            → Follows (machine cfg.now) items q result }
    {
        let mut guest = guest;
        for turns in last..cfg.budget {
            if let Some(stop) = stop_of(cfg, &guest) {
                return Follower {
                    guest,
                    last,
                    turns,
                    stop,
                };
            }
            guest.after(cfg, 0);
        }
        Follower {
            guest,
            last,
            turns: cfg.budget,
            stop: Stop::Spent,
        }
    }
}
