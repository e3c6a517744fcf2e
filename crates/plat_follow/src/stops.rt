//! Where a follower stops.
ghost use Rattle.std.specs.Prelude.{◌≡◌, ℕ, ◌<◌, true, IfSome, IfNone};
ghost use Rattle.plat_base.specs.Seen.{machine};
ghost use Rattle.plat_guest.specs.GuestSeen.{wanted_by};
ghost use Rattle.plat_follow.specs.Wanted.{is_quiet};
ghost use Rattle.plat_follow.specs.Followed.{IsStop};

use crate::wanted::{Wanted, WantedAccess};
use plat_base::{Config, Want};
use plat_guest::Guest;

/// Why a guest is not run on: it wants an access or a switch, its next turn halts or traps, or it has made as many turns
/// as the budget allows.
#[derive(Clone, Copy, Debug, PartialEq, Eq)]
pub enum Stop {
    Wants(Wanted),
    Halts,
    Traps,
    Spent,
}

/// Why a guest is not run on. There is no reason where its next turn makes no operation and goes on.
pub(crate) fn stop_of(cfg: &Config, guest: &Guest) -> Option<Stop>
    requires { guest.now.node < cfg.now.nodes }
    ensures quiet { IfNone result (is_quiet (wanted_by (machine cfg.now) guest.now) ≡ true) }
    ensures stop { IfSome result (λ stop. (turns : ℕ) → turns < cfg.now.budget
        → IsStop (machine cfg.now) turns (wanted_by (machine cfg.now) guest.now) stop) }
{
    match guest.next(cfg) {
        Want::Local | Want::Print(_) => None,
        Want::Access {
            kind,
            space,
            addr,
            operand,
        } => Some(Stop::Wants(Wanted::Access(WantedAccess::of(cfg, kind, space, addr, operand)))),
        Want::Switch(space) => Some(Stop::Wants(Wanted::Switch(space))),
        Want::Halted => Some(Stop::Halts),
        Want::Trap => Some(Stop::Traps),
    }
}
