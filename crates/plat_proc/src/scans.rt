//! Which place follows a poll, a scan's look, and the end of a turn.
ghost use Rattle.std.specs.Prelude.{◌<◌, None};
ghost use Rattle.plat_base.specs.Seen.{machine};
ghost use Rattle.plat_base.specs.declared.limits.TheConstants.{MODULES, SPACES, ENTRIES};
ghost use Rattle.plat_events.specs.Scans.{go_on, scan_from, turn_over};
ghost use Rattle.plat_proc.specs.Onwards.{LeadsOn, LeadsTo, look_from, poll_from};

use crate::entries::count_of_space;
use crate::messages::{has_invalidate, has_restrict};
use crate::places::{Onward, Place};
use plat_base::{Config, End, Message, Moment};
use plat_words::bit;

/// A processor that has made its budget is spent, and another begins its next turn.
pub fn turn_over(cfg: &Config, turns: u32) -> Place
    ensures { LeadsTo None result (turn_over (machine cfg.now) turns) }
{
    if turns == cfg.budget {
        Place::Leaving(End::Spent)
    } else {
        Place::Polling(Onward::NewTurn)
    }
}

/// What follows a poll and its scan.
fn go_on(cfg: &Config, turns: u32, onward: Onward) -> Place
    ensures { LeadsOn onward result (go_on (machine cfg.now) turns) }
{
    match onward {
        Onward::NewTurn => Place::Ticking,
        Onward::TurnOver => turn_over(cfg, turns),
        Onward::Fault => Place::Faulting,
    }
}

/// The next entry of the space, or what follows the scan.
pub fn scan_from(
    cfg: &Config,
    turns: u32,
    space: u32,
    i: u32,
    moment: Moment,
    onward: Onward,
) -> Place
    ensures { LeadsOn onward result (scan_from (machine cfg.now) turns space i moment) }
{
    if i < count_of_space(cfg, space) {
        Place::Looking { i, moment, onward }
    } else {
        go_on(cfg, turns, onward)
    }
}

/// What follows a poll that found these interrupts: a scan, where one is for the active space.
pub fn polled(cfg: &Config, turns: u32, space: u32, onward: Onward, interrupts: u64) -> Place
    requires { space < SPACES }
    ensures { LeadsOn onward result (poll_from (machine cfg.now) turns space interrupts) }
{
    if bit(interrupts, space) {
        scan_from(cfg, turns, space, 0, Moment::Interrupt, onward)
    } else {
        go_on(cfg, turns, onward)
    }
}

/// What follows a look at a mask: an invalidate goes before a restrict, and without either the scan goes on.
pub fn looked(
    cfg: &Config,
    q: u32,
    turns: u32,
    space: u32,
    i: u32,
    moment: Moment,
    onward: Onward,
    mask: u64,
) -> Place
    requires processor { q < MODULES }
    requires below { i < ENTRIES }
    ensures { LeadsOn onward result (look_from (machine cfg.now) q turns space i moment mask) }
{
    if has_invalidate(mask, q) {
        Place::Applying {
            i,
            message: Message::Invalidate,
            moment,
            onward,
        }
    } else if has_restrict(mask, q) {
        Place::Applying {
            i,
            message: Message::Restrict,
            moment,
            onward,
        }
    } else {
        scan_from(cfg, turns, space, i + 1, moment, onward)
    }
}
