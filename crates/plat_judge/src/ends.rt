//! The rule of ends: one for each node, and each that of its guest.
ghost use Rattle.std.specs.Prelude.{◌≡◌, ◌<◌, List as Many, length, Some};
ghost use Rattle.plat_base.specs.Ends.{ended_of};
ghost use Rattle.plat_base.specs.Rules.{are_ends as are_ends_of, is_in_order};
ghost use Rattle.plat_base.specs.Seen.{machine};
ghost use Rattle.plat_base.specs.declared.items.Item.{Item as AnyItem};
ghost use Rattle.plat_chronicle.specs.Present.{Shows, Fits};
ghost use Rattle.plat_follow.specs.Followed.{AllStand, AllFollow, lacks_right as lacks_right_of, lacks_right_for, is_ended as is_ended_of};
ghost use Rattle.plat_follow.specs.Wanted.{operation_seen, IsThroughEntry};

use plat_base::{Config, Ended};
use plat_chronicle::{Present, has_right};
use plat_follow::{Followers, Wanted};

/// Whether there is one end for each node, and each processor's turns and end are those of its guest.
pub fn are_ends(cfg: &Config, present: &Present, followers: &Followers, ends: &[Ended]) -> bool
    requires fits { Fits (machine cfg.now) present.now }
    requires stand { AllStand (machine cfg.now) followers.now }
    ensures { (items : Many AnyItem) → Shows (machine cfg.now) items present.now →
        AllFollow (machine cfg.now) items followers.now →
        result ≡ are_ends_of (machine cfg.now) items ends.now }
{
    if ends.len() != cfg.nodes as usize {
        return false;
    }
    for (q, ended) in ends.iter().enumerate() {
        if !is_ended(cfg, present, followers, q as u32, *ended) {
            return false;
        }
    }
    true
}

/// Whether these turns and this end of a processor are those of its guest.
fn is_ended(cfg: &Config, present: &Present, followers: &Followers, q: u32, ended: Ended) -> bool
    requires fits { Fits (machine cfg.now) present.now }
    requires stand { AllStand (machine cfg.now) followers.now }
    requires processor { q < cfg.now.nodes }
    ensures { (items : Many AnyItem) → Shows (machine cfg.now) items present.now →
        AllFollow (machine cfg.now) items followers.now →
        result ≡ is_ended_of (machine cfg.now) items q ended }
{
    let lacks_right = lacks_right(cfg, present, followers, q);
    followers.ends_so(cfg, q, ended, lacks_right)
}

/// Whether the next operation of a processor is an access for which it has not enough right.
fn lacks_right(cfg: &Config, present: &Present, followers: &Followers, q: u32) -> bool
    requires fits { Fits (machine cfg.now) present.now }
    requires stand { AllStand (machine cfg.now) followers.now }
    requires processor { q < cfg.now.nodes }
    ensures { (items : Many AnyItem) → Shows (machine cfg.now) items present.now →
        AllFollow (machine cfg.now) items followers.now → result ≡ lacks_right_of (machine cfg.now) items q }
{
    match followers.next(q) {
        Some(wanted) => lacks_right_for(cfg, present, q, wanted),
        None => false,
    }
}

/// Whether what a processor wants is an access for which it has not enough right.
fn lacks_right_for(cfg: &Config, present: &Present, q: u32, wanted: Wanted) -> bool
    requires fits { Fits (machine cfg.now) present.now }
    requires processor { q < cfg.now.nodes }
    requires entry { IsThroughEntry (machine cfg.now) wanted }
    ensures { (items : Many AnyItem) → Shows (machine cfg.now) items present.now →
        result ≡ lacks_right_for (machine cfg.now) items q (Some (operation_seen wanted)) }
{
    match wanted {
        Wanted::Access(reach) => !has_right(reach.kind, present.held(q, reach.entry)),
        Wanted::Switch(_) => false,
    }
}
