//! What a page really cost.
ghost use Rattle.std.specs.Prelude.{◌≡◌, ◌<◌, ◌≤◌, true, length, take};
ghost use Rattle.plat_base.specs.Seen.{machine};
ghost use Rattle.plat_base.specs.declared.limits.TheConstants.{MOST_ITEMS};
ghost use Rattle.plat_cost.specs.Costs.{actors_on, actual, can_cost, copy_cost, cost_of, makes_copy, CanCost};
ghost use Rattle.plat_cost.specs.Distances.{AreDistances};
ghost use Rattle.plat_cost.specs.Plans.{moves_of};

use crate::distances::{Distances, distances, way};
use plat_base::{Action, Change, Config, Item};
use plat_policy::{distance, nearest};

/// What the page cost by these items.
pub(crate) fn actual(cfg: &Config, items: &[Item], page: u32) -> u64
    requires few { length items.now ≤ MOST_ITEMS }
    requires costs { CanCost (machine cfg.now) page items.now }
    ensures { result ≡ actual (machine cfg.now) items.now page }
{
    let far = distances(cfg);
    let mut sum: u64 = 0;
    for item in items {
        sum += u64::from(item_cost(cfg, &far, item, page));
    }
    sum
}

/// What the item cost the page.
fn item_cost(cfg: &Config, far: &Distances, item: &Item, page: u32) -> u32
    requires far { AreDistances (machine cfg.now) far.now }
    requires costs { can_cost (machine cfg.now) page item.now ≡ true }
    ensures cost { result ≡ cost_of (machine cfg.now) page item.now }
    ensures most { result ≤ 64000 }
{
    match item {
        Item::Access(access) if access.page == page => {
            way(cfg, far, access.actor, access.frame.module)
        }
        Item::Change(change) if change.page == page && makes_copy(change.action) => {
            change_cost(cfg, change)
        }
        Item::Access(_) | Item::Change(_) | Item::Applied(_) | Item::Switch(_) => 0,
    }
}

/// Whether a change of this action makes a copy from another one.
fn makes_copy(action: Action) -> bool
    ensures { result ≡ makes_copy action }
{
    match action {
        Action::Replicate | Action::Migrate => true,
        Action::Fill | Action::MapLocal | Action::MapRemote | Action::Collapse | Action::Thaw => {
            false
        }
    }
}

/// What the change that makes a copy costs.
fn change_cost(cfg: &Config, change: &Change) -> u32
    requires copies { makes_copy change.now.action ≡ true }
    requires actor { change.now.actor < cfg.now.nodes }
    requires one { 0 < length change.now.before.copies }
    ensures cost { result ≡ copy_cost (machine cfg.now) change.now }
    ensures most { result ≤ 64000 }
{
    let from = nearest(cfg, change.actor, &change.before.copies);
    cfg.words * distance(cfg, change.actor, from.module)
}

/// Writes the actors of the page's accesses into the front of `actors`. The answer is how many they are.
pub(crate) fn collect(items: &[Item], page: u32, actors: &mut [u32]) -> usize
    requires { length (actors_on items.now page) ≤ length actors.old }
    ensures actors { take result actors.new ≡ actors_on items.now page }
    ensures count { result ≡ length (actors_on items.now page) }
{
    let mut count = 0;
    for item in items {
        if let Item::Access(access) = item {
            if access.page == page {
                actors[count] = access.actor;
                count += 1;
            }
        }
    }
    count
}

/// How often the plan moves.
pub(crate) fn moves(plan: &[u32]) -> u32
    requires { length plan.now ≤ MOST_ITEMS }
    ensures { result ≡ moves_of plan.now }
{
    let Some(first) = plan.first() else {
        return 0;
    };
    let mut at = *first;
    let mut moves = 0;
    for module in plan {
        if *module != at {
            moves += 1;
        }
        at = *module;
    }
    moves
}
