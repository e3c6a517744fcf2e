//! Pairs of accesses that race.
ghost use Rattle.std.specs.Prelude.{◌≡◌, ◌<◌, ◌≤◌, ℕ, List as Many, length};
ghost use Rattle.plat_base.specs.declared.limits.TheConstants.{MOST_ITEMS};
ghost use Rattle.plat_base.specs.declared.items.Item.{Item as AnyItem};
ghost use Rattle.plat_base.specs.declared.items.Item.TheVariants as item;
ghost use Rattle.plat_race.specs.Marks.{HasMark, AreClocks, TellsRace};
ghost use Rattle.plat_race.specs.Races.{is_conflict, is_race, item_at, race_at};

use crate::marks::Marks;
use plat_base::{Access, Item, Kind};

/// Two accesses that race, by their places among all items of the history, from 0.
#[derive(Clone, Copy, Debug, PartialEq, Eq)]
pub struct Pair {
    pub first: u32,
    pub second: u32,
}

/// Whether two accesses conflict: different actors access one word, and one of them writes.
fn is_conflict(earlier: &Access, later: &Access) -> bool
    ensures { result ≡ is_conflict earlier.now later.now }
{
    earlier.actor != later.actor
        && earlier.page == later.page
        && earlier.word == later.word
        && (earlier.kind != Kind::Load || later.kind != Kind::Load)
}

/// Whether the item at `place` races with a later access, whose clock is given.
fn is_race(earlier: &Item, place: usize, later: &Access, clock: &Marks) -> bool
    requires mark { HasMark earlier.now }
    ensures { TellsRace earlier.now place later.now clock.now result }
{
    match earlier {
        Item::Access(access) => {
            let known = clock[access.actor as usize] as usize;
            known <= place && is_conflict(access, later)
        }
        Item::Change(_) | Item::Applied(_) | Item::Switch(_) => false,
    }
}

/// The race that ends at `place` with the least first place. It goes over the items before `place`.
pub(crate) fn earliest(items: &[Item], place: usize, access: &Access, clock: &Marks) -> Option<Pair>
    requires place { place < length items.now }
    requires few { length items.now ≤ MOST_ITEMS }
    requires marks { (i : ℕ) → HasMark (item_at items.now i) }
    requires here { item_at items.now place ≡ item.Access access.now }
    requires heard { AreClocks items.now place clock.now }
    ensures { result ≡ race_at items.now place }
{
    for (first, item) in items[..place].iter().enumerate() {
        if is_race(item, first, access, clock) {
            return Some(Pair {
                first: first as u32,
                second: place as u32,
            });
        }
    }
    None
}
