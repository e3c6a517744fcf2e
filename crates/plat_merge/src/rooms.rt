//! The memory of a merge.
ghost use Rattle.std.specs.Prelude.{◌≡◌, IfOk};
ghost use Rattle.std.specs.List.{sum};
ghost use Rattle.plat_base.specs.Rooms.{journal_rooms};
ghost use Rattle.plat_base.specs.Seen.{machine};
ghost use Rattle.plat_merge.specs.RoomSeen.{IsRoomFor};

use crate::counts::Counts;
use crate::totals::Totals;
use plat_base::{Config, Item, List, OutOfMemory, PolicyKind};
use std::alloc::Global;
use std::marker::Model;

/// The memory that a merge of journals of one machine needs: a place and three numbers for each item that the journals may
/// have, and some numbers for each word and page.
#[derive(Debug, Drop)]
pub struct Room {
    pub(crate) pages: u32,
    pub(crate) most: u32,
    pub(crate) placed: List<Item>,
    pub(crate) counts: Counts,
    pub(crate) totals: Totals,
}

impl Model for Room {
    ghost use Rattle.plat_merge.specs.RoomSeen.{RoomSeen, IsUnused};

    ghost Value = { RoomSeen };

    ghost view = { λ it. record { pages = it.pages; words = it.counts.page_words; items = it.most } };

    ghost invariant = { λ it. IsUnused it.pages it.most it.placed.items it.placed.spare it.counts it.totals };
}

/// How many items the journals of a machine may have in all.
fn most_items(cfg: &Config) -> u32
    ensures { result ≡ sum (journal_rooms (machine cfg.now)) }
{
    let processors = cfg.nodes * (4 * cfg.budget);
    match cfg.policy {
        PolicyKind::Place | PolicyKind::Replicate => processors,
        PolicyKind::Platinum { t2, .. } => processors + cfg.nodes * cfg.budget / t2 * cfg.pages,
    }
}

impl Room {
    /// The memory for merging journals of this machine. It is the one call here that takes memory.
    pub fn new(alloc: Global, cfg: &Config) -> Result<Room, OutOfMemory>
        ensures { IfOk result (IsRoomFor (machine cfg.now)) }
    {
        let most = most_items(cfg);
        Ok(Room {
            pages: cfg.pages,
            most,
            placed: List::with_room(alloc, most as usize)?,
            counts: Counts::new(alloc, cfg.pages, cfg.words)?,
            totals: Totals::new(alloc, cfg.pages, cfg.words, most)?,
        })
    }
}
