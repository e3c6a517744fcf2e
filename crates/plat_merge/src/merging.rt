//! Journals are merged into one history.
ghost use Rattle.std.specs.Prelude.{◌≡◌, length};
ghost use Rattle.plat_base.specs.Rooms.{journal_rooms};
ghost use Rattle.plat_base.specs.Seen.{machine};
ghost use Rattle.plat_events.specs.Merges.{merged};
ghost use Rattle.plat_merge.specs.RoomSeen.{IsRoomFor, HaveGoodHistory};

use crate::heads::ready_actor;
use crate::placing::place;
use crate::rooms::Room;
use plat_base::{ACTORS, Config, Item, Journals, List, PolicyKind};

/// The number of actors: the processors, and the daemon where the policy has one.
fn actors(cfg: &Config) -> u32
    ensures { result ≡ length (journal_rooms (machine cfg.now)) }
{
    match cfg.policy {
        PolicyKind::Place | PolicyKind::Replicate => cfg.nodes,
        PolicyKind::Platinum { .. } => cfg.nodes + 1,
    }
}

/// The journals of a run as one history: each time the lowest actor whose next item is ready gives it. It places all
/// items, takes no memory, and never fails.
///
/// It counts the items, and then places them. An item costs as much as there are actors, however long the journals are.
pub fn merge(cfg: &Config, journals: &Journals, room: Room) -> List<Item>
    requires made { journals.now.rooms ≡ journal_rooms (machine cfg.now) }
    requires room { IsRoomFor (machine cfg.now) room }
    requires good { HaveGoodHistory (machine cfg.now) journals.now.lists }
    ensures { result.items ≡ merged journals.now.lists }
{
    let _first = journals.of(0);
    let actors = actors(cfg);
    let Room {
        pages: _,
        most,
        mut placed,
        mut counts,
        mut totals,
    } = room;
    totals.gather(cfg.words, journals, actors);
    let mut next = [0; ACTORS as usize];
    counts.begin(&totals.loads);
    for _ in 0..most {
        let Some(actor) = ready_actor(journals, &next, &counts, actors) else {
            return placed;
        };
        let item = &journals.of(actor)[next[actor as usize]];
        place(&mut counts, &totals, item);
        placed.push(*item);
        next[actor as usize] += 1;
    }
    placed
}
