//! The journals of a run by threads: for each actor the list of its own items.
ghost use Rattle.std.specs.Prelude.{◌≡◌, ◌<◌, ◌≤◌, [], length, map, slice_index, slice_index_or, slice_set, IfOk, IsTrue};
ghost use Rattle.plat_base.specs.Rooms.{journal_rooms, fit_rooms, daemon_room as room_of_daemon};
ghost use Rattle.plat_base.specs.Seen.{machine};

use crate::configs::Config;
use crate::faults::OutOfMemory;
use crate::items::Item;
use crate::lists::List;
use crate::policies::PolicyKind;
use std::alloc::Global;
use std::marker::Model;

/// The journals of a machine's actors, in rising number of the actor, the daemon last where there is one. No journal is
/// longer than its actor's room: four items for each turn of a processor, and one for each page at each pass of the
/// daemon.
#[derive(Debug, Drop)]
pub struct Journals {
    nodes: u32,
    processor_room: u32,
    daemon_room: Option<u32>,
    lists: Vec<List<Item>>,
}

impl Model for Journals {
    ghost use Rattle.std.specs.Prelude.{◌++◌, ◌<◌, replicate, IsTrue};
    ghost use Rattle.std.specs.Option.{option_to_list};
    ghost use Rattle.plat_base.specs.Rooms.{JournalsSeen, lists_seen, fit_rooms};

    ghost Value = { JournalsSeen };

    ghost view = { λ it. record {
      rooms = replicate it.nodes it.processor_room ++ option_to_list it.daemon_room;
      lists = lists_seen it.lists.items;
    } };

    ghost invariant = { λ it. IsTrue (fit_rooms (replicate it.nodes it.processor_room ++ option_to_list it.daemon_room)
        (lists_seen it.lists.items)) };
}

/// How many items the daemon's journal may have, where the policy has a daemon.
fn daemon_room(cfg: &Config) -> Option<u32>
    ensures { result ≡ room_of_daemon cfg.now.nodes cfg.now.budget cfg.now.pages cfg.now.policy }
{
    match cfg.policy {
        PolicyKind::Place | PolicyKind::Replicate => None,
        PolicyKind::Platinum { t2, .. } => Some(cfg.nodes * cfg.budget / t2 * cfg.pages),
    }
}

impl Journals {
    /// Empty journals for the actors of `cfg`.
    pub fn new(alloc: Global, cfg: &Config) -> Result<Journals, OutOfMemory>
        ensures rooms { IfOk result (λ journals. journals.rooms ≡ journal_rooms (machine cfg.now)) }
        ensures empty { IfOk result (λ journals. journals.lists
            ≡ map (λ _. []) (journal_rooms (machine cfg.now))) }
    {
        let daemon_room = daemon_room(cfg);
        let actors = cfg.nodes + u32::from(daemon_room.is_some());
        let Ok(mut lists) = Vec::with_capacity(alloc, actors as usize) else {
            return Err(OutOfMemory);
        };
        for _ in 0..actors {
            lists.push_reserved(List::new(alloc));
        }
        Ok(Journals {
            nodes: cfg.nodes,
            processor_room: 4 * cfg.budget,
            daemon_room,
            lists,
        })
    }

    /// Makes `journal` the actor's list. It takes no memory.
    pub fn put(&mut self, actor: u32, journal: List<Item>)
        requires actor { actor < length self.old.rooms }
        requires room { length journal.items ≤ slice_index self.old.rooms actor }
        ensures rooms { self.new.rooms ≡ self.old.rooms }
        ensures lists { self.new.lists ≡ slice_set self.old.lists actor journal.items }
    {
        self.lists[actor as usize] = journal;
    }

    /// The actor's list.
    pub fn of(&self, actor: u32) -> &[Item]
        requires { actor < length self.now.rooms }
        ensures value { result.now ≡ slice_index_or self.now.lists actor [] }
        ensures fits { IsTrue (fit_rooms self.now.rooms self.now.lists) }
    {
        self.lists[actor as usize].as_slice()
    }
}
