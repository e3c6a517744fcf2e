//! The tables of a search for races: what is known of each actor after the items so far.
ghost use Rattle.std.specs.Prelude.{◌≡◌, ◌+◌, ◌*◌, ◌<◌, ◌≤◌, ℕ, true, false, List as Many, length, IfOk, IfNone, is_some};
ghost use Rattle.plat_base.specs.declared.limits.TheConstants.{MODULES, MOST_ITEMS};
ghost use Rattle.plat_base.specs.declared.items.Item.{Item as AnyItem};
ghost use Rattle.plat_base.specs.declared.items.Item.TheVariants as item;
ghost use Rattle.plat_race.specs.Marks.{AreClocks};
ghost use Rattle.plat_race.specs.Races.{item_at, race_at};
ghost use Rattle.plat_race.specs.Tabled.{word_row, FitTables, IsBlank, AreBlank};

use crate::marks::{Marks, NODES, is_above, joined, set_mark};
use crate::pairs::{Pair, earliest};
use plat_base::{Access, Config, Item, Kind, OutOfMemory};
use std::alloc::Global;

/// What a search for races keeps. The row of an actor in `clocks` says how far each other actor's accesses are before its
/// next one; that of a word in `adds` the same of the next fetch-and-add to the word. Those of a word in `accesses` and
/// `writes` say where each actor's last access and last write to it stand.
#[derive(Debug, Drop)]
pub(crate) struct Tables {
    pub pages: u32,
    pub words: u32,
    pub clocks: Vec<Marks>,
    pub adds: Vec<Marks>,
    pub accesses: Vec<Marks>,
    pub writes: Vec<Marks>,
    pub ghost fits: { FitTables pages words clocks.items adds.items accesses.items writes.items },
}

impl Tables {
    ghost use Rattle.plat_race.specs.Searches.{HaveMet, HaveTaken, IsClockOf, Suits, TellsRaces};

    /// Tables for no items.
    pub fn new(alloc: Global, cfg: &Config) -> Result<Tables, OutOfMemory>
        ensures pages { IfOk result (λ tables. tables.pages ≡ cfg.now.pages) }
        ensures words { IfOk result (λ tables. tables.words ≡ cfg.now.words) }
        ensures blank { IfOk result (λ t. AreBlank t.clocks.items t.adds.items t.accesses.items
            t.writes.items) }
    {
        let cells = (cfg.pages * cfg.words) as usize;
        Ok(Tables {
            pages: cfg.pages,
            words: cfg.words,
            clocks: blank(alloc, NODES)?,
            adds: blank(alloc, cells)?,
            accesses: blank(alloc, cells)?,
            writes: blank(alloc, cells)?,
        })
    }

    /// The row of the word that an access goes to.
    fn row(&self, access: &Access) -> usize
        requires page { access.now.page < self.now.pages }
        requires word { access.now.word < self.now.words }
        ensures row { result ≡ word_row self.now.words access.now.page access.now.word }
        ensures within { result < self.now.pages * self.now.words }
    {
        (access.page * self.words + access.word) as usize
    }

    /// How far each actor's accesses are before this one.
    fn clock(&self, access: &Access) -> Marks
        requires actor { access.now.actor < MODULES }
        requires page { access.now.page < self.now.pages }
        requires word { access.now.word < self.now.words }
        ensures { IsClockOf self.now access.now result }
    {
        let own = &self.clocks[access.actor as usize];
        match access.kind {
            Kind::Load | Kind::Store => *own,
            Kind::Add => joined(own, &self.adds[self.row(access)]),
        }
    }

    /// Whether a race ends at the access: whether another actor's last access to the word, or last write if this one is a
    /// load, is not before it.
    fn is_racing(&self, access: &Access, clock: &Marks) -> bool
        requires page { access.now.page < self.now.pages }
        requires word { access.now.word < self.now.words }
        ensures { TellsRaces self.now access.now clock.now result }
    {
        let row = self.row(access);
        match access.kind {
            Kind::Load => is_above(&self.writes[row], clock),
            Kind::Store | Kind::Add => is_above(&self.accesses[row], clock),
        }
    }

    /// Takes in the access at `place`.
    fn take(&mut self, access: &Access, clock: &Marks, place: u32)
        requires actor { access.now.actor < MODULES }
        requires page { access.now.page < self.old.pages }
        requires word { access.now.word < self.old.words }
        requires few { place < MOST_ITEMS }
        ensures met { HaveTaken self.old access.now clock.now place self.new }
        ensures pages { self.new.pages ≡ self.old.pages }
        ensures words { self.new.words ≡ self.old.words }
    {
        let row = self.row(access);
        let actor = access.actor as usize;
        let next = place + 1;
        let mut known = *clock;
        known[actor] = next;
        self.clocks[actor] = known;
        set_mark(&mut self.accesses, row, actor, next);
        match access.kind {
            Kind::Load => {}
            Kind::Store => set_mark(&mut self.writes, row, actor, next),
            Kind::Add => {
                set_mark(&mut self.writes, row, actor, next);
                self.adds[row] = known;
            }
        }
    }

    /// Meets the item at `place`. The answer is the race that ends there with the least first place; the tables are of no
    /// more use then.
    pub fn meet(&mut self, items: &[Item], place: usize) -> Option<Pair>
        requires place { place < length items.now }
        requires few { length items.now ≤ MOST_ITEMS }
        requires suits { Suits self.old items.now }
        requires met { HaveMet self.old items.now place }
        ensures race { result ≡ race_at items.now place }
        ensures met { IfNone result (HaveMet self.new items.now (place + 1)) }
        ensures suits { Suits self.new items.now }
    {
        let Item::Access(access) = &items[place] else {
            return None;
        };
        self.meet_access(items, place, access)
    }

    fn meet_access(&mut self, items: &[Item], place: usize, access: &Access) -> Option<Pair>
        requires place { place < length items.now }
        requires few { length items.now ≤ MOST_ITEMS }
        requires suits { Suits self.old items.now }
        requires met { HaveMet self.old items.now place }
        requires here { item_at items.now place ≡ item.Access access.now }
        ensures race { result ≡ race_at items.now place }
        ensures met { IfNone result (HaveMet self.new items.now (place + 1)) }
        ensures suits { Suits self.new items.now }
    {
        let clock = self.clock(access);
        if self.is_racing(access, &clock) {
            return earliest(items, place, access, &clock);
        }
        self.take(access, &clock, place as u32);
        None
    }
}

/// A table of so many rows, each mark 0.
fn blank(alloc: Global, rows: usize) -> Result<Vec<Marks>, OutOfMemory>
    ensures length { IfOk result (λ table. length table.items ≡ rows) }
    ensures blank { IfOk result (λ table. IsBlank table.items) }
{
    match vec![in alloc; [0; NODES]; rows] {
        Ok(table) => Ok(table),
        Err(_) => Err(OutOfMemory),
    }
}
