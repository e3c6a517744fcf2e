//! The cache of translations that a processor would have: hits and misses, by its own items.
ghost use Rattle.std.specs.Prelude.{◌≡◌, ◌<◌, map};
ghost use Rattle.plat_base.specs.Pages.{page_of};
ghost use Rattle.plat_base.specs.Seen.{machine};
ghost use Rattle.plat_base.specs.Cache.{cache_start, cache_after, serves_access, without_entry, without_page};
ghost use Rattle.plat_report.specs.Caches.{with_access};
ghost use Rattle.plat_report.specs.Counts.{most};

use plat_base::{Access, Config, Item, Kind, PAGES, Removed};
use std::marker::Model;

/// What a place of the cache keeps: an entry, and whether a write filled it.
#[derive(Clone, Copy, Debug)]
struct Place {
    entry: u32,
    written: bool,
}

impl Model for Place {
    ghost use Rattle.plat_base.specs.Cache.{Place as Kept};

    ghost Value = { Kept };

    ghost view = { λ it. record { entry = it.entry; written = it.written } };

    ghost inverse = { λ kept. record { entry = kept.entry; written = kept.written } };
}

/// The places of an empty cache.
const NO_PLACES: [Option<Place>; 8] = [None; 8];

/// A processor's cache after some items. Contracts see its eight places and its counts.
#[derive(Clone, Copy, Debug)]
pub(crate) struct CacheCounts {
    places: [Option<Place>; 8],
    hits: u32,
    misses: u32,
}

impl Model for CacheCounts {
    ghost use Rattle.plat_base.specs.Cache.{Cache};

    ghost Value = { Cache };

    ghost view = { λ it. record { places = it.places; hits = it.hits; misses = it.misses } };

    ghost inverse = { λ c. record { places = c.places; hits = c.hits; misses = c.misses } };
}

/// Whether a place serves an access of an entry.
fn serves_access(entry: u32, writes: bool, place: Option<Place>) -> bool
    ensures { result ≡ serves_access entry writes place }
{
    match place {
        Some(kept) => kept.entry == entry && (!writes || kept.written),
        None => false,
    }
}

/// A place without an entry.
fn without_entry(entry: u32, place: Option<Place>) -> Option<Place>
    ensures { result ≡ without_entry entry place }
{
    match place {
        Some(kept) if kept.entry == entry => None,
        _ => place,
    }
}

/// A place without the entries of a page.
fn without_page(cfg: &Config, page: u32, place: Option<Place>) -> Option<Place>
    ensures { result ≡ without_page (machine cfg.now) page place }
{
    match place {
        Some(kept) if page_of(cfg, kept.entry) == page => None,
        _ => place,
    }
}

/// The page of an entry.
fn page_of(cfg: &Config, entry: u32) -> u32
    ensures { result ≡ page_of (machine cfg.now) entry }
{
    match cfg.entries.as_slice().get(entry as usize) {
        Some(found) => found.page,
        None => PAGES,
    }
}

/// Drops an entry from each place that has it.
fn drop_entry(places: &mut [Option<Place>], entry: u32)
    ensures { places.new ≡ map (without_entry entry) places.old }
{
    for place in places.iter_mut() {
        *place = without_entry(entry, *place);
    }
}

/// Drops the entries of a page from the places that have them.
fn drop_page(cfg: &Config, places: &mut [Option<Place>], page: u32)
    ensures { places.new ≡ map (without_page (machine cfg.now) page) places.old }
{
    for place in places.iter_mut() {
        *place = without_page(cfg, page, *place);
    }
}

impl CacheCounts {
    /// The cache after no items.
    pub(crate) fn empty() -> CacheCounts
        ensures { result ≡ cache_start }
    {
        CacheCounts {
            places: NO_PLACES,
            hits: 0,
            misses: 0,
        }
    }

    pub(crate) fn hits(&self) -> u32
        ensures { result ≡ self.now.hits }
    {
        self.hits
    }

    pub(crate) fn misses(&self) -> u32
        ensures { result ≡ self.now.misses }
    {
        self.misses
    }

    /// Takes an item in, if it is one of processor `q`.
    pub(crate) fn take_in(&mut self, cfg: &Config, q: u32, item: &Item)
        requires hits { self.old.hits < most }
        requires misses { self.old.misses < most }
        ensures { self.new ≡ cache_after (machine cfg.now) q self.old item.now }
    {
        match item {
            Item::Access(access) if access.actor == q => self.access(cfg, access),
            Item::Change(change) if change.actor == q && change.removed != Removed::Nothing => {
                drop_page(cfg, &mut self.places, change.page);
            }
            Item::Applied(applied) if applied.actor == q => {
                drop_entry(&mut self.places, applied.entry);
            }
            Item::Switch(switch) if switch.actor == q => self.places = NO_PLACES,
            _ => {}
        }
    }

    fn access(&mut self, cfg: &Config, access: &Access)
        requires hits { self.old.hits < most }
        requires misses { self.old.misses < most }
        ensures { self.new ≡ with_access (machine cfg.now) access.now self.old }
    {
        let vpage = access.addr / cfg.words;
        let Some(entry) = cfg.entry_at(access.space, vpage) else {
            return;
        };
        let writes = access.kind != Kind::Load;
        let at = (vpage % 8) as usize;
        if serves_access(entry, writes, self.places[at]) {
            self.hits += 1;
        } else {
            self.places[at] = Some(Place {
                entry,
                written: writes,
            });
            self.misses += 1;
        }
    }
}
