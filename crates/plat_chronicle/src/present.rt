//! Of each thing that is asked of a history its present value, without the items themselves.
ghost use Rattle.std.specs.Prelude.{◌≡◌, ℕ, ◌<◌, ◌≤◌, true, false, List as Many, [], ◌∷◌, ◌++◌, length, slice_index_or, IfOk, IfSome};
ghost use Rattle.plat_base.specs.Machine.{Machine};
ghost use Rattle.plat_base.specs.Seen.{machine};
ghost use Rattle.plat_base.specs.Rules.{is_legal};
ghost use Rattle.plat_base.specs.declared.items.Item.{Item as AnyItem};
ghost use Rattle.plat_base.specs.declared.items.Item.TheVariants as item;
ghost use Rattle.plat_chronicle.specs.Present.{Shows, Fits, dir_at, seq_at, last_at, value_at, version_at, held_at, active_at};
ghost use Rattle.plat_chronicle.specs.Present.{is_removed_by_other, is_removed_later, all_of, writes_of};

use crate::pages::Pages;
use crate::removals::{Removals, is_above, is_by_other};
use crate::spaces::Spaces;
use crate::translations::Translations;
use plat_base::{Access, Applied, Change, Config, Dir, Item, OutOfMemory, Switch, Translation};
use plat_flat::Flat;
use std::alloc::Global;
use std::marker::Model;

/// What a history says of now: of each page its directory, the number of its changes and its last invalidation, of each
/// processor its translations and its active space, of each word its value, and which changes removed translations. It
/// does not hold the items: `Shows` says which items it is the present of. One call for each kind of item keeps all of
/// it up, and no call but `new` takes memory.
#[derive(Debug, Drop)]
pub struct Present {
    pages: Pages,
    spaces: Spaces,
    removals: Removals,
    translations: Translations,
    flat: Flat,
}

impl Model for Present {
    ghost use Rattle.plat_chronicle.specs.Present.{PresentSeen};

    ghost Value = { PresentSeen };

    ghost view = { λ it. record {
      pages = it.pages.states.items;
      active = it.spaces.active.items;
      removals = it.removals.pages.items;
      held = it.translations.pmaps.items;
      flat = it.flat;
    } };
}

impl Present {
    /// The present of no items.
    pub fn new(alloc: Global, cfg: &Config) -> Result<Present, OutOfMemory>
        ensures { IfOk result (λ it. Shows (machine cfg.now) [] it) }
    {
        let flat = Flat::new(alloc, cfg)?;
        let (Ok(pages), Ok(removals), Ok(spaces), Ok(translations)) = (
            Pages::new(alloc, cfg.pages),
            Removals::new(alloc, cfg.pages),
            Spaces::new(alloc, cfg),
            Translations::new(alloc, cfg),
        ) else {
            return Err(OutOfMemory);
        };
        Ok(Present {
            pages,
            spaces,
            removals,
            translations,
            flat,
        })
    }

    /// The directory of a page.
    pub fn dir(&self, page: u32) -> Dir
        requires { page < length self.now.pages }
        ensures { result ≡ dir_at self.now page }
    {
        self.pages.states[page as usize].dir
    }

    /// The number of a page's changes.
    pub fn seq(&self, page: u32) -> u32
        requires { page < length self.now.pages }
        ensures { result ≡ seq_at self.now page }
    {
        self.pages.states[page as usize].seq
    }

    /// The tick of a page's last invalidation by the protocol.
    pub fn last(&self, page: u32) -> Option<u32>
        requires { page < length self.now.pages }
        ensures { result ≡ last_at self.now page }
    {
        self.pages.states[page as usize].last
    }

    /// The value of a word in flat memory.
    pub fn value(&self, page: u32, word: u32) -> u32
        requires page { page < self.now.flat.pages }
        requires word { word < self.now.flat.words }
        ensures { result ≡ value_at self.now page word }
    {
        self.flat.value(page, word)
    }

    /// How often a word was written.
    pub fn version(&self, page: u32, word: u32) -> u32
        requires page { page < self.now.flat.pages }
        requires word { word < self.now.flat.words }
        ensures { result ≡ version_at self.now page word }
    {
        self.flat.version(page, word)
    }

    /// The translation of an entry that processor `q` holds.
    pub fn held(&self, q: u32, entry: u32) -> Option<Translation>
        requires processor { q < length self.now.held }
        requires entry { entry < length (slice_index_or self.now.held q []) }
        ensures { result ≡ held_at self.now q entry }
    {
        self.translations.find(q, entry)
    }

    /// The space that processor `q` is active in.
    pub fn active(&self, q: u32) -> u32
        requires { q < length self.now.active }
        ensures { result ≡ active_at self.now q }
    {
        self.spaces.active[q as usize]
    }

    /// Whether a change of the page above `seq`, by another actor than `q`, removed all.
    pub fn removed_all(&self, q: u32, page: u32, seq: u32) -> bool
        ensures { result ≡ is_removed_by_other all_of self.now q page seq }
    {
        self.removals
            .pages
            .get(page as usize)
            .is_some_and(|highest| is_by_other(&highest.all, q, seq))
    }

    /// Whether a change of the page above `seq`, by another actor than `q`, removed the right to write.
    pub fn removed_writes(&self, q: u32, page: u32, seq: u32) -> bool
        ensures { result ≡ is_removed_by_other writes_of self.now q page seq }
    {
        self.removals
            .pages
            .get(page as usize)
            .is_some_and(|highest| is_by_other(&highest.writes, q, seq))
    }

    /// Whether any change of the page above `seq` removed all.
    pub fn later_removed_all(&self, page: u32, seq: u32) -> bool
        ensures { result ≡ is_removed_later all_of self.now page seq }
    {
        self.removals
            .pages
            .get(page as usize)
            .is_some_and(|highest| is_above(&highest.all, seq))
    }

    /// Whether any change of the page above `seq` removed the right to write.
    pub fn later_removed_writes(&self, page: u32, seq: u32) -> bool
        ensures { result ≡ is_removed_later writes_of self.now page seq }
    {
        self.removals
            .pages
            .get(page as usize)
            .is_some_and(|highest| is_above(&highest.writes, seq))
    }

    /// Takes an access in. It answers false exactly where the access is not the next one of flat memory, and then
    /// changes nothing.
    pub fn access(&mut self, access: &Access) -> bool
        ensures answer { (m : Machine) (items : Many AnyItem) → Shows m items self.old →
            result ≡ is_legal m items access.now }
        ensures taken { (m : Machine) (items : Many AnyItem) → Shows m items self.old → result ≡ true →
            Shows m (items ++ item.Access access.now ∷ []) self.new }
        ensures refused { result ≡ false → self.new ≡ self.old }
    {
        self.flat.apply(&Item::Access(*access))
    }

    /// Takes a change in.
    pub fn change(&mut self, cfg: &Config, change: &Change)
        requires fits { Fits (machine cfg.now) self.old }
        requires page { change.now.page < cfg.now.pages }
        requires actor { change.now.actor ≤ cfg.now.nodes }
        requires grant { IfSome change.now.granted (λ grant. grant.entry < length cfg.now.entries.items) }
        requires count { seq_at self.old change.now.page < 4294967295 }
        ensures { (items : Many AnyItem) → Shows (machine cfg.now) items self.old →
            Shows (machine cfg.now) (items ++ item.Change change.now ∷ []) self.new }
    {
        self.pages.change(change);
        self.removals.change(change);
        self.translations.change(cfg, change);
    }

    /// Takes an applied message in.
    pub fn applied(&mut self, applied: Applied)
        requires processor { applied.actor < length self.old.held }
        requires entry { applied.entry < length (slice_index_or self.old.held applied.actor []) }
        ensures { (m : Machine) (items : Many AnyItem) → Shows m items self.old →
            Shows m (items ++ item.Applied applied ∷ []) self.new }
    {
        self.translations.applied(applied);
    }

    /// Takes a switch in.
    pub fn switch(&mut self, switch: Switch)
        requires { switch.actor < length self.old.active }
        ensures { (m : Machine) (items : Many AnyItem) → Shows m items self.old →
            Shows m (items ++ item.Switch switch ∷ []) self.new }
    {
        self.spaces.switch(switch);
    }
}
