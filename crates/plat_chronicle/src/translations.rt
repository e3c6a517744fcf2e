//! The translations that each processor holds.
ghost use Rattle.std.specs.Prelude.{◌≡◌, ◌≢◌, ℕ, ◌<◌, ◌==◌, List as Many, [], ◌∷◌, ◌++◌, length, None, slice_index_or, IfOk, IfSome};
ghost use Rattle.std.specs.Prelude.{if◌then◌else◌};
ghost use Rattle.plat_base.specs.Machine.{Machine};
ghost use Rattle.plat_base.specs.Seen.{machine};
ghost use Rattle.plat_base.specs.Pages.{page_of};
ghost use Rattle.plat_base.specs.Held.{kept_of};
ghost use Rattle.plat_base.specs.declared.items.Item.{Item as AnyItem};
ghost use Rattle.plat_base.specs.declared.items.Item.TheVariants as item;
ghost use Rattle.plat_chronicle.specs.Translations.{ShowsTranslations, kept};

use plat_base::{Applied, Change, Config, Message, Removed, Translation};
use plat_pmap::Pmap;
use std::alloc::{AllocError, Global};

/// The physical map of each processor, by its number.
#[derive(Debug, Drop)]
pub struct Translations {
    pub pmaps: Vec<Pmap>,
}

/// Takes away from one entry's translation what a change by the processor itself removed.
fn remove_entry(pmap: &mut Pmap, entry: u32, removed: Removed)
    requires { entry < length pmap.old }
    ensures wide { length pmap.new ≡ length pmap.old }
    ensures same { (other : ℕ) → other ≢ entry → slice_index_or pmap.new other None
        ≡ slice_index_or pmap.old other None }
    ensures kept { slice_index_or pmap.new entry None ≡ kept_of removed (slice_index_or pmap.old entry None) }
{
    match removed {
        Removed::Nothing => {}
        Removed::Writes => pmap.lower(entry),
        Removed::All => pmap.drop_entry(entry),
    }
}

/// Takes away from the translations of a page what a change by the processor itself removed.
fn remove_own(cfg: &Config, pmap: &mut Pmap, page: u32, removed: Removed)
    requires { length pmap.old ≡ length cfg.now.entries.items }
    ensures wide { length pmap.new ≡ length pmap.old }
    ensures places { (entry : ℕ) → entry < length pmap.old → slice_index_or pmap.new entry None
        ≡ (if page_of (machine cfg.now) entry == page then
        kept_of removed (slice_index_or pmap.old entry None) else slice_index_or pmap.old entry None) }
{
    for entry in cfg.entries_of_page(page) {
        remove_entry(pmap, *entry, removed);
    }
}

impl Translations {
    /// No processor holds a translation.
    pub fn new(alloc: Global, cfg: &Config) -> Result<Translations, AllocError>
        ensures { IfOk result (λ it. ShowsTranslations (machine cfg.now) [] it.pmaps.items) }
    {
        let mut pmaps = Vec::new(alloc);
        for _q in 0..cfg.nodes {
            let Ok(pmap) = Pmap::new(alloc, cfg) else {
                return Err(AllocError);
            };
            pmaps.push(pmap)?;
        }
        Ok(Translations { pmaps })
    }

    /// What processor `q` holds for an entry.
    pub fn find(&self, q: u32, entry: u32) -> Option<Translation>
        requires processor { q < length self.now.pmaps.items }
        requires entry { entry < length (slice_index_or self.now.pmaps.items q []) }
        ensures { result ≡ kept self.now.pmaps.items q entry }
    {
        self.pmaps[q as usize].find(entry)
    }

    /// Takes a change in; the daemon holds nothing.
    pub fn change(&mut self, cfg: &Config, change: &Change)
        requires size { length self.old.pmaps.items ≡ cfg.now.nodes }
        requires wide { (q : ℕ) → q < cfg.now.nodes → length (slice_index_or self.old.pmaps.items q [])
            ≡ length cfg.now.entries.items }
        requires grant { IfSome change.now.granted (λ grant. grant.entry < length cfg.now.entries.items) }
        ensures { (items : Many AnyItem) → ShowsTranslations (machine cfg.now) items self.old.pmaps.items →
            ShowsTranslations (machine cfg.now) (items ++ item.Change change.now ∷ []) self.new.pmaps.items }
    {
        if change.actor as usize >= self.pmaps.len() {
            return;
        }
        let pmap = &mut self.pmaps[change.actor as usize];
        remove_own(cfg, pmap, change.page, change.removed);
        if let Some(grant) = change.granted {
            pmap.install(grant, change.seq);
        }
    }

    /// Takes an applied message in.
    pub fn applied(&mut self, applied: Applied)
        requires processor { applied.actor < length self.old.pmaps.items }
        requires entry { applied.entry < length (slice_index_or self.old.pmaps.items applied.actor []) }
        ensures { (m : Machine) (items : Many AnyItem) → ShowsTranslations m items self.old.pmaps.items →
            ShowsTranslations m (items ++ item.Applied applied ∷ []) self.new.pmaps.items }
    {
        let pmap = &mut self.pmaps[applied.actor as usize];
        match applied.message {
            Message::Invalidate => pmap.drop_entry(applied.entry),
            Message::Restrict => pmap.restrict(applied.entry),
        }
    }
}
