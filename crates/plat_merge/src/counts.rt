//! What is kept of each word and of each page while journals are merged, so that an item costs the same however long the
//! journals are.
ghost use Rattle.std.specs.Prelude.{ℕ, replicate, ◌≡◌, ◌+◌, ◌*◌, ◌<◌, ◌≤◌, length, IsTrue, IfOk};
ghost use Rattle.plat_base.specs.declared.limits.TheConstants.{MOST_ITEMS, PAGES, PAGE_WORDS, WORDS};
ghost use Rattle.plat_merge.specs.Standing.{may_access as may_access_by, may_remove as may_remove_by};
ghost use Rattle.plat_merge.specs.Keys.{AreFirst};
ghost use Rattle.plat_merge.specs.Counts.{cell_of, page_at, FitCounts, is_within, stands_by, word_of, loads_of, Noted, pages_after};
ghost use Rattle.plat_merge.specs.Counts.{pages_changed, no_page};

use crate::totals::Table;
use plat_base::{Access, Change, Item, OutOfMemory, Removed};
use std::alloc::Global;

/// Of one word how many writes are placed, and how many loads of its versions so far are still to come.
#[derive(Clone, Copy, Debug)]
pub struct WordCount {
    pub writes: u32,
    pub loads: u32,
}

/// Of one page how many changes are placed, and how many accesses by their grants are still to come; and of those the
/// writes.
#[derive(Clone, Copy, Debug)]
pub struct PageCount {
    pub changes: u32,
    pub uses: u32,
    pub writes: u32,
}

/// What is kept of each word, page after page, and of each page.
#[derive(Debug, Drop)]
pub struct Counts {
    pub page_words: u32,
    pub words: Vec<WordCount>,
    pub pages: Vec<PageCount>,
    pub ghost fits: { FitCounts page_words words.items pages.items },
}

fn may_access(word: WordCount, page: PageCount, access: &Access) -> bool
    ensures { result ≡ may_access_by word.writes word.loads page.changes access.now }
{
    access.grant < page.changes
        && if access.kind.is_write() {
            u64::from(access.version) == u64::from(word.writes) + 1 && word.loads == 0
        } else {
            access.version <= word.writes
        }
}

fn may_remove(page: PageCount, removed: Removed) -> bool
    ensures { result ≡ may_remove_by page.uses page.writes removed }
{
    match removed {
        Removed::Nothing => true,
        Removed::Writes => page.writes == 0,
        Removed::All => page.uses == 0,
    }
}

impl Counts {
    /// The place of the word that an access goes to.
    pub fn cell(&self, access: &Access) -> usize
        requires page { access.now.page < length self.now.pages.items }
        requires word { access.now.word < self.now.page_words }
        ensures cell { result ≡ cell_of self.now.page_words access.now.page access.now.word }
        ensures within { result < length self.now.words.items }
        ensures few { result < WORDS }
    {
        (access.page * self.page_words + access.word) as usize
    }

    /// Notes of each word how many loads find it as it is before all writes.
    #[tactic(auto, using(crate::proofs::KeyLemmas::few_cells))]
    pub fn begin(&mut self, loads: &Table)
        ensures words { AreFirst loads.now (length self.old.words.items) self.new.words.items }
        ensures size { length self.new.words.items ≡ length self.old.words.items }
        ensures pages { self.new.pages.items ≡ self.old.pages.items }
        ensures same { self.new.page_words ≡ self.old.page_words }
    {
        for cell in 0..self.words.len() {
            self.words[cell] = WordCount {
                writes: 0,
                loads: loads.how_many(cell, 0),
            };
        }
    }

    /// Whether the item may stand next.
    pub fn may_stand(&self, item: &Item) -> bool
        requires within { IsTrue (is_within (length self.now.pages.items) self.now.page_words item.now) }
        ensures { result ≡ stands_by self.now.page_words self.now.words.items self.now.pages.items item.now }
    {
        match item {
            Item::Access(access) => may_access(
                self.words[self.cell(access)],
                self.pages[access.page as usize],
                access,
            ),
            Item::Change(change) => {
                let page = self.pages[change.page as usize];
                change.seq == page.changes && may_remove(page, change.removed)
            }
            Item::Applied(_) | Item::Switch(_) => true,
        }
    }

    /// Places an access. Where it writes, `loads` are the loads that find what it wrote.
    pub fn place_access(&mut self, access: &Access, loads: u32)
        requires page { access.now.page < length self.old.pages.items }
        requires word { access.now.word < self.old.page_words }
        requires few { (word_of self.old.page_words self.old.words.items access.now).writes < MOST_ITEMS }
        requires all { loads_of self.old.page_words self.old.words.items access.now + loads ≤ MOST_ITEMS }
        ensures words { Noted access.now loads self.old.page_words self.old.words.items self.new.words.items }
        ensures pages { self.new.pages.items ≡ pages_after access.now self.old.pages.items }
        ensures same { self.new.page_words ≡ self.old.page_words }
    {
        let cell = self.cell(access);
        let word = &mut self.words[cell];
        let page = &mut self.pages[access.page as usize];
        page.uses = page.uses.saturating_sub(1);
        if access.kind.is_write() {
            word.writes += 1;
            word.loads += loads;
            page.writes = page.writes.saturating_sub(1);
        } else {
            word.loads = word.loads.saturating_sub(1);
        }
    }

    /// Places a change. By its grant go `uses` accesses, of which `writes` write.
    pub fn place_change(&mut self, change: &Change, uses: u32, writes: u32)
        requires page { change.now.page < length self.old.pages.items }
        requires few { (page_at self.old.pages.items change.now.page).changes < MOST_ITEMS }
        requires uses { (page_at self.old.pages.items change.now.page).uses + uses ≤ MOST_ITEMS }
        requires writes { (page_at self.old.pages.items change.now.page).writes + writes ≤ MOST_ITEMS }
        ensures words { self.new.words.items ≡ self.old.words.items }
        ensures pages { self.new.pages.items ≡ pages_changed change.now uses writes self.old.pages.items }
        ensures same { self.new.page_words ≡ self.old.page_words }
    {
        let page = &mut self.pages[change.page as usize];
        page.changes += 1;
        page.uses += uses;
        page.writes += writes;
    }

    /// Counts for words and pages of which nothing is placed.
    pub fn new(alloc: Global, pages: u32, page_words: u32) -> Result<Counts, OutOfMemory>
        requires pages { pages ≤ PAGES }
        requires words { page_words ≤ PAGE_WORDS }
        ensures pages { IfOk result (λ it. length it.pages.items ≡ pages) }
        ensures words { IfOk result (λ it. it.page_words ≡ page_words) }
        ensures blank { IfOk result (λ it. it.pages.items ≡ replicate pages no_page) }
    {
        Ok(Counts {
            page_words,
            words: no_words(alloc, (pages * page_words) as usize)?,
            pages: no_pages(alloc, pages as usize)?,
        })
    }
}

fn no_words(alloc: Global, n: usize) -> Result<Vec<WordCount>, OutOfMemory>
    ensures { IfOk result (λ it. length it.items ≡ n) }
{
    let word = WordCount {
        writes: 0,
        loads: 0,
    };
    match vec![in alloc; word; n] {
        Ok(words) => Ok(words),
        Err(_) => Err(OutOfMemory),
    }
}

fn no_pages(alloc: Global, n: usize) -> Result<Vec<PageCount>, OutOfMemory>
    ensures length { IfOk result (λ it. length it.items ≡ n) }
    ensures blank { IfOk result (λ it. it.items ≡ replicate n no_page) }
{
    let page = PageCount {
        changes: 0,
        uses: 0,
        writes: 0,
    };
    match vec![in alloc; page; n] {
        Ok(pages) => Ok(pages),
        Err(_) => Err(OutOfMemory),
    }
}
