//! How many items there are in all of those that wait for one item.
ghost use Rattle.std.specs.Prelude.{◌≡◌, ◌+◌, ◌*◌, ◌<◌, ◌≤◌, length, replicate, IfOk};
ghost use Rattle.plat_base.specs.declared.limits.TheConstants.{MOST_ITEMS, PAGES, PAGE_WORDS, WORDS};
ghost use Rattle.plat_merge.specs.Keys.{total_at, IsBlank, AreBlank, HaveRows};

use crate::keys::key_at;
use plat_base::OutOfMemory;
use std::alloc::Global;

/// A row of numbers for each word, or for each page. The rows stand one after another; `starts` is where each one starts.
#[derive(Debug, Drop)]
pub struct Table {
    pub starts: Vec<u32>,
    pub numbers: Vec<u32>,
}

/// How many loads find each version of each word; and how many accesses go by each grant of each page, and how many of
/// those write.
#[derive(Debug, Drop)]
pub struct Totals {
    pub loads: Table,
    pub uses: Table,
    pub writes: Table,
}

fn room_for_numbers(alloc: Global, n: usize, number: u32) -> Result<Vec<u32>, OutOfMemory>
    ensures { IfOk result (λ it. it.items ≡ replicate n number) }
{
    match vec![in alloc; number; n] {
        Ok(numbers) => Ok(numbers),
        Err(_) => Err(OutOfMemory),
    }
}

impl Table {
    /// A table of which nothing is counted, with room for so many rows and items.
    fn new(alloc: Global, rows: u32, most: u32) -> Result<Table, OutOfMemory>
        requires rows { rows ≤ WORDS }
        requires most { most ≤ MOST_ITEMS }
        ensures blank { IfOk result (IsBlank most) }
        ensures rows { IfOk result (λ it. length it.starts.items ≡ rows + 1) }
    {
        Ok(Table {
            starts: room_for_numbers(alloc, rows as usize + 1, 1)?,
            numbers: room_for_numbers(alloc, (rows + 1 + most) as usize, 0)?,
        })
    }

    /// How many are counted at a place of a row.
    pub fn how_many(&self, row: usize, place: u32) -> u32
        requires { row < WORDS }
        ensures { result ≡ total_at self.now row place }
    {
        match key_at(&self.starts, row, place) {
            Some(key) if key < self.numbers.len() => self.numbers[key],
            Some(_) | None => 0,
        }
    }
}

impl Totals {
    /// Tables of which nothing is counted, with room for so many pages, words of each and items.
    pub fn new(alloc: Global, pages: u32, page_words: u32, most: u32) -> Result<Totals, OutOfMemory>
        requires pages { pages ≤ PAGES }
        requires words { page_words ≤ PAGE_WORDS }
        requires most { most ≤ MOST_ITEMS }
        ensures blank { IfOk result (AreBlank most) }
        ensures rows { IfOk result (HaveRows pages page_words) }
    {
        Ok(Totals {
            loads: Table::new(alloc, pages * page_words, most)?,
            uses: Table::new(alloc, pages, most)?,
            writes: Table::new(alloc, pages, most)?,
        })
    }
}
