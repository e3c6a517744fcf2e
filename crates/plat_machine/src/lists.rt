//! The lines of distances, entries and starting values.
ghost use Rattle.std.specs.Prelude.{◌≡◌};
ghost use Rattle.std.specs.List.{list_any};
ghost use Rattle.plat_base.specs.Machine.{same_nodes, same_place, same_word};
ghost use Rattle.plat_grammar.specs.Forms.{Reads, Gives, once};
ghost use Rattle.plat_grammar.specs.FirstFault.{other_node, distance_line, entry_line, init_line, distances_at, entries_at, inits_at};

use plat_base::{
    Distance, Entries, Entry, Init, List, Refused, SPACES, TextFault, VIRTUAL_PAGES, Why,
};
use plat_text::{Row, Rows, at_word, read_u32, refusal};
use std::alloc::Global;

fn read_other(word: &[u8], nodes: u32, a: u32) -> Result<u32, Why>
    ensures { result ≡ other_node nodes a word.now }
{
    let b = read_u32(word)?;
    if b >= nodes {
        Err(Why::OutOfRange)
    } else if b == a {
        Err(Why::SelfDistance)
    } else {
        Ok(b)
    }
}

#[tactic(auto, unfolding(plat_grammar::specs::FirstFault::distance_line))]
fn distance(row: &mut Row<'_>, nodes: u32) -> Result<Distance, Refused>
    ensures { Reads (λ d. d) result (distance_line nodes row.old) }
{
    let a = row.below(nodes)?;
    let line = row.line();
    let found = row.next_word()?;
    let b = at_word(line, found, read_other(found.bytes, nodes, a))?;
    let d = row.number(1, 1000)?;
    row.finish()?;
    Ok(Distance { a, b, d })
}

#[tactic(auto, unfolding(plat_grammar::specs::FirstFault::entry_line))]
fn entry(row: &mut Row<'_>, pages: u32) -> Result<Entry, Refused>
    ensures { Reads (λ e. e) result (entry_line pages row.old) }
{
    let space = row.number(0, SPACES - 1)?;
    let vpage = row.number(0, VIRTUAL_PAGES - 1)?;
    let page = row.below(pages)?;
    row.finish()?;
    Ok(Entry { space, vpage, page })
}

#[tactic(auto, unfolding(plat_grammar::specs::FirstFault::init_line))]
fn init(row: &mut Row<'_>, pages: u32, words: u32) -> Result<Init, Refused>
    ensures { Reads (λ i. i) result (init_line pages words row.old) }
{
    let page = row.below(pages)?;
    let word = row.below(words)?;
    let value = row.any_number()?;
    row.finish()?;
    Ok(Init { page, word, value })
}

fn has_nodes(seen: &[Distance], read: Distance) -> bool
    ensures { result ≡ list_any (same_nodes read) seen.now }
{
    seen.iter().any(|d| read.a == d.a && read.b == d.b)
}

fn has_place(seen: &[Entry], read: Entry) -> bool
    ensures { result ≡ list_any (same_place read) seen.now }
{
    seen.iter()
        .any(|e| read.space == e.space && read.vpage == e.vpage)
}

fn has_word(seen: &[Init], read: Init) -> bool
    ensures { result ≡ list_any (same_word read) seen.now }
{
    seen.iter()
        .any(|i| read.page == i.page && read.word == i.word)
}

fn new_distance(row: &mut Row<'_>, nodes: u32, seen: &[Distance]) -> Result<Distance, Refused>
    ensures { Reads (λ d. d) result (once same_nodes seen.now (distance_line nodes) row.old) }
{
    let line = row.line();
    let first = row.peek()?;
    let read = distance(row, nodes)?;
    if has_nodes(seen, read) {
        return Err(refusal(line, first, Why::Duplicate));
    }
    Ok(read)
}

fn new_entry(row: &mut Row<'_>, pages: u32, seen: &[Entry]) -> Result<Entry, Refused>
    ensures { Reads (λ e. e) result (once same_place seen.now (entry_line pages) row.old) }
{
    let line = row.line();
    let first = row.peek()?;
    let read = entry(row, pages)?;
    if has_place(seen, read) {
        return Err(refusal(line, first, Why::Duplicate));
    }
    Ok(read)
}

fn new_init(row: &mut Row<'_>, pages: u32, words: u32, seen: &[Init]) -> Result<Init, Refused>
    ensures { Reads (λ i. i) result (once same_word seen.now (init_line pages words) row.old) }
{
    let line = row.line();
    let first = row.peek()?;
    let read = init(row, pages, words)?;
    if has_word(seen, read) {
        return Err(refusal(line, first, Why::Duplicate));
    }
    Ok(read)
}

/// Reads the `distance` lines.
#[tactic(auto, using(plat_text::proofs::FormLemmas::repeated_steps), unfolding(plat_grammar::specs::FirstFault::distances_at))]
pub fn distances(
    alloc: Global,
    rows: &mut Rows<'_>,
    nodes: u32,
) -> Result<List<Distance>, TextFault>
    ensures { Gives (λ list. (list.items, rows.new)) result (distances_at nodes rows.old) }
{
    let mut list = List::new(alloc);
    while let Some(mut row) = rows.next_if(b"distance")? {
        let read = new_distance(&mut row, nodes, list.as_slice())?;
        list.reserve(1)?;
        list.push(read);
    }
    Ok(list)
}

/// Reads the `map` lines one by one.
#[tactic(auto, using(plat_text::proofs::FormLemmas::repeated_steps), unfolding(plat_grammar::specs::FirstFault::entries_at))]
fn entry_list(alloc: Global, rows: &mut Rows<'_>, pages: u32) -> Result<List<Entry>, TextFault>
    ensures { Gives (λ list. (list.items, rows.new)) result (entries_at pages rows.old) }
{
    let mut list = List::new(alloc);
    while let Some(mut row) = rows.next_if(b"map")? {
        let read = new_entry(&mut row, pages, list.as_slice())?;
        list.reserve(1)?;
        list.push(read);
    }
    Ok(list)
}

/// Reads the `map` lines.
pub fn entries(alloc: Global, rows: &mut Rows<'_>, pages: u32) -> Result<Entries, TextFault>
    ensures { Gives (λ entries. (entries.items, rows.new)) result (entries_at pages rows.old) }
{
    let list = entry_list(alloc, rows, pages)?;
    Ok(Entries::new(alloc, list)?)
}

/// Reads the `init` lines.
#[tactic(auto, using(plat_text::proofs::FormLemmas::repeated_steps), unfolding(plat_grammar::specs::FirstFault::inits_at))]
pub fn inits(
    alloc: Global,
    rows: &mut Rows<'_>,
    pages: u32,
    words: u32,
) -> Result<List<Init>, TextFault>
    ensures { Gives (λ list. (list.items, rows.new)) result (inits_at pages words rows.old) }
{
    let mut list = List::new(alloc);
    while let Some(mut row) = rows.next_if(b"init")? {
        let read = new_init(&mut row, pages, words, list.as_slice())?;
        list.reserve(1)?;
        list.push(read);
    }
    Ok(list)
}
