//! Whole history texts, as they are read.
ghost use Rattle.std.specs.Prelude.{◌≡◌, ◌≤◌, length, codes, [], IfOk, Ok};
ghost use Rattle.plat_base.specs.Seen.{machine};
ghost use Rattle.plat_base.specs.declared.limits.TheConstants.{MOST_ITEMS};
ghost use Rattle.plat_grammar.specs.Forms.{Reads, Gives, line_at, nothing};
ghost use Rattle.plat_grammar.specs.FirstFault.{number_line, version_line};
ghost use Rattle.plat_grammar.specs.HistoryCanon.{History as HistorySeen, most_items};
ghost use Rattle.plat_grammar.specs.HistoryFaults.{items_from, told_at, lines_at, history_at};
ghost use Rattle.plat_grammar.specs.HistoryGrammar.{IsHistory, IsHistoryTextOf};
ghost use Rattle.plat_history.specs.Shown.{seen};

use crate::end_lines::read_ends;
use crate::histories::History;
use crate::item_lines::read_item;
use plat_base::{Config, Item, List, MOST_ITEMS, Refused, TextFault, Why};
use plat_machine::read_machine;
use plat_text::Rows;
use std::alloc::Global;

/// The most bytes that a history text can have.
const MOST_BYTES: usize = 268_435_456;

/// The bytes of the shortest line of an item, `switch 0 0` and its line feed.
const SHORTEST_ITEM: usize = 11;

fn version(rows: &mut Rows<'_>) -> Result<(), Refused>
    ensures { Reads (λ _. (tt {0}, rows.new)) result (line_at (codes "history") version_line rows.old) }
{
    let mut row = rows.row_with(b"history")?;
    row.key(b"1")?;
    row.finish()
}

fn count(rows: &mut Rows<'_>) -> Result<u32, Refused>
    ensures reads { Reads (λ n. (n, rows.new)) result
        (line_at (codes "items") (number_line 0 most_items) rows.old) }
    ensures few { IfOk result (λ n. n ≤ MOST_ITEMS) }
{
    let mut row = rows.row_with(b"items")?;
    let n = row.number(0, MOST_ITEMS as u32)?;
    row.finish()?;
    Ok(n)
}

/// A line of one word.
fn word_line(rows: &mut Rows<'_>, word: &[u8]) -> Result<(), Refused>
    ensures { Reads (λ _. (tt {0}, rows.new)) result (line_at word.now nothing rows.old) }
{
    let row = rows.row_with(word)?;
    row.finish()
}

/// Reads so many items. It makes room for them first, though for no more than a text of `bytes` bytes can have: a false
/// count takes no memory.
#[tactic(auto, using(crate::proofs::LoopLemmas::item_steps))]
fn read_items(
    alloc: Global,
    rows: &mut Rows<'_>,
    cfg: &Config,
    count: u32,
    bytes: usize,
) -> Result<List<Item>, TextFault>
    ensures reads { Gives (λ list. (list.items, rows.new)) result
        (items_from (machine cfg.now) count [] rows.old) }
    ensures count { IfOk result (λ list. length list.items ≡ count) }
{
    let room = (bytes / SHORTEST_ITEM).min(count as usize);
    let mut items = List::with_room(alloc, room)?;
    for _item in 0..count {
        let mut row = rows.next_row()?;
        let item = read_item(&mut row, cfg)?;
        items.reserve(1)?;
        items.push(item);
    }
    Ok(items)
}

/// Reads the lines from `items` to the last `end`.
#[tactic(auto, unfolding(plat_grammar::specs::HistoryFaults::told_at))]
fn read_told(
    alloc: Global,
    rows: &mut Rows<'_>,
    cfg: Config,
    bytes: usize,
) -> Result<History, TextFault>
    ensures { Gives (λ h. (seen h, rows.new)) result (told_at (machine cfg) rows.old) }
{
    let count = count(rows)?;
    let items = read_items(alloc, rows, &cfg, count, bytes)?;
    word_line(rows, b"ends")?;
    let ends = read_ends(alloc, rows, cfg.nodes)?;
    word_line(rows, b"end")?;
    Ok(History { cfg, items, ends })
}

#[tactic(auto, unfolding(plat_grammar::specs::HistoryFaults::lines_at))]
fn read_lines(alloc: Global, rows: &mut Rows<'_>, bytes: usize) -> Result<History, TextFault>
    ensures { Gives (λ h. (seen h, rows.new)) result (lines_at rows.old) }
{
    version(rows)?;
    let (cfg, _) = read_machine(alloc, rows)?;
    read_told(alloc, rows, cfg, bytes)
}

#[tactic(auto, unfolding(plat_grammar::specs::HistoryFaults::history_at))]
fn read_text(alloc: Global, bytes: &[u8]) -> Result<History, TextFault>
    ensures { Gives seen result (history_at bytes.now) }
{
    if bytes.len() > MOST_BYTES {
        return Err(TextFault::Refused(Refused {
            line: 0,
            column: 0,
            why: Why::TooLong,
        }));
    }
    let mut rows = Rows::new(1, bytes);
    let history = read_lines(alloc, &mut rows, bytes.len())?;
    rows.finish()?;
    Ok(history)
}

/// The history of a history text, or its first fault. The text is read in one pass. It takes memory for the items, which
/// is at most some seven times that of the bytes, and for the machine.
pub fn read_history(alloc: Global, bytes: &[u8]) -> Result<History, TextFault>
    // What is read is in the grammar of the history.
    ensures found { IfOk result (λ h. IsHistoryTextOf bytes.now (seen h)) }
    // Its numbers are in range.
    ensures ranges { IfOk result (λ h. IsHistory (seen h)) }
    // A text in the grammar of a history is read as that history, unless memory runs out; so it is the only one.
    ensures only { (h : HistorySeen) → IsHistory h → IsHistoryTextOf bytes.now h → Gives seen result (Ok h) }
    // Which fault it is.
    ensures exact { Gives seen result (history_at bytes.now) }
{
    read_text(alloc, bytes)
}
