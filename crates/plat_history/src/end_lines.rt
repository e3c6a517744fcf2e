//! The lines of ends, as they are read.
ghost use Rattle.std.specs.Prelude.{◌≡◌, codes, []};
ghost use Rattle.std.specs.Fmt.{decimal};
ghost use Rattle.plat_grammar.specs.Forms.{Reads, Gives, one, exactly, line_at};
ghost use Rattle.plat_grammar.specs.HistoryForms.{named, endings, ended_line};
ghost use Rattle.plat_grammar.specs.HistoryFaults.{ends_from};

use crate::names::read_end;
use plat_base::{BUDGET, End, Ended, List, Refused, TextFault, Why};
use plat_text::{Row, Rows, at_word, read_u32};
use std::alloc::Global;

/// The number that has to stand there.
#[tactic(auto, using(crate::proofs::EndLemmas::exactly_number))]
fn read_node(word: &[u8], node: u32) -> Result<(), Why>
    ensures { result ≡ exactly (decimal node) word.now }
{
    match read_u32(word) {
        Ok(n) if n == node => Ok(()),
        _ => Err(Why::Expected),
    }
}

fn node(row: &mut Row<'_>, node: u32) -> Result<(), Refused>
    ensures { Reads (λ _. (tt {0}, row.new)) result (one (exactly (decimal node)) row.old) }
{
    let line = row.line();
    let found = row.next_word()?;
    at_word(line, found, read_node(found.bytes, node))
}

fn end(row: &mut Row<'_>) -> Result<End, Refused>
    ensures { Reads (λ end. (end, row.new)) result (one (named endings) row.old) }
{
    let line = row.line();
    let found = row.next_word()?;
    at_word(line, found, read_end(found.bytes))
}

/// Reads the line of a processor.
#[tactic(auto, unfolding(plat_grammar::specs::HistoryForms::ended_line))]
fn ended(rows: &mut Rows<'_>, q: u32) -> Result<Ended, Refused>
    ensures { Reads (λ ended. (ended, rows.new)) result
        (line_at (codes "processor") (ended_line q) rows.old) }
{
    let mut row = rows.row_with(b"processor")?;
    node(&mut row, q)?;
    let end = end(&mut row)?;
    let turns = row.number(0, BUDGET)?;
    row.finish()?;
    Ok(Ended { end, turns })
}

/// Reads the lines of all processors.
#[tactic(auto, using(crate::proofs::LoopLemmas::end_steps))]
pub fn read_ends(alloc: Global, rows: &mut Rows<'_>, nodes: u32) -> Result<List<Ended>, TextFault>
    ensures { Gives (λ list. (list.items, rows.new)) result (ends_from nodes [] rows.old) }
{
    let mut ends = List::new(alloc);
    for q in 0..nodes {
        let ended = ended(rows, q)?;
        ends.reserve(1)?;
        ends.push(ended);
    }
    Ok(ends)
}
