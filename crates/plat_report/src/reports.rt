//! The report of a history with its ends, and the summary of a generated run.
ghost use Rattle.plat_base.specs.declared.limits.TheConstants.{MOST_ITEMS};
ghost use Rattle.std.specs.Prelude.{◌≡◌, ◌≤◌, List as Many, [], length};
ghost use Rattle.plat_base.specs.Seen.{machine};
ghost use Rattle.plat_base.specs.Report.{report, summary, report_lines, summary_lines};
ghost use Rattle.plat_base.specs.Rules.{Good};
ghost use Rattle.plat_base.specs.Verdicts.{Answer};
ghost use Rattle.plat_flat.specs.FlatSeen.{IsFlatOf};
ghost use Rattle.plat_io.specs.Adds.{Adds};
ghost use Rattle.plat_io.specs.Lines.{AddsLines};
ghost use Rattle.plat_base.specs.declared.items.Item.{Item as AnyItem};
ghost use Rattle.plat_report.specs.Flats.{AreLegal};
ghost use Rattle.plat_report.specs.Sums.{ShowsSums, sum_lines};

use crate::lines::{write_counts, write_totals};
use crate::processors::{write_ends, write_processors};
use crate::sums::Sums;
use crate::tallies::Tally;
use crate::totals::Totals;
use crate::words::write_words;
use plat_base::{Config, Ended, Item};
use plat_io::lines::{Word, write_line};
use plat_io::{Sink, WriteFault};

/// Writes the report of a history with its ends, one line after another. It takes no memory. One pass over the items gives
/// the memory and the counts, and one more for each guest that prints the values that it gets.
#[tactic(auto, unfolding(plat_base::specs::Report::report, plat_io::specs::Lines::text))]
pub fn report<K: Sink>(
    tally: Tally,
    cfg: &Config,
    items: &[Item],
    ends: &[Ended],
    sink: &mut K,
) -> Result<(), WriteFault>
    requires made { IsFlatOf (machine cfg.now) [] tally }
    requires few { length items.now ≤ MOST_ITEMS }
    requires good { (answer : Answer) × Good (machine cfg.now) answer items.now ends.now }
    ensures { Adds K.Sink sink.old sink.new result (report (machine cfg.now) items.now ends.now) }
{
    write_report(tally, cfg, items, ends, sink)
}

#[tactic(auto, using(plat_io::proofs::LineLemmas::lines))]
fn write_report<K: Sink>(
    tally: Tally,
    cfg: &Config,
    items: &[Item],
    ends: &[Ended],
    sink: &mut K,
) -> Result<(), WriteFault>
    requires made { IsFlatOf (machine cfg.now) [] tally }
    requires few { length items.now ≤ MOST_ITEMS }
    requires good { (answer : Answer) × Good (machine cfg.now) answer items.now ends.now }
    ensures { AddsLines K.Sink sink.old sink.new result (report_lines (machine cfg.now) items.now ends.now) }
{
    write_line(
        sink,
        &[
            Word::Text(b"platinum"),
            Word::Text(b"report"),
            Word::Text(b"1"),
        ],
    )?;
    write_processors(cfg, items, ends, sink)?;
    write_sums(tally, cfg, items, sink)
}

/// Writes the lines of the words whose value after these items is not 0, and of the counts.
fn write_sums<K: Sink>(
    tally: Tally,
    cfg: &Config,
    items: &[Item],
    sink: &mut K,
) -> Result<(), WriteFault>
    requires made { IsFlatOf (machine cfg.now) [] tally }
    requires few { length items.now ≤ MOST_ITEMS }
    requires legal { AreLegal (machine cfg.now) items.now }
    ensures { AddsLines K.Sink sink.old sink.new result (sum_lines (machine cfg.now) items.now) }
{
    let sums = tally.after(cfg, items);
    write_sums_of(cfg, &sums, items.len() as u32, sink)
}

/// Writes the lines of flat memory, and of the counts.
fn write_sums_of<K: Sink>(
    cfg: &Config,
    sums: &Sums,
    count: u32,
    sink: &mut K,
) -> Result<(), WriteFault>
    requires { (items : Many AnyItem) × ShowsSums (machine cfg.now) items sums.now }
    ensures { (items : Many AnyItem) → ShowsSums (machine cfg.now) items sums.now → count ≡ length items →
        AddsLines K.Sink sink.old sink.new result (sum_lines (machine cfg.now) items) }
{
    write_words(cfg.pages, cfg.words, &sums.flat, sink)?;
    write_counts(cfg.nodes, &sums.actors, sink)?;
    write_totals(&sums.totals, count, sink)
}

/// Writes the summary of the run that was generated from `n`, one line after another. It takes no memory, and needs
/// none of what the tally holds.
#[tactic(auto, unfolding(plat_base::specs::Report::summary, plat_io::specs::Lines::text))]
pub fn summary<K: Sink>(
    _tally: Tally,
    cfg: &Config,
    items: &[Item],
    ends: &[Ended],
    n: u32,
    sink: &mut K,
) -> Result<(), WriteFault>
    requires made { IsFlatOf (machine cfg.now) [] _tally }
    requires few { length items.now ≤ MOST_ITEMS }
    requires good { (answer : Answer) × Good (machine cfg.now) answer items.now ends.now }
    ensures { Adds K.Sink sink.old sink.new result (summary n (machine cfg.now) items.now ends.now) }
{
    write_summary(cfg, items, ends, n, sink)
}

#[tactic(auto, using(plat_io::proofs::LineLemmas::lines))]
fn write_summary<K: Sink>(
    cfg: &Config,
    items: &[Item],
    ends: &[Ended],
    n: u32,
    sink: &mut K,
) -> Result<(), WriteFault>
    requires few { length items.now ≤ MOST_ITEMS }
    requires good { (answer : Answer) × Good (machine cfg.now) answer items.now ends.now }
    ensures { AddsLines K.Sink sink.old sink.new result
        (summary_lines n (machine cfg.now) items.now ends.now) }
{
    write_line(sink, &[Word::Text(b"big"), Word::Number(n)])?;
    write_ends(cfg.nodes, ends, sink)?;
    write_totals(&Totals::of(items), items.len() as u32, sink)
}
