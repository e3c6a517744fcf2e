//! The text of the costs of a history.
ghost use Rattle.std.specs.Prelude.{◌≡◌, ◌+◌, ◌*◌, ◌<◌, ◌≤◌, ◌∷◌, [], length, sum_by, OnOk};
ghost use Rattle.std.specs.List.{flat_map};
ghost use Rattle.plat_base.specs.Pages.{numbers};
ghost use Rattle.plat_base.specs.Seen.{machine};
ghost use Rattle.plat_base.specs.declared.limits.TheConstants.{MOST_ITEMS, MOST_TURNS};
ghost use Rattle.plat_cost.specs.CostLines.{cost_lines, cost_text, least, page_line, page_lines, place_lines, placed_lines, plan_lines};
ghost use Rattle.plat_cost.specs.CostLines.{total_line};
ghost use Rattle.plat_cost.specs.Costs.{actual, CanPlace};
ghost use Rattle.plat_cost.specs.Placements.{IsFor};
ghost use Rattle.plat_cost.specs.declared.printing.TheConstants.{MOST_ACTUAL};
ghost use Rattle.plat_cost.specs.declared.rests.TheConstants.{MOST_REST};
ghost use Rattle.plat_io.specs.Adds.{Adds};
ghost use Rattle.plat_io.specs.Lines.{AddsLines};

use crate::placers::{Placed, Placer};
use itoa::Buffer;
use plat_base::{Config, Item};
use plat_io::Word::{Number, Text};
use plat_io::{Sink, WriteFault, write_line};

/// The most that a page can have cost: 64,000 for each item.
const MOST_ACTUAL: u64 = 167_772_160_000;

/// Writes the costs of a history: of each page with accesses a line with its costs, and the places of its best plan; at
/// last the sums over all pages. It takes no memory, and goes over the items three times for each page. A placer for this
/// machine is left as one.
#[tactic(auto, unfolding(crate::specs::CostLines::cost_text, plat_io::specs::Lines::text))]
pub fn print_costs<K: Sink>(
    cfg: &Config,
    items: &[Item],
    placer: &mut Placer,
    sink: &mut K,
) -> Result<(), WriteFault>
    requires made { IsFor (machine cfg.now) placer.old }
    requires few { length items.now ≤ MOST_ITEMS }
    requires places { CanPlace (machine cfg.now) items.now }
    ensures written { Adds K.Sink sink.old sink.new result (cost_text (machine cfg.now) items.now) }
    ensures made { IsFor (machine cfg.now) placer.new }
{
    write_costs(cfg, items, placer, sink)
}

#[tactic(auto, using(plat_io::proofs::LineLemmas::lines))]
fn write_costs<K: Sink>(
    cfg: &Config,
    items: &[Item],
    placer: &mut Placer,
    sink: &mut K,
) -> Result<(), WriteFault>
    requires made { IsFor (machine cfg.now) placer.old }
    requires few { length items.now ≤ MOST_ITEMS }
    requires places { CanPlace (machine cfg.now) items.now }
    ensures written { AddsLines K.Sink sink.old sink.new result (cost_lines (machine cfg.now) items.now) }
    ensures made { IsFor (machine cfg.now) placer.new }
{
    let mut totals = Totals {
        actual: 0,
        least: 0,
    };
    write_line(sink, &[Text(b"platinum"), Text(b"cost"), Text(b"1")])?;
    write_pages(cfg, items, placer, &mut totals, sink)?;
    write_total(&totals, sink)
}

/// Sums over the pages so far.
#[derive(Drop)]
struct Totals {
    actual: u64,
    least: u64,
}

fn write_total<K: Sink>(totals: &Totals, sink: &mut K) -> Result<(), WriteFault>
    ensures { AddsLines K.Sink sink.old sink.new result (total_line totals.now.actual totals.now.least ∷ []) }
{
    write_line(
        sink,
        &[
            Text(b"total"),
            Text(b"actual"),
            Text(Buffer::new().format(totals.actual).as_bytes()),
            Text(b"least"),
            Text(Buffer::new().format(totals.least).as_bytes()),
        ],
    )
}

/// Places each page and writes its lines; adds the costs of all pages to sums that are 0.
#[tactic(auto, using(plat_io::proofs::LineLemmas::counted_lines, crate::proofs::PageLemmas::page_sums))]
fn write_pages<K: Sink>(
    cfg: &Config,
    items: &[Item],
    placer: &mut Placer,
    totals: &mut Totals,
    sink: &mut K,
) -> Result<(), WriteFault>
    requires made { IsFor (machine cfg.now) placer.old }
    requires few { length items.now ≤ MOST_ITEMS }
    requires places { CanPlace (machine cfg.now) items.now }
    requires no_actual { totals.old.actual ≡ 0 }
    requires no_least { totals.old.least ≡ 0 }
    ensures written { AddsLines K.Sink sink.old sink.new result
        (flat_map (page_lines (machine cfg.now) items.now) (numbers cfg.now.pages)) }
    ensures actual { OnOk result (totals.new.actual
        ≡ sum_by (actual (machine cfg.now) items.now) (numbers cfg.now.pages)) }
    ensures least { OnOk result (totals.new.least
        ≡ sum_by (least (machine cfg.now) items.now) (numbers cfg.now.pages)) }
    ensures made { IsFor (machine cfg.now) placer.new }
{
    for page in 0..cfg.pages {
        write_next_page(cfg, items, page, placer, totals, sink)?;
    }
    Ok(())
}

/// Places a page, adds its costs to the sums over the pages before it, and writes its lines.
fn write_next_page<K: Sink>(
    cfg: &Config,
    items: &[Item],
    page: u32,
    placer: &mut Placer,
    totals: &mut Totals,
    sink: &mut K,
) -> Result<(), WriteFault>
    requires page { page < cfg.now.pages }
    requires made { IsFor (machine cfg.now) placer.old }
    requires few { length items.now ≤ MOST_ITEMS }
    requires places { CanPlace (machine cfg.now) items.now }
    requires actual_low { totals.old.actual ≤ page * MOST_ACTUAL }
    requires least_low { totals.old.least ≤ page * MOST_REST }
    ensures written { AddsLines K.Sink sink.old sink.new result
        (page_lines (machine cfg.now) items.now page) }
    ensures actual { totals.new.actual ≡ totals.old.actual + actual (machine cfg.now) items.now page }
    ensures least { totals.new.least ≡ totals.old.least + least (machine cfg.now) items.now page }
    ensures actual_low { totals.new.actual ≤ (page + 1) * MOST_ACTUAL }
    ensures least_low { totals.new.least ≤ (page + 1) * MOST_REST }
    ensures made { IsFor (machine cfg.now) placer.new }
{
    let placed = placer.page(cfg, items, page);
    totals.actual += placed.actual;
    totals.least += placed.least;
    write_page(page, &placed, placer.plan(), sink)
}

/// Writes the lines of a page, if it has accesses.
#[tactic(auto, using(plat_io::proofs::LineLemmas::lines))]
fn write_page<K: Sink>(
    page: u32,
    placed: &Placed,
    plan: &[u32],
    sink: &mut K,
) -> Result<(), WriteFault>
    requires { length plan.now ≤ MOST_TURNS }
    ensures { AddsLines K.Sink sink.old sink.new result
        (placed_lines page placed.now.accesses placed.now.actual placed.now.least placed.now.moves plan.now) }
{
    if placed.accesses == 0 {
        return Ok(());
    }
    write_placed(page, placed, sink)?;
    write_plan(plan, sink)
}

fn write_placed<K: Sink>(page: u32, placed: &Placed, sink: &mut K) -> Result<(), WriteFault>
    ensures { AddsLines K.Sink sink.old sink.new result
        (page_line page placed.now.accesses placed.now.actual placed.now.least placed.now.moves ∷ []) }
{
    write_line(
        sink,
        &[
            Text(b"page"),
            Number(page),
            Text(b"accesses"),
            Number(placed.accesses),
            Text(b"actual"),
            Text(Buffer::new().format(placed.actual).as_bytes()),
            Text(b"least"),
            Text(Buffer::new().format(placed.least).as_bytes()),
            Text(b"moves"),
            Number(placed.moves),
        ],
    )
}

/// Writes where a plan begins, and where it moves.
#[tactic(auto, using(plat_io::proofs::LineLemmas::counted_lines))]
fn write_plan<K: Sink>(plan: &[u32], sink: &mut K) -> Result<(), WriteFault>
    requires { length plan.now ≤ MOST_TURNS }
    ensures { AddsLines K.Sink sink.old sink.new result (plan_lines plan.now) }
{
    for k in 0..plan.len() {
        write_place(plan, k, sink)?;
    }
    Ok(())
}

/// Writes the place of the copy at access `k`, if it comes there with this access.
#[tactic(auto, using(plat_io::proofs::LineLemmas::lines))]
fn write_place<K: Sink>(plan: &[u32], k: usize, sink: &mut K) -> Result<(), WriteFault>
    requires few { length plan.now ≤ MOST_TURNS }
    requires within { k < length plan.now }
    ensures { AddsLines K.Sink sink.old sink.new result (place_lines plan.now k) }
{
    if k > 0 && plan[k] == plan[k - 1] {
        return Ok(());
    }
    write_line(
        sink,
        &[
            Text(b"from"),
            Number(k as u32 + 1),
            Text(b"at"),
            Number(plan[k]),
        ],
    )
}
