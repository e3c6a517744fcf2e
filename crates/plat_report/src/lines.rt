//! The lines of counts: of each processor's accesses and cache, and of the whole history.
ghost use Rattle.std.specs.Prelude.{◌≤◌, ◌∷◌, [], length};
ghost use Rattle.std.specs.List.{flat_map};
ghost use Rattle.plat_base.specs.Pages.{numbers};
ghost use Rattle.plat_io.specs.Lines.{AddsLines};
ghost use Rattle.plat_report.specs.Lines.{access_words, cache_words, count_words, counts_words, changes_words, applied_words, total_words};

use crate::actors::ActorCounts;
use crate::caches::CacheCounts;
use crate::counts::{AccessCounts, AppliedCounts, ChangeCounts};
use crate::totals::Totals;
use plat_io::lines::{Word, write_line};
use plat_io::{Sink, WriteFault};

/// Writes the counts of a processor's accesses.
fn write_accesses<K: Sink>(q: u32, counts: &AccessCounts, sink: &mut K) -> Result<(), WriteFault>
    ensures { AddsLines K.Sink sink.old sink.new result (access_words q counts.now ∷ []) }
{
    write_line(
        sink,
        &[
            Word::Text(b"access"),
            Word::Number(q),
            Word::Text(b"loads"),
            Word::Number(counts.loads),
            Word::Text(b"stores"),
            Word::Number(counts.stores),
            Word::Text(b"adds"),
            Word::Number(counts.adds),
            Word::Text(b"local"),
            Word::Number(counts.local),
            Word::Text(b"remote"),
            Word::Number(counts.remote),
        ],
    )
}

/// Writes the hits and misses of a processor's cache.
fn write_cache<K: Sink>(q: u32, cache: &CacheCounts, sink: &mut K) -> Result<(), WriteFault>
    ensures { AddsLines K.Sink sink.old sink.new result (cache_words q cache.now ∷ []) }
{
    write_line(
        sink,
        &[
            Word::Text(b"atc"),
            Word::Number(q),
            Word::Text(b"hits"),
            Word::Number(cache.hits()),
            Word::Text(b"misses"),
            Word::Number(cache.misses()),
        ],
    )
}

/// Writes the counts of a processor's accesses, and of its cache.
#[tactic(auto, using(plat_io::proofs::LineLemmas::lines))]
fn write_count<K: Sink>(q: u32, counts: &ActorCounts, sink: &mut K) -> Result<(), WriteFault>
    ensures { AddsLines K.Sink sink.old sink.new result (count_words q counts.now) }
{
    write_accesses(q, &counts.accesses, sink)?;
    write_cache(q, &counts.cache, sink)
}

/// Writes the counts of each of so many processors.
pub(crate) fn write_counts<K: Sink>(
    nodes: u32,
    counts: &[ActorCounts],
    sink: &mut K,
) -> Result<(), WriteFault>
    requires { nodes ≤ length counts.now }
    ensures { AddsLines K.Sink sink.old sink.new result (flat_map (counts_words counts.now) (numbers nodes)) }
{
    for q in 0..nodes {
        let at = q as usize;
        write_count(q, &counts[at], sink)?;
    }
    Ok(())
}

/// Writes the counts of the changes.
fn write_changes<K: Sink>(counts: &ChangeCounts, sink: &mut K) -> Result<(), WriteFault>
    ensures { AddsLines K.Sink sink.old sink.new result (changes_words counts.now ∷ []) }
{
    write_line(
        sink,
        &[
            Word::Text(b"changes"),
            Word::Text(b"fill"),
            Word::Number(counts.fills),
            Word::Text(b"maplocal"),
            Word::Number(counts.local_maps),
            Word::Text(b"mapremote"),
            Word::Number(counts.remote_maps),
            Word::Text(b"replicate"),
            Word::Number(counts.replications),
            Word::Text(b"migrate"),
            Word::Number(counts.migrations),
            Word::Text(b"collapse"),
            Word::Number(counts.collapses),
            Word::Text(b"thaw"),
            Word::Number(counts.thaws),
            Word::Text(b"freezes"),
            Word::Number(counts.freezes),
        ],
    )
}

/// Writes the counts of the applied messages.
fn write_applied<K: Sink>(counts: &AppliedCounts, sink: &mut K) -> Result<(), WriteFault>
    ensures { AddsLines K.Sink sink.old sink.new result (applied_words counts.now ∷ []) }
{
    write_line(
        sink,
        &[
            Word::Text(b"applied"),
            Word::Text(b"interrupt"),
            Word::Number(counts.at_interrupt),
            Word::Text(b"activation"),
            Word::Number(counts.at_activation),
        ],
    )
}

/// Writes the counts of the whole history, and how many items it has.
#[tactic(auto, using(plat_io::proofs::LineLemmas::lines))]
pub(crate) fn write_totals<K: Sink>(
    totals: &Totals,
    items: u32,
    sink: &mut K,
) -> Result<(), WriteFault>
    ensures { AddsLines K.Sink sink.old sink.new result (total_words totals.now items) }
{
    write_changes(&totals.changes, sink)?;
    write_applied(&totals.applied, sink)?;
    write_line(sink, &[Word::Text(b"items"), Word::Number(items)])
}
