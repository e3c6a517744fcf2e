//! Races: the first race of a history that breaks no rule.
ghost use Rattle.std.specs.Prelude.{◌≡◌, None};
ghost use Rattle.plat_base.specs.Seen.{machine};
ghost use Rattle.plat_grammar.specs.HistoryGrammar.{IsInRange};
ghost use Rattle.plat_history.specs.Shown.{seen};
ghost use Rattle.plat_io.specs.Adds.{Adds};
ghost use Rattle.plat_io.specs.Lines.{AddsLines};
ghost use Rattle.plat_race.specs.Tabled.{IsFor};
ghost use Rattle.plat_cmd.specs.Races.{race_lines, race_text};
ghost use Rattle.plat_cmd.specs.Works.{HasRaced, first_bad_of};

use crate::judgings::Judged;
use crate::outcomes::{Outcome, status_after, without_run};
use plat_base::Status;
use plat_io::lines::{Word, write_line};
use plat_io::{Sink, WriteFault};
use plat_race::{Pair, Racer};
use std::alloc::Global;

/// Writes the lines of `race`.
#[tactic(auto, using(plat_io::proofs::LineLemmas::lines))]
fn write_race<K: Sink>(race: Option<Pair>, sink: &mut K) -> Result<(), WriteFault>
    ensures { AddsLines K.Sink sink.old sink.new result (race_lines race) }
{
    write_line(
        sink,
        &[
            Word::Text(b"platinum"),
            Word::Text(b"race"),
            Word::Text(b"1"),
        ],
    )?;
    match race {
        Some(pair) => write_line(
            sink,
            &[
                Word::Text(b"pair"),
                Word::Number(pair.first),
                Word::Number(pair.second),
            ],
        ),
        None => write_line(sink, &[Word::Text(b"none")]),
    }
}

/// Writes the first race of a good history, or that it has none.
pub fn raced<K: Sink>(alloc: Global, judged: Judged<Racer>, sink: &mut K) -> Outcome
    requires racer { IsFor (machine judged.history.cfg) judged.memory }
    requires good { first_bad_of (seen judged.history) ≡ None }
    requires range { IsInRange (seen judged.history) }
    ensures { HasRaced K.Sink (seen judged.history) sink.old sink.new
        result.status result.kept.items result.ran }
{
    let Judged { history, memory } = judged;
    let race = memory.first(&history.cfg, history.items.as_slice());
    let written = write_race(race, sink);
    without_run(alloc, status_after(Status::Done, written))
}
