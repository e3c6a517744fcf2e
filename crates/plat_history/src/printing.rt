//! The canonical text of a history.
ghost use Rattle.std.specs.Prelude.{◌≡◌, ◌∷◌, ◌++◌, [], map, length, Ok, codes};
ghost use Rattle.std.specs.List.{flat_map};
ghost use Rattle.plat_base.specs.Canon.{number_line};
ghost use Rattle.plat_base.specs.Seen.{machine};
ghost use Rattle.plat_grammar.specs.HistoryCanon.{History, access_words, change_words, applied_words, switch_words, item_words};
ghost use Rattle.plat_grammar.specs.HistoryCanon.{ended_words, ended_lines, told_lines, canon_history, history_text};
ghost use Rattle.plat_grammar.specs.HistoryFaults.{history_at};
ghost use Rattle.plat_grammar.specs.HistoryGrammar.{IsInRange, IsShortHistory, IsHistoryTextOf};
ghost use Rattle.plat_io.specs.Adds.{Adds};
ghost use Rattle.plat_io.specs.Lines.{AddsLines, text};
ghost use Rattle.plat_history.specs.Shown.{history};
ghost use Rattle.plat_history.specs.Printed.{change_front};

use crate::written_names::{
    action_word, cause_word, end_word, kind_word, message_word, moment_word, removed_word,
};
use crate::written_words::{write_next_dir, write_next_granted, write_next_size};
use plat_base::{Access, Applied, Change, Config, Ended, Item, Switch};
use plat_io::Word::{Number, Text};
use plat_io::lines::{end_line, write_next_words, write_word};
use plat_io::{Sink, WriteFault, write_line};
use plat_machine::print_machine;

#[tactic(auto, unfolding(plat_grammar::specs::HistoryCanon::access_words))]
fn write_access<K: Sink>(sink: &mut K, access: &Access) -> Result<(), WriteFault>
    ensures { AddsLines K.Sink sink.old sink.new result (access_words access.now ∷ []) }
{
    write_line(
        sink,
        &[
            Text(b"access"),
            Number(access.actor),
            Text(kind_word(access.kind)),
            Number(access.space),
            Number(access.addr),
            Number(access.page),
            Number(access.word),
            Number(access.old),
            Number(access.new),
            Number(access.version),
            Number(access.frame.module),
            Number(access.frame.number),
            Number(access.grant),
        ],
    )
}

/// Writes the words of a change that stand before its directories.
#[tactic(auto, using(plat_io::proofs::Pieces::pieces), unfolding(crate::specs::Printed::change_front))]
fn write_change_front<K: Sink>(sink: &mut K, change: &Change) -> Result<(), WriteFault>
    ensures { Adds K.Sink sink.old sink.new result (change_front change.now) }
{
    write_word(sink, Text(b"change"))?;
    write_next_words(
        sink,
        &[
            Number(change.actor),
            Number(change.page),
            Number(change.seq),
            Number(change.time),
            Text(cause_word(change.cause)),
            Text(action_word(change.action)),
            Text(removed_word(change.removed)),
        ],
    )
}

#[tactic(auto, using(plat_io::proofs::Pieces::pieces, crate::proofs::LineLemmas::change_line))]
fn write_change<K: Sink>(sink: &mut K, change: &Change) -> Result<(), WriteFault>
    ensures { AddsLines K.Sink sink.old sink.new result (change_words change.now ∷ []) }
{
    write_change_front(sink, change)?;
    write_next_dir(sink, change.before)?;
    write_next_dir(sink, change.after)?;
    write_next_granted(sink, change.granted)?;
    end_line(sink)
}

#[tactic(auto, unfolding(plat_grammar::specs::HistoryCanon::applied_words))]
fn write_applied<K: Sink>(sink: &mut K, applied: &Applied) -> Result<(), WriteFault>
    ensures { AddsLines K.Sink sink.old sink.new result (applied_words applied.now ∷ []) }
{
    write_line(
        sink,
        &[
            Text(b"applied"),
            Number(applied.actor),
            Number(applied.entry),
            Text(message_word(applied.message)),
            Text(moment_word(applied.moment)),
        ],
    )
}

#[tactic(auto, unfolding(plat_grammar::specs::HistoryCanon::switch_words))]
fn write_switch<K: Sink>(sink: &mut K, switch: &Switch) -> Result<(), WriteFault>
    ensures { AddsLines K.Sink sink.old sink.new result (switch_words switch.now ∷ []) }
{
    write_line(
        sink,
        &[Text(b"switch"), Number(switch.actor), Number(switch.space)],
    )
}

fn write_item<K: Sink>(sink: &mut K, item: &Item) -> Result<(), WriteFault>
    ensures { AddsLines K.Sink sink.old sink.new result (item_words item.now ∷ []) }
{
    match item {
        Item::Access(access) => write_access(sink, access),
        Item::Change(change) => write_change(sink, change),
        Item::Applied(applied) => write_applied(sink, applied),
        Item::Switch(switch) => write_switch(sink, switch),
    }
}

#[tactic(auto, using(plat_io::proofs::LineLemmas::looped_lines))]
fn write_items<K: Sink>(sink: &mut K, items: &[Item]) -> Result<(), WriteFault>
    ensures { AddsLines K.Sink sink.old sink.new result (map item_words items.now) }
{
    for item in items {
        write_item(sink, item)?;
    }
    Ok(())
}

#[tactic(auto, using(plat_io::proofs::LineLemmas::words_of_a_line, plat_io::proofs::LineLemmas::written_lines))]
fn write_ended<K: Sink>(sink: &mut K, q: usize, ended: Ended) -> Result<(), WriteFault>
    ensures { AddsLines K.Sink sink.old sink.new result (ended_words q ended ∷ []) }
{
    write_word(sink, Text(b"processor"))?;
    write_next_size(sink, q)?;
    write_next_words(sink, &[Text(end_word(ended.end)), Number(ended.turns)])?;
    end_line(sink)
}

fn write_ends<K: Sink>(sink: &mut K, ends: &[Ended]) -> Result<(), WriteFault>
    ensures { AddsLines K.Sink sink.old sink.new result (ended_lines 0 ends.now) }
{
    for (q, ended) in ends.iter().enumerate() {
        write_ended(sink, q, *ended)?;
    }
    Ok(())
}

#[tactic(auto, using(plat_io::proofs::LineLemmas::words_of_a_line, plat_io::proofs::LineLemmas::written_lines))]
fn write_count<K: Sink>(sink: &mut K, count: usize) -> Result<(), WriteFault>
    ensures { AddsLines K.Sink sink.old sink.new result (number_line (codes "items") count ∷ []) }
{
    write_word(sink, Text(b"items"))?;
    write_next_size(sink, count)?;
    end_line(sink)
}

/// Writes the lines from `items` on.
#[tactic(auto, using(plat_io::proofs::LineLemmas::lines))]
fn write_told<K: Sink>(sink: &mut K, items: &[Item], ends: &[Ended]) -> Result<(), WriteFault>
    ensures { AddsLines K.Sink sink.old sink.new result (told_lines items.now ends.now) }
{
    write_count(sink, items.len())?;
    write_items(sink, items)?;
    write_line(sink, &[Text(b"ends")])?;
    write_ends(sink, ends)?;
    write_line(sink, &[Text(b"end")])
}

fn write_history<K: Sink>(
    sink: &mut K,
    cfg: &Config,
    items: &[Item],
    ends: &[Ended],
) -> Result<(), WriteFault>
    ensures { Adds K.Sink sink.old sink.new result (history_text (history cfg.now items.now ends.now)) }
{
    write_line(sink, &[Text(b"history"), Text(b"1")])?;
    print_machine(cfg, sink)?;
    write_told(sink, items, ends)
}

/// Writes the canonical text of a history, whatever its items and ends are. It takes no memory.
pub fn print_items<K: Sink>(
    cfg: &Config,
    items: &[Item],
    ends: &[Ended],
    sink: &mut K,
) -> Result<(), WriteFault>
    ensures written { Adds K.Sink sink.old sink.new result
        (history_text (history cfg.now items.now ends.now)) }
    // This text is in the grammar of the history, where its numbers are in range and it is not too long.
    ensures text { let h = history cfg.now items.now ends.now in
        IsInRange h → IsShortHistory h → IsHistoryTextOf (history_text h) h }
    // So it is read as this history again.
    ensures read_again { let h = history cfg.now items.now ends.now in
        IsInRange h → IsShortHistory h → history_at (history_text h) ≡ Ok h }
{
    write_history(sink, cfg, items, ends)
}
