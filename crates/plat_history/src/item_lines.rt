//! The lines of items, as they are read.
ghost use Rattle.std.specs.Prelude.{◌≡◌, length};
ghost use Rattle.plat_base.specs.Machine.{Machine};
ghost use Rattle.plat_base.specs.Seen.{machine};
ghost use Rattle.plat_grammar.specs.Forms.{Reads, one, number_below};
ghost use Rattle.plat_grammar.specs.HistoryForms.{named, kinds, causes, actions, removals, messages, moments, granted_of, dir_of};
ghost use Rattle.plat_grammar.specs.HistoryForms.{access_line, change_line, applied_line, switch_line, item_line};

use crate::directories::{read_dir, read_granted};
use crate::names::{read_action, read_cause, read_kind, read_message, read_moment, read_removed};
use plat_base::{
    Access, Action, Applied, Cause, Change, Config, Dir, Frame, Grant, Item, Kind, Message, Moment,
    Refused, Removed, Switch, Why,
};
use plat_text::{Row, at_word, read_u32, refusal};

fn kind(row: &mut Row<'_>) -> Result<Kind, Refused>
    ensures { Reads (λ kind. (kind, row.new)) result (one (named kinds) row.old) }
{
    let line = row.line();
    let found = row.next_word()?;
    at_word(line, found, read_kind(found.bytes))
}

fn cause(row: &mut Row<'_>) -> Result<Cause, Refused>
    ensures { Reads (λ cause. (cause, row.new)) result (one (named causes) row.old) }
{
    let line = row.line();
    let found = row.next_word()?;
    at_word(line, found, read_cause(found.bytes))
}

fn action(row: &mut Row<'_>) -> Result<Action, Refused>
    ensures { Reads (λ action. (action, row.new)) result (one (named actions) row.old) }
{
    let line = row.line();
    let found = row.next_word()?;
    at_word(line, found, read_action(found.bytes))
}

fn removed(row: &mut Row<'_>) -> Result<Removed, Refused>
    ensures { Reads (λ removed. (removed, row.new)) result (one (named removals) row.old) }
{
    let line = row.line();
    let found = row.next_word()?;
    at_word(line, found, read_removed(found.bytes))
}

fn message(row: &mut Row<'_>) -> Result<Message, Refused>
    ensures { Reads (λ message. (message, row.new)) result (one (named messages) row.old) }
{
    let line = row.line();
    let found = row.next_word()?;
    at_word(line, found, read_message(found.bytes))
}

fn moment(row: &mut Row<'_>) -> Result<Moment, Refused>
    ensures { Reads (λ moment. (moment, row.new)) result (one (named moments) row.old) }
{
    let line = row.line();
    let found = row.next_word()?;
    at_word(line, found, read_moment(found.bytes))
}

#[tactic(auto, using(plat_base::proofs::LimitLemmas::nodes_most, plat_base::proofs::LimitLemmas::frames_most))]
fn dir(row: &mut Row<'_>, cfg: &Config) -> Result<Dir, Refused>
    ensures { Reads (λ dir. (dir, row.new)) result (one (dir_of cfg.now.nodes cfg.now.frames) row.old) }
{
    let line = row.line();
    let found = row.next_word()?;
    at_word(line, found, read_dir(found.bytes, cfg.nodes, cfg.frames))
}

fn granted(row: &mut Row<'_>, cfg: &Config) -> Result<Option<Grant>, Refused>
    ensures { Reads (λ granted. (granted, row.new)) result
        (one (granted_of (length cfg.now.entries.items) cfg.now.nodes cfg.now.frames) row.old) }
{
    let line = row.line();
    let found = row.next_word()?;
    let read = read_granted(found.bytes, cfg.entries.len(), cfg.nodes, cfg.frames);
    at_word(line, found, read)
}

fn read_entry(word: &[u8], entries: usize) -> Result<u32, Why>
    ensures { result ≡ number_below entries word.now }
{
    let n = read_u32(word)?;
    if (n as usize) < entries {
        Ok(n)
    } else {
        Err(Why::OutOfRange)
    }
}

/// The number of an entry.
fn entry(row: &mut Row<'_>, cfg: &Config) -> Result<u32, Refused>
    ensures { Reads (λ entry. (entry, row.new)) result
        (one (number_below (length cfg.now.entries.items)) row.old) }
{
    let line = row.line();
    let found = row.next_word()?;
    at_word(line, found, read_entry(found.bytes, cfg.entries.len()))
}

#[tactic(auto, unfolding(plat_grammar::specs::HistoryForms::access_line))]
fn access(row: &mut Row<'_>, cfg: &Config) -> Result<Item, Refused>
    ensures { Reads (λ item. item) result (access_line (machine cfg.now) row.old) }
{
    let actor = row.below(cfg.nodes)?;
    let kind = kind(row)?;
    let space = row.number(0, 7)?;
    let addr = row.any_number()?;
    let page = row.below(cfg.pages)?;
    let word = row.below(cfg.words)?;
    let old = row.any_number()?;
    let new = row.any_number()?;
    let version = row.any_number()?;
    let module = row.below(cfg.nodes)?;
    let number = row.below(cfg.frames)?;
    let grant = row.any_number()?;
    row.finish()?;
    Ok(Item::Access(Access {
        actor,
        kind,
        space,
        addr,
        page,
        word,
        old,
        new,
        version,
        frame: Frame { module, number },
        grant,
    }))
}

#[tactic(auto, unfolding(plat_grammar::specs::HistoryForms::change_line))]
fn change(row: &mut Row<'_>, cfg: &Config) -> Result<Item, Refused>
    ensures { Reads (λ item. item) result (change_line (machine cfg.now) row.old) }
{
    let actor = row.number(0, cfg.nodes)?;
    let page = row.below(cfg.pages)?;
    let seq = row.any_number()?;
    let time = row.any_number()?;
    let cause = cause(row)?;
    let action = action(row)?;
    let removed = removed(row)?;
    let before = dir(row, cfg)?;
    let after = dir(row, cfg)?;
    let granted = granted(row, cfg)?;
    row.finish()?;
    Ok(Item::Change(Change {
        actor,
        page,
        seq,
        time,
        cause,
        action,
        removed,
        before,
        after,
        granted,
    }))
}

#[tactic(auto, unfolding(plat_grammar::specs::HistoryForms::applied_line))]
fn applied(row: &mut Row<'_>, cfg: &Config) -> Result<Item, Refused>
    ensures { Reads (λ item. item) result (applied_line (machine cfg.now) row.old) }
{
    let actor = row.below(cfg.nodes)?;
    let entry = entry(row, cfg)?;
    let message = message(row)?;
    let moment = moment(row)?;
    row.finish()?;
    Ok(Item::Applied(Applied {
        actor,
        entry,
        message,
        moment,
    }))
}

#[tactic(auto, unfolding(plat_grammar::specs::HistoryForms::switch_line))]
fn switch(row: &mut Row<'_>, cfg: &Config) -> Result<Item, Refused>
    ensures { Reads (λ item. item) result (switch_line (machine cfg.now) row.old) }
{
    let actor = row.below(cfg.nodes)?;
    let space = row.number(0, 7)?;
    row.finish()?;
    Ok(Item::Switch(Switch { actor, space }))
}

/// Reads the line of an item.
#[tactic(auto, unfolding(plat_grammar::specs::HistoryForms::item_line))]
pub fn read_item(row: &mut Row<'_>, cfg: &Config) -> Result<Item, Refused>
    ensures { Reads (λ item. item) result (item_line (machine cfg.now) row.old) }
{
    let line = row.line();
    let found = row.next_word()?;
    if found.bytes == b"access".as_slice() {
        return access(row, cfg);
    }
    if found.bytes == b"change".as_slice() {
        return change(row, cfg);
    }
    if found.bytes == b"applied".as_slice() {
        return applied(row, cfg);
    }
    if found.bytes == b"switch".as_slice() {
        return switch(row, cfg);
    }
    Err(refusal(line, found, Why::Expected))
}
