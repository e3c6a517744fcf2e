//! The access that a guest wants: where it leads, the word that it reads or writes, and what it makes of it.
ghost use Rattle.std.specs.Prelude.{◌≡◌, ◌+◌, ◌/◌, ◌<◌, Some};
ghost use Rattle.plat_base.specs.Pages.{entry_at};
ghost use Rattle.plat_base.specs.GuestRun.{reach_of as reach_by};
ghost use Rattle.plat_base.specs.Seen.{machine};
ghost use Rattle.plat_base.specs.declared.items.Item.TheVariants as item;
ghost use Rattle.plat_events.specs.Events.{word_after as word_written};
ghost use Rattle.plat_events.specs.Sessions.{memory_at};
ghost use Rattle.plat_events.specs.Words.{version_read};
ghost use Rattle.plat_proc.specs.Reached.{access_by, reach_seen};

use plat_base::{Access, Config, Kind, Translation, WordName};
use plat_words::DataWord;

/// An access that a guest wants, with the entry, page and word that its address leads to.
#[derive(Clone, Copy, Debug)]
pub struct Reached {
    pub kind: Kind,
    pub space: u32,
    pub addr: u32,
    pub vpage: u32,
    pub entry: u32,
    pub page: u32,
    pub word: u32,
    pub operand: u32,
}

/// The access of an address through an entry.
pub fn reach_of(
    cfg: &Config,
    entry: u32,
    kind: Kind,
    space: u32,
    addr: u32,
    operand: u32,
) -> Reached
    requires { entry_at (machine cfg.now) space (addr / cfg.now.words) ≡ Some entry }
    ensures reach { reach_seen result ≡ reach_by (machine cfg.now) kind space addr operand }
    ensures entry { result.entry ≡ entry }
    ensures vpage { result.vpage ≡ addr / cfg.now.words }
{
    Reached {
        kind,
        space,
        addr,
        vpage: addr / cfg.words,
        entry,
        page: cfg.page_of(entry),
        word: addr % cfg.words,
        operand,
    }
}

/// The word of memory that an access reads or writes.
pub fn memory_of(reach: &Reached, translation: Translation) -> WordName
    ensures { result ≡ memory_at translation.grant.frame reach.now.word }
{
    WordName::Memory {
        module: translation.grant.frame.module,
        number: translation.grant.frame.number,
        word: reach.word,
    }
}

/// What a store or fetch-and-add leaves in a word that it found so.
pub fn word_after(reach: &Reached, found: u64) -> u64
    requires { version_read found < 4294967295 }
    ensures { result ≡ word_written (reach_seen reach.now) found }
{
    let Some(seen) = DataWord::decode(found) else {
        unreachable!()
    };
    DataWord {
        value: reach.kind.new_value(seen.value, reach.operand),
        version: seen.version + 1,
    }
    .encode()
}

/// The access of processor `q` that found a word so, by a translation.
pub fn access_of(q: u32, reach: &Reached, translation: Translation, found: u64) -> Access
    requires { version_read found < 4294967295 }
    ensures { item.Access result ≡ access_by q (reach_seen reach.now) translation found }
{
    let Some(seen) = DataWord::decode(found) else {
        unreachable!()
    };
    Access {
        actor: q,
        kind: reach.kind,
        space: reach.space,
        addr: reach.addr,
        page: reach.page,
        word: reach.word,
        old: seen.value,
        new: reach.kind.new_value(seen.value, reach.operand),
        version: seen.version + reach.kind.writes_made(),
        frame: translation.grant.frame,
        grant: translation.seq,
    }
}
