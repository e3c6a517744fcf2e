//! Accesses of flat memory.
ghost use Rattle.std.specs.Prelude.{◌≡◌, ◌+◌, ◌%◌, ◌/◌, ◌<◌, ◌≤◌, ◌++◌, ◌∷◌, [], length, Some, true};
ghost use Rattle.plat_base.specs.Accesses.{access_by, writes_made as writes_of};
ghost use Rattle.plat_base.specs.Done.{new_value as new_value_of};
ghost use Rattle.plat_base.specs.Flat.{flat_value, flat_writes};
ghost use Rattle.plat_base.specs.GuestRun.{reach_of as reach_of_access};
ghost use Rattle.plat_base.specs.Pages.{entry_at};
ghost use Rattle.plat_base.specs.Rules.{is_legal};
ghost use Rattle.plat_base.specs.Seen.{machine};
ghost use Rattle.plat_base.specs.declared.items.Item.TheVariants as item;
ghost use Rattle.plat_coarse.specs.Reached.{reach_seen};

use plat_base::{Access, Config, Frame, Kind};
use plat_chronicle::Chronicle;

/// An access that a guest wants, with the page and word that its address leads to.
#[derive(Clone, Copy, Debug)]
pub struct Reached {
    pub kind: Kind,
    pub space: u32,
    pub addr: u32,
    pub page: u32,
    pub word: u32,
    pub operand: u32,
}

/// The access of an address through an entry.
pub fn reach_of(
    cfg: &Config,
    entry: u32,
    kind: Kind,
    space: u32,
    addr: u32,
    operand: u32,
) -> Reached
    requires { entry_at (machine cfg.now) space (addr / cfg.now.words) ≡ Some entry }
    ensures { reach_seen result ≡ reach_of_access (machine cfg.now) kind space addr operand }
{
    Reached {
        kind,
        space,
        addr,
        page: cfg.page_of(entry),
        word: addr % cfg.words,
        operand,
    }
}

/// The word after an access.
fn new_value(kind: Kind, old: u32, operand: u32) -> u32
    ensures { result ≡ new_value_of kind old operand }
{
    match kind {
        Kind::Load => old,
        Kind::Store => operand,
        Kind::Add => old.wrapping_add(operand),
    }
}

/// How much an access adds to the version of its word.
fn writes_made(kind: Kind) -> u32
    ensures made { result ≡ writes_of kind }
    ensures few { result ≤ 1 }
{
    match kind {
        Kind::Load => 0,
        Kind::Store | Kind::Add => 1,
    }
}

/// The access of flat memory as it is now, by a translation.
pub fn access_of(chronicle: &Chronicle, q: u32, reach: &Reached, frame: Frame, grant: u32) -> Access
    requires page { reach.now.page < chronicle.now.machine.pages }
    requires word { reach.now.word < chronicle.now.machine.words }
    ensures { item.Access result ≡ access_by chronicle.now.machine chronicle.now.items q
        (reach_seen reach.now) frame grant }
{
    let old = chronicle.value(reach.page, reach.word);
    Access {
        actor: q,
        kind: reach.kind,
        space: reach.space,
        addr: reach.addr,
        page: reach.page,
        word: reach.word,
        old,
        new: new_value(reach.kind, old, reach.operand),
        version: chronicle.version(reach.page, reach.word) + writes_made(reach.kind),
        frame,
        grant,
    }
}
