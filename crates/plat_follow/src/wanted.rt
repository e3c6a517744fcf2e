//! The access or switch that a guest wants, and whether an item is that one.
ghost use Rattle.std.specs.Prelude.{◌≡◌, ◌/◌, ◌≢◌, Some, None};
ghost use Rattle.plat_base.specs.GuestRun.{reach_of};
ghost use Rattle.plat_base.specs.Pages.{entry_at as entry_at_of};
ghost use Rattle.plat_base.specs.Rules.{is_access_next, is_switch_next};
ghost use Rattle.plat_base.specs.Seen.{machine};
ghost use Rattle.plat_follow.specs.Wanted.{reach_seen, operation_seen};

use plat_base::{Access, Config, Kind};

/// An access that a guest wants. `addr` counts words within the space, and leads by the entry of the number `entry` to
/// the word `word` of the page `page`. The operand is the stored or added value, and 0 for a load.
#[derive(Clone, Copy, Debug, PartialEq, Eq)]
pub struct WantedAccess {
    pub kind: Kind,
    pub space: u32,
    pub addr: u32,
    pub entry: u32,
    pub page: u32,
    pub word: u32,
    pub operand: u32,
}

/// The next operation of a guest: an access, or a switch to the space that is named.
#[derive(Clone, Copy, Debug, PartialEq, Eq)]
pub enum Wanted {
    Access(WantedAccess),
    Switch(u32),
}

impl Wanted {
    /// Whether an access is this operation. Who made it, by which frame and grant, and the value that it found are not
    /// looked at; the value after it follows from that one.
    pub fn is_access(&self, access: &Access) -> bool
        ensures { result ≡ is_access_next (Some (operation_seen self.now)) access.now }
    {
        match self {
            Wanted::Access(wanted) => wanted.is_made_by(access),
            Wanted::Switch(_) => false,
        }
    }

    /// Whether a switch to this space is this operation.
    pub fn is_switch(&self, space: u32) -> bool
        ensures { result ≡ is_switch_next (Some (operation_seen self.now)) space }
    {
        match self {
            Wanted::Access(_) => false,
            Wanted::Switch(wanted) => *wanted == space,
        }
    }
}

impl WantedAccess {
    /// The access of an address that has an entry.
    pub(crate) fn of(cfg: &Config, kind: Kind, space: u32, addr: u32, operand: u32) -> WantedAccess
        requires { entry_at_of (machine cfg.now) space (addr / cfg.now.words) ≢ None }
        ensures reach { reach_seen result ≡ reach_of (machine cfg.now) kind space addr operand }
        ensures entry { entry_at_of (machine cfg.now) space (addr / cfg.now.words) ≡ Some result.entry }
    {
        let Some(entry) = cfg.entry_at(space, addr / cfg.words) else {
            unreachable!();
        };
        WantedAccess {
            kind,
            space,
            addr,
            entry,
            page: cfg.page_of(entry),
            word: addr % cfg.words,
            operand,
        }
    }

    fn is_made_by(&self, access: &Access) -> bool
        ensures { result ≡ is_access_next (Some (operation_seen (Wanted.Access self.now))) access.now }
    {
        self.kind == access.kind
            && self.space == access.space
            && self.addr == access.addr
            && self.page == access.page
            && self.word == access.word
            && access.new == self.kind.new_value(access.old, self.operand)
    }
}
