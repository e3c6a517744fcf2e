//! What follows from the kind of an access, and from the cause, the action or the removal of a change, alone.
ghost use Rattle.std.specs.Prelude.{◌≡◌, ◌≤◌};
ghost use Rattle.plat_base.specs.Accesses.{cause_of, right_of, writes_made};
ghost use Rattle.plat_base.specs.Directories.{sets_last};
ghost use Rattle.plat_base.specs.Done.{new_value};
ghost use Rattle.plat_base.specs.Flat.{is_write};
ghost use Rattle.plat_base.specs.Held.{serves};
ghost use Rattle.plat_base.specs.Messages.{message_of, removes_some};

use crate::items::{Action, Cause, Kind, Message, Removed, Right};

impl Kind {
    /// Whether it is a store or a fetch-and-add.
    pub fn is_write(self) -> bool
        ensures { result ≡ is_write self }
    {
        match self {
            Kind::Load => false,
            Kind::Store | Kind::Add => true,
        }
    }

    /// Why an access of this kind faults.
    pub fn cause(self) -> Cause
        ensures { result ≡ cause_of self }
    {
        match self {
            Kind::Load => Cause::Read,
            Kind::Store | Kind::Add => Cause::Write,
        }
    }

    /// The word after an access: the old one, the stored value, or the wrapping sum.
    pub fn new_value(self, old: u32, operand: u32) -> u32
        ensures { result ≡ new_value self old operand }
    {
        match self {
            Kind::Load => old,
            Kind::Store => operand,
            Kind::Add => old.wrapping_add(operand),
        }
    }

    /// How much an access adds to the version of its word: 1 for a write, else 0.
    pub fn writes_made(self) -> u32
        ensures made { result ≡ writes_made self }
        ensures few { result ≤ 1 }
    {
        u32::from(self.is_write())
    }
}

impl Right {
    /// Whether a translation with this right serves an access.
    pub fn serves(self, kind: Kind) -> bool
        ensures { result ≡ serves kind self }
    {
        kind == Kind::Load || self == Right::Write
    }
}

impl Cause {
    /// The right that a fault is granted. A thaw grants nothing.
    pub fn right(self) -> Right
        ensures { result ≡ right_of self }
    {
        match self {
            Cause::Write => Right::Write,
            Cause::Read | Cause::Thaw => Right::Read,
        }
    }
}

impl Action {
    /// Whether it sets the time of the page's last invalidation: a migration or a collapse does (Cox and Fowler 1989).
    pub fn sets_last(self) -> bool
        ensures { result ≡ sets_last self }
    {
        match self {
            Action::Migrate | Action::Collapse => true,
            Action::Fill
            | Action::MapLocal
            | Action::MapRemote
            | Action::Replicate
            | Action::Thaw => false,
        }
    }
}

impl Removed {
    /// Whether a change that takes this away sends messages.
    pub fn is_some(self) -> bool
        ensures { result ≡ removes_some self }
    {
        match self {
            Removed::Nothing => false,
            Removed::Writes | Removed::All => true,
        }
    }

    /// The message that tells of it. Where nothing is removed none is sent, and the answer is not looked at.
    pub fn message(self) -> Message
        ensures { result ≡ message_of self }
    {
        match self {
            Removed::All => Message::Invalidate,
            Removed::Nothing | Removed::Writes => Message::Restrict,
        }
    }
}
