//! The run of two guests that write and read one page, item by item: the page is filled by the one, copied to the other, and then
//! written again, so that its copies collapse.
ghost use Rattle.std.specs.Prelude.{◌≡◌};
ghost use Rattle.plat_samples.specs.Shootdown.{access, both_copies, collapsed, copied, filled, first_copy, frame, halted, history};
ghost use Rattle.plat_samples.specs.Shootdown.{grant_of, interrupt, no_copy};

use plat_base::{
    Access, Action, Applied, Cause, Change, Copies, Dir, End, Ended, Frame, Grant, Item, Kind,
    Message, Moment, Removed, Right, State,
};

/// Frame 0 of a module.
pub fn frame(module: u32) -> Frame
    ensures { result ≡ frame «module» }
{
    Frame { module, number: 0 }
}

/// The directory of a page without copies.
pub fn no_copy() -> Dir
    ensures { result ≡ no_copy }
{
    Dir {
        state: State::Empty,
        frozen: false,
        copies: Copies::none(),
    }
}

/// The page has its one copy on module 0, and may be written.
pub fn first_copy() -> Dir
    ensures { result ≡ first_copy }
{
    Dir {
        state: State::Modified,
        frozen: false,
        copies: Copies::none().with(frame(0)),
    }
}

/// The page has a copy on each module.
pub fn both_copies() -> Dir
    ensures { result ≡ both_copies }
{
    Dir {
        state: State::PresentPlus,
        frozen: false,
        copies: Copies::none().with(frame(0)).with(frame(1)),
    }
}

fn grant_of(node: u32, right: Right) -> Option<Grant>
    ensures { result ≡ grant_of node right }
{
    Some(Grant {
        entry: 0,
        frame: frame(node),
        right,
    })
}

/// Processor 0 fills the page, to write it.
pub fn filled() -> Change
    ensures { result ≡ filled }
{
    Change {
        actor: 0,
        page: 0,
        seq: 0,
        time: 2,
        cause: Cause::Write,
        action: Action::Fill,
        removed: Removed::Nothing,
        before: no_copy(),
        after: first_copy(),
        granted: grant_of(0, Right::Write),
    }
}

/// Processor 1 copies the page, to read it.
pub fn copied() -> Change
    ensures { result ≡ copied }
{
    Change {
        actor: 1,
        page: 0,
        seq: 1,
        time: 3,
        cause: Cause::Read,
        action: Action::Replicate,
        removed: Removed::Writes,
        before: first_copy(),
        after: both_copies(),
        granted: grant_of(1, Right::Read),
    }
}

/// Processor 0 takes the copy of processor 1 away, to write the page again.
pub fn collapsed() -> Change
    ensures { result ≡ collapsed }
{
    Change {
        actor: 0,
        page: 0,
        seq: 2,
        time: 5,
        cause: Cause::Write,
        action: Action::Collapse,
        removed: Removed::All,
        before: both_copies(),
        after: first_copy(),
        granted: grant_of(0, Right::Write),
    }
}

/// An access of word 0 of the page, in the actor's own module.
pub fn access(actor: u32, kind: Kind, old: u32, new: u32, version: u32, grant: u32) -> Access
    ensures { result ≡ access actor kind old new version grant }
{
    Access {
        actor,
        kind,
        space: 0,
        addr: 0,
        page: 0,
        word: 0,
        old,
        new,
        version,
        frame: frame(actor),
        grant,
    }
}

/// A message that is applied at an interrupt.
pub fn interrupt(actor: u32, message: Message) -> Item
    ensures { result ≡ interrupt actor message }
{
    Item::Applied(Applied {
        actor,
        entry: 0,
        message,
        moment: Moment::Interrupt,
    })
}

/// The items of the run.
pub fn history() -> [Item; 8]
    ensures { result ≡ history }
{
    [
        Item::Change(filled()),
        Item::Access(access(0, Kind::Store, 0, 7, 1, 0)),
        interrupt(0, Message::Restrict),
        Item::Change(copied()),
        Item::Access(access(1, Kind::Load, 7, 7, 1, 1)),
        interrupt(1, Message::Invalidate),
        Item::Change(collapsed()),
        Item::Access(access(0, Kind::Store, 7, 8, 2, 2)),
    ]
}

/// The end of a guest that halted after so many turns.
pub fn halted(turns: u32) -> Ended
    ensures { result ≡ halted turns }
{
    Ended {
        end: End::Halted,
        turns,
    }
}
