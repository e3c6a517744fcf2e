//! Which row of the table of protocol actions a fault or a thaw is in.
ghost use Rattle.std.specs.Prelude.{◌≡◌};
ghost use Rattle.plat_base.specs.Decide.{row_of};
ghost use Rattle.plat_policy.specs.Rows.{row_seen};

use plat_base::{Cause, State};

/// The rows of the table. A page is filled where it is empty. Else the node's own copy is used, or a copy elsewhere: from
/// afar, by copying it, or by moving the page. A page is dirty where its copy may have been written.
#[derive(Clone, Copy)]
pub(crate) enum Row {
    ReadFill,
    ReadLocal,
    ReadRemote,
    ReadCopy,
    ReadRemoteDirty,
    ReadCopyDirty,
    WriteFill,
    WriteLocal,
    WriteRemote,
    WriteMove,
    CollapseHere,
    CollapseNear,
    WriteMoveMany,
    Thawed,
}

/// The row of a fault, by the page's state, whether the node has a copy, and whether the page moves to the node.
pub(crate) fn row_of(cause: Cause, state: State, here: bool, moves: bool) -> Row
    ensures { row_seen result ≡ row_of cause state here moves }
{
    match cause {
        Cause::Read => read_row(state, here, moves),
        Cause::Write => write_row(state, here, moves),
        Cause::Thaw => Row::Thawed,
    }
}

fn read_row(state: State, here: bool, moves: bool) -> Row
    ensures { row_seen result ≡ row_of Cause.Read state here moves }
{
    match (state, here, moves) {
        (State::Empty, _, _) => Row::ReadFill,
        (_, true, _) => Row::ReadLocal,
        (State::Modified, false, false) => Row::ReadRemoteDirty,
        (State::Modified, false, true) => Row::ReadCopyDirty,
        (_, false, false) => Row::ReadRemote,
        (_, false, true) => Row::ReadCopy,
    }
}

fn write_row(state: State, here: bool, moves: bool) -> Row
    ensures { row_seen result ≡ row_of Cause.Write state here moves }
{
    match (state, here, moves) {
        (State::Empty, _, _) => Row::WriteFill,
        (State::PresentPlus, true, _) => Row::CollapseHere,
        (State::PresentPlus, false, false) => Row::CollapseNear,
        (State::PresentPlus, false, true) => Row::WriteMoveMany,
        (_, true, _) => Row::WriteLocal,
        (_, false, false) => Row::WriteRemote,
        (_, false, true) => Row::WriteMove,
    }
}
