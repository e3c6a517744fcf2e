//! Words that each name one value, as they are written.
ghost use Rattle.std.specs.Prelude.{◌≡◌};
ghost use Rattle.plat_base.specs.Report.{end_word};
ghost use Rattle.plat_grammar.specs.HistoryCanon.{kind_word, cause_word, action_word, removed_word, message_word, moment_word, right_word};
ghost use Rattle.plat_grammar.specs.HistoryCanon.{head_word};

use plat_base::{Action, Cause, End, Kind, Message, Moment, Removed, Right, State};

/// The word of the kind of an access.
pub fn kind_word(kind: Kind) -> &'static [u8]
    ensures { result.now ≡ kind_word kind }
{
    match kind {
        Kind::Load => b"load",
        Kind::Store => b"store",
        Kind::Add => b"add",
    }
}

/// The word of the cause of a change.
pub fn cause_word(cause: Cause) -> &'static [u8]
    ensures { result.now ≡ cause_word cause }
{
    match cause {
        Cause::Read => b"read",
        Cause::Write => b"write",
        Cause::Thaw => b"thaw",
    }
}

/// The word of the action of a change.
pub fn action_word(action: Action) -> &'static [u8]
    ensures { result.now ≡ action_word action }
{
    match action {
        Action::Fill => b"fill",
        Action::MapLocal => b"maplocal",
        Action::MapRemote => b"mapremote",
        Action::Replicate => b"replicate",
        Action::Migrate => b"migrate",
        Action::Collapse => b"collapse",
        Action::Thaw => b"thaw",
    }
}

/// The word of what a change removes.
pub fn removed_word(removed: Removed) -> &'static [u8]
    ensures { result.now ≡ removed_word removed }
{
    match removed {
        Removed::Nothing => b"none",
        Removed::Writes => b"writes",
        Removed::All => b"all",
    }
}

/// The word of a message.
pub fn message_word(message: Message) -> &'static [u8]
    ensures { result.now ≡ message_word message }
{
    match message {
        Message::Invalidate => b"invalidate",
        Message::Restrict => b"restrict",
    }
}

/// The word of the moment of a message.
pub fn moment_word(moment: Moment) -> &'static [u8]
    ensures { result.now ≡ moment_word moment }
{
    match moment {
        Moment::Interrupt => b"interrupt",
        Moment::Activation => b"activation",
    }
}

/// The word of an end.
pub fn end_word(end: End) -> &'static [u8]
    ensures { result.now ≡ end_word end }
{
    match end {
        End::Halted => b"halted",
        End::Trapped => b"trapped",
        End::Spent => b"spent",
        End::NoFrames => b"noframes",
        End::Cut => b"cut",
    }
}

/// The word of a right.
pub fn right_word(right: Right) -> &'static [u8]
    ensures { result.now ≡ right_word right }
{
    match right {
        Right::Read => b"r",
        Right::Write => b"w",
    }
}

/// The word of a state, with a star where the page is frozen.
pub fn head_word(state: State, frozen: bool) -> &'static [u8]
    ensures { result.now ≡ head_word (state, frozen) }
{
    match (state, frozen) {
        (State::Empty, false) => b"empty",
        (State::Present1, false) => b"present1",
        (State::PresentPlus, false) => b"present+",
        (State::Modified, false) => b"modified",
        (State::Empty, true) => b"empty*",
        (State::Present1, true) => b"present1*",
        (State::PresentPlus, true) => b"present+*",
        (State::Modified, true) => b"modified*",
    }
}
