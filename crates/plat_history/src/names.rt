//! Words that each name one value, as they are read: another word than these is refused as one that was not wanted.
ghost use Rattle.std.specs.Prelude.{◌≡◌};
ghost use Rattle.plat_grammar.specs.HistoryForms.{named, kinds, causes, actions, removals, messages, moments, rights, endings, heads};

use plat_base::{Action, Cause, End, Kind, Message, Moment, Removed, Right, State, Why};

/// The word of the kind of an access.
pub fn read_kind(word: &[u8]) -> Result<Kind, Why>
    ensures { result ≡ named kinds word.now }
{
    if word == b"load".as_slice() {
        return Ok(Kind::Load);
    }
    if word == b"store".as_slice() {
        return Ok(Kind::Store);
    }
    if word == b"add".as_slice() {
        return Ok(Kind::Add);
    }
    Err(Why::Expected)
}

/// The word of the cause of a change.
pub fn read_cause(word: &[u8]) -> Result<Cause, Why>
    ensures { result ≡ named causes word.now }
{
    if word == b"read".as_slice() {
        return Ok(Cause::Read);
    }
    if word == b"write".as_slice() {
        return Ok(Cause::Write);
    }
    if word == b"thaw".as_slice() {
        return Ok(Cause::Thaw);
    }
    Err(Why::Expected)
}

/// The word of the action of a change.
pub fn read_action(word: &[u8]) -> Result<Action, Why>
    ensures { result ≡ named actions word.now }
{
    if word == b"fill".as_slice() {
        return Ok(Action::Fill);
    }
    if word == b"maplocal".as_slice() {
        return Ok(Action::MapLocal);
    }
    if word == b"mapremote".as_slice() {
        return Ok(Action::MapRemote);
    }
    if word == b"replicate".as_slice() {
        return Ok(Action::Replicate);
    }
    if word == b"migrate".as_slice() {
        return Ok(Action::Migrate);
    }
    if word == b"collapse".as_slice() {
        return Ok(Action::Collapse);
    }
    if word == b"thaw".as_slice() {
        return Ok(Action::Thaw);
    }
    Err(Why::Expected)
}

/// The word of what a change removes.
pub fn read_removed(word: &[u8]) -> Result<Removed, Why>
    ensures { result ≡ named removals word.now }
{
    if word == b"none".as_slice() {
        return Ok(Removed::Nothing);
    }
    if word == b"writes".as_slice() {
        return Ok(Removed::Writes);
    }
    if word == b"all".as_slice() {
        return Ok(Removed::All);
    }
    Err(Why::Expected)
}

/// The word of a message.
pub fn read_message(word: &[u8]) -> Result<Message, Why>
    ensures { result ≡ named messages word.now }
{
    if word == b"invalidate".as_slice() {
        return Ok(Message::Invalidate);
    }
    if word == b"restrict".as_slice() {
        return Ok(Message::Restrict);
    }
    Err(Why::Expected)
}

/// The word of the moment of a message.
pub fn read_moment(word: &[u8]) -> Result<Moment, Why>
    ensures { result ≡ named moments word.now }
{
    if word == b"interrupt".as_slice() {
        return Ok(Moment::Interrupt);
    }
    if word == b"activation".as_slice() {
        return Ok(Moment::Activation);
    }
    Err(Why::Expected)
}

/// The word of an end.
pub fn read_end(word: &[u8]) -> Result<End, Why>
    ensures { result ≡ named endings word.now }
{
    if word == b"halted".as_slice() {
        return Ok(End::Halted);
    }
    if word == b"trapped".as_slice() {
        return Ok(End::Trapped);
    }
    if word == b"spent".as_slice() {
        return Ok(End::Spent);
    }
    if word == b"noframes".as_slice() {
        return Ok(End::NoFrames);
    }
    if word == b"cut".as_slice() {
        return Ok(End::Cut);
    }
    Err(Why::Expected)
}

/// The word of a right.
pub fn read_right(word: &[u8]) -> Result<Right, Why>
    ensures { result ≡ named rights word.now }
{
    if word == b"r".as_slice() {
        return Ok(Right::Read);
    }
    if word == b"w".as_slice() {
        return Ok(Right::Write);
    }
    Err(Why::Expected)
}

/// The word of a state, with a star where the page is frozen.
pub fn read_head(word: &[u8]) -> Result<(State, bool), Why>
    ensures { result ≡ named heads word.now }
{
    if word == b"empty".as_slice() {
        return Ok((State::Empty, false));
    }
    if word == b"present1".as_slice() {
        return Ok((State::Present1, false));
    }
    if word == b"present+".as_slice() {
        return Ok((State::PresentPlus, false));
    }
    if word == b"modified".as_slice() {
        return Ok((State::Modified, false));
    }
    if word == b"empty*".as_slice() {
        return Ok((State::Empty, true));
    }
    if word == b"present1*".as_slice() {
        return Ok((State::Present1, true));
    }
    if word == b"present+*".as_slice() {
        return Ok((State::PresentPlus, true));
    }
    if word == b"modified*".as_slice() {
        return Ok((State::Modified, true));
    }
    Err(Why::Expected)
}
