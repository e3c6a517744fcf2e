//! Words of directories.
ghost use Rattle.std.specs.Prelude.{◌≡◌, ◌<◌, ◌^◌};
ghost use Rattle.plat_base.specs.Copies.{AreCopies};
ghost use Rattle.plat_base.specs.Alike.{state_number};
ghost use Rattle.plat_events.specs.Words.{state_numbered, packed, copy_fields, copies_read};

use crate::parts::{bit, bits};
use plat_base::limits::MODULES;
use plat_base::{Copies, Frame, State};

/// The bit that says that the page is frozen.
const FROZEN_PLACE: u32 = 2;

/// The bit that says that the page is locked.
const LOCK_PLACE: u32 = 3;

/// The first of the bits that say which modules have a copy.
const COPIES_PLACE: u32 = 8;

/// The first bit of the numbers of the frames.
const FRAMES_PLACE: u32 = COPIES_PLACE + MODULES;

/// The bits of one frame's number.
const FRAME_WIDTH: u32 = 6;

/// The directory of a page (Cox and Fowler 1989), and whether it is locked.
#[derive(Clone, Copy, Debug, PartialEq, Eq)]
pub struct DirWord {
    pub state: State,
    pub frozen: bool,
    pub locked: bool,
    pub copies: Copies,
    pub ghost rising: { AreCopies copies },
}

impl DirWord {
    ghost use Rattle.std.specs.Prelude.{Some, IfSome};
    ghost use Rattle.plat_words.specs.declared.dir_words.DirWord.{DirWord};
    ghost use Rattle.plat_words.specs.Encodings.{dir_encoded, IsDirRead};

    /// The word that keeps these.
    pub fn encode(self) -> u64
        ensures { result ≡ dir_encoded self }
    {
        self.number()
    }

    /// What a word keeps; None where it is the word of no directory.
    pub fn decode(word: u64) -> Option<DirWord>
        ensures read { IfSome result (IsDirRead word) }
        ensures back { IfSome result (λ x. dir_encoded x ≡ word) }
        ensures exact { (x : DirWord) → dir_encoded x ≡ word → result ≡ Some x }
    {
        let found = DirWord {
            state: state_of(bits(word, 0, 2)),
            frozen: bit(word, FROZEN_PLACE),
            locked: bit(word, LOCK_PLACE),
            copies: copies_of(word),
        };
        if found.number() == word {
            Some(found)
        } else {
            None
        }
    }

    /// The word that keeps these.
    #[tactic(auto, unfolding(plat_events::specs::Words::dir_word))]
    fn number(&self) -> u64
        ensures { result ≡ dir_encoded self.now }
    {
        number_of(self.state)
            + (u64::from(self.frozen) << FROZEN_PLACE)
            + (u64::from(self.locked) << LOCK_PLACE)
            + (copies_number(&self.copies) << COPIES_PLACE)
    }
}

/// The number of a state in a word.
fn number_of(state: State) -> u64
    ensures { result ≡ state_number state }
{
    match state {
        State::Empty => 0,
        State::Present1 => 1,
        State::PresentPlus => 2,
        State::Modified => 3,
    }
}

/// The state with a number.
fn state_of(number: u64) -> State
    ensures { result ≡ state_numbered number }
{
    match number {
        0 => State::Empty,
        1 => State::Present1,
        2 => State::PresentPlus,
        _ => State::Modified,
    }
}

/// The bits of the copies: one for each module, and then six for the frame on each.
#[tactic(auto, using(crate::proofs::CopyFields::written_below, crate::proofs::CopyFields::written_all))]
fn copies_number(copies: &Copies) -> u64
    requires { AreCopies copies.now }
    ensures number { result ≡ packed (copy_fields copies.now) }
    ensures within { result < 2 ^ 56 }
{
    let mut modules = 0;
    let mut frames = 0;
    for module in (0..MODULES).rev() {
        modules *= 2;
        frames *= 64;
        if let Some(frame) = copies.on(module) {
            modules += 1;
            frames += u64::from(frame.number);
        }
    }
    modules + 256 * frames
}

/// The copies that a word names.
#[tactic(auto, using(crate::proofs::CopyFields::read_with, crate::proofs::CopyFields::read_without, crate::proofs::CopyFields::are_read), unfolding(plat_events::specs::Words::copies_read))]
fn copies_of(word: u64) -> Copies
    ensures copies { result ≡ copies_read word }
    ensures rising { AreCopies result }
{
    let mut copies = Copies::none();
    for module in 0..MODULES {
        if bit(word, COPIES_PLACE + module) {
            copies = copies.with(Frame {
                module,
                number: bits(word, FRAMES_PLACE + FRAME_WIDTH * module, FRAME_WIDTH) as u32,
            });
        }
    }
    copies
}
