//! Frames of memory modules, the copies of a page, and its directory.
ghost use Rattle.std.specs.Prelude.{◌≡◌, ◌<◌, [], length};
ghost use Rattle.plat_base.specs.Copies.{copy_on, with_frame, without_module, same_frames, AreCopies};
ghost use Rattle.plat_base.specs.declared.limits.TheConstants.{MODULES, FRAMES};

use crate::limits::{FRAMES, MODULES};
use std::marker::Model;

/// One frame of physical memory: the number of its module, which is that of its node (0 to 7), and its number within that
/// module (0 to 63).
#[derive(Clone, Copy, Debug, PartialEq, Eq)]
pub struct Frame {
    pub module: u32,
    pub number: u32,
}

/// The state of a coherent page (Cox and Fowler 1989).
#[derive(Clone, Copy, Debug, PartialEq, Eq)]
pub enum State {
    /// No copy.
    Empty,
    /// One copy, and no writable translation.
    Present1,
    /// Several copies, and no writable translation.
    PresentPlus,
    /// One copy, and there may be writable translations.
    Modified,
}

/// The copies of a page: at most one frame on each of eight modules. Contracts see the list of the frames, of rising
/// module.
#[derive(Clone, Copy, Debug)]
pub struct Copies {
    slots: [u8; SLOTS],
}

impl Model for Copies {
    ghost use Rattle.std.specs.Prelude.{List, ℕ};
    ghost use Rattle.std.proofs.Common.{ap};
    ghost use Rattle.plat_base.specs.declared.frames.Frame.{Frame};
    ghost use Rattle.plat_base.specs.Slots.{frames_from, slots_from, AreSlots, slots_back};

    ghost Value = { List Frame };

    ghost view = { λ it. frames_from 0 it.slots };

    ghost invariant = { λ it. AreSlots it.slots };

    ghost inverse = { λ frames. record { slots = slots_from 0 8 frames } };

    ghost inverse_ok = { λ a h. ap (λ (s : List ℕ). let r : Inside = record { slots = s } in
        r) (slots_back a.slots h) };
}

/// What a slot holds where its module has no copy.
const NO_FRAME: u8 = FRAMES as u8;

/// The number of slots: one for each module.
const SLOTS: usize = MODULES as usize;

impl Copies {
    /// No copy.
    pub fn none() -> Copies
        ensures { result ≡ [] }
    {
        Copies {
            slots: [NO_FRAME; SLOTS],
        }
    }

    /// These copies, with `frame` as its module's copy.
    pub fn with(self, frame: Frame) -> Copies
        requires module { frame.module < MODULES }
        requires number { frame.number < FRAMES }
        ensures { result ≡ with_frame frame self }
    {
        let mut slots = self.slots;
        slots[frame.module as usize] = frame.number as u8;
        Copies { slots }
    }

    /// These copies, without the copy on the module of `node`.
    pub fn without(self, node: u32) -> Copies
        requires { node < MODULES }
        ensures { result ≡ without_module node self }
    {
        let mut slots = self.slots;
        slots[node as usize] = NO_FRAME;
        Copies { slots }
    }

    /// The copy on the module of `node`, if it has one.
    pub fn on(&self, node: u32) -> Option<Frame>
        requires { node < MODULES }
        ensures { result ≡ copy_on node self.now }
    {
        let number = self.slots[node as usize];
        if number < NO_FRAME {
            Some(Frame {
                module: node,
                number: u32::from(number),
            })
        } else {
            None
        }
    }

    /// The number of copies.
    pub fn count(&self) -> u32
        ensures count { result ≡ length self.now }
        ensures rising { AreCopies self.now }
    {
        self.slots
            .iter()
            .filter(|number| **number < NO_FRAME)
            .count() as u32
    }
}

impl PartialEq for Copies {
    ghost use Rattle.std.specs.Cmp.{partial_equiv_from_equiv};
    ghost use Rattle.plat_base.specs.Slots.{same_frames_equiv};

    ghost eq = { same_frames };

    ghost laws = { partial_equiv_from_equiv same_frames_equiv };

    fn eq(&self, other: &Copies) -> bool {
        self.slots == other.slots
    }
}

impl Eq for Copies {
    ghost use Rattle.plat_base.specs.Slots.{same_frames_equiv};

    ghost laws = { same_frames_equiv };
}

/// The directory of a page (Cox and Fowler 1989): its state, whether it is frozen, and its copies.
#[derive(Clone, Copy, Debug, PartialEq, Eq)]
pub struct Dir {
    pub state: State,
    pub frozen: bool,
    pub copies: Copies,
}
