//! The space that each processor is active in.
ghost use Rattle.std.specs.Prelude.{◌≡◌, ℕ, ◌<◌, List as Many, [], ◌∷◌, ◌++◌, length, IfOk, slice_index};
ghost use Rattle.plat_base.specs.Machine.{Machine};
ghost use Rattle.plat_base.specs.Seen.{machine};
ghost use Rattle.plat_base.specs.declared.items.Item.{Item as AnyItem};
ghost use Rattle.plat_base.specs.declared.items.Item.TheVariants as item;
ghost use Rattle.plat_chronicle.specs.Spaces.{ShowsSpaces};

use plat_base::{Config, Switch};
use std::alloc::{AllocError, Global};

/// The active space of each processor, by its number.
#[derive(Debug, Drop)]
pub struct Spaces {
    pub active: Vec<u32>,
}

impl Spaces {
    #[tactic(auto, using(crate::proofs::SpaceLemmas::programs))]
    /// Every processor is active in its guest's start space.
    pub fn new(alloc: Global, cfg: &Config) -> Result<Spaces, AllocError>
        ensures { IfOk result (λ it. ShowsSpaces (machine cfg.now) [] it.active.items) }
    {
        let mut active = Vec::new(alloc);
        for guest in cfg.guests.as_slice() {
            active.push(guest.space)?;
        }
        Ok(Spaces { active })
    }

    /// Takes a switch in.
    pub fn switch(&mut self, switch: Switch)
        requires { switch.actor < length self.old.active.items }
        ensures { (m : Machine) (items : Many AnyItem) → ShowsSpaces m items self.old.active.items →
            ShowsSpaces m (items ++ item.Switch switch ∷ []) self.new.active.items }
    {
        self.active[switch.actor as usize] = switch.space;
    }
}
