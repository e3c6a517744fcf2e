//! Of each page and actor, the greatest number of a change that removed translations.
ghost use Rattle.std.specs.Prelude.{◌≡◌, ℕ, ◌<◌, ◌≤◌, List as Many, [], ◌∷◌, ◌++◌, length, IfOk};
ghost use Rattle.plat_base.specs.Messages.{by_other};
ghost use Rattle.plat_base.specs.Held.{removes_all, removes_writes};
ghost use Rattle.plat_base.specs.declared.items.Item.{Item as AnyItem};
ghost use Rattle.plat_base.specs.declared.items.Item.TheVariants as item;
ghost use Rattle.plat_base.specs.declared.limits.TheConstants.{MODULES};
ghost use Rattle.plat_chronicle.specs.Removals.{ShowsRemovals, is_some_other, is_some_above};

use plat_base::{ACTORS, Change, Removed};
use std::alloc::{AllocError, Global};

/// For each actor of at most nine, the greatest number of its changes of a page that removed all, or that removed the
/// right to write; 0 where there is none. A change of number 0 finds no translation to remove.
#[derive(Clone, Copy, Debug)]
pub struct Highest {
    pub all: [u32; ACTORS as usize],
    pub writes: [u32; ACTORS as usize],
}

/// The removals of each page, by its number.
#[derive(Debug, Drop)]
pub struct Removals {
    pub pages: Vec<Highest>,
}

/// Whether an actor other than `q` has a number above `seq`.
pub fn is_by_other(highest: &[u32; ACTORS as usize], q: u32, seq: u32) -> bool
    ensures { result ≡ is_some_other highest.now q seq }
{
    highest
        .iter()
        .enumerate()
        .any(|(actor, high)| actor != q as usize && seq < *high)
}

/// Whether some actor has a number above `seq`.
pub fn is_above(highest: &[u32; ACTORS as usize], seq: u32) -> bool
    ensures { result ≡ is_some_above highest.now seq }
{
    highest.iter().any(|high| seq < *high)
}

impl Removals {
    /// No page has had a change.
    pub fn new(alloc: Global, pages: u32) -> Result<Removals, AllocError>
        ensures { IfOk result (λ it. ShowsRemovals pages [] it.pages.items) }
    {
        let none = Highest {
            all: [0; ACTORS as usize],
            writes: [0; ACTORS as usize],
        };
        let pages = vec![in alloc; none; pages as usize]?;
        Ok(Removals { pages })
    }

    /// Takes a change in.
    pub fn change(&mut self, change: &Change)
        requires page { change.now.page < length self.old.pages.items }
        requires actor { change.now.actor ≤ MODULES }
        ensures { (pages : ℕ) (items : Many AnyItem) → ShowsRemovals pages items self.old.pages.items →
            ShowsRemovals pages (items ++ item.Change change.now ∷ []) self.new.pages.items }
    {
        let highest = &mut self.pages[change.page as usize];
        let actor = change.actor as usize;
        match change.removed {
            Removed::Nothing => {}
            Removed::Writes => highest.writes[actor] = highest.writes[actor].max(change.seq),
            Removed::All => highest.all[actor] = highest.all[actor].max(change.seq),
        }
    }
}
