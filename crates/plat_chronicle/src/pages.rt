//! Of each page its directory, the number of its changes, and the tick of its last invalidation.
ghost use Rattle.std.specs.Prelude.{◌≡◌, ◌+◌, ◌<◌, List as Many, [], ◌∷◌, ◌++◌, slice_get, Some, IfOk};
ghost use Rattle.std.specs.Prelude.{ℕ, length};
ghost use Rattle.plat_base.specs.Directories.{sets_last as sets_last_of};
ghost use Rattle.plat_base.specs.declared.items.Item.{Item as AnyItem};
ghost use Rattle.plat_base.specs.declared.items.Item.TheVariants as item;
ghost use Rattle.plat_chronicle.specs.Pages.{ShowsPages, changes_at, no_page as empty_page};

use plat_base::{Action, Change, Copies, Dir, State};
use std::alloc::{AllocError, Global};

/// What is kept of one page.
#[derive(Clone, Copy, Debug)]
pub struct PageState {
    pub dir: Dir,
    pub seq: u32,
    pub last: Option<u32>,
}

/// What is kept of each page, by its number.
#[derive(Debug, Drop)]
pub struct Pages {
    pub states: Vec<PageState>,
}

/// Whether a change by this action sets the tick of the last invalidation.
fn sets_last(action: Action) -> bool
    ensures { result ≡ sets_last_of action }
{
    match action {
        Action::Migrate | Action::Collapse => true,
        Action::Fill | Action::MapLocal | Action::MapRemote | Action::Replicate | Action::Thaw =>
            false,
    }
}

/// An empty page that has had no change.
fn no_page() -> PageState
    ensures { result ≡ empty_page }
{
    PageState {
        dir: Dir {
            state: State::Empty,
            frozen: false,
            copies: Copies::none(),
        },
        seq: 0,
        last: None,
    }
}

impl Pages {
    /// Every page is empty and has had no change.
    pub fn new(alloc: Global, pages: u32) -> Result<Pages, AllocError>
        ensures { IfOk result (λ it. ShowsPages pages [] it.states.items) }
    {
        let mut states = Vec::new(alloc);
        for _page in 0..pages {
            states.push(no_page())?;
        }
        Ok(Pages { states })
    }

    /// Takes a change in.
    pub fn change(&mut self, change: &Change)
        requires page { change.now.page < length self.old.states.items }
        requires count { changes_at self.old.states.items change.now.page < 4294967295 }
        ensures { (pages : ℕ) (items : Many AnyItem) → ShowsPages pages items self.old.states.items →
            ShowsPages pages (items ++ item.Change change.now ∷ []) self.new.states.items }
    {
        let page = &mut self.states[change.page as usize];
        page.dir = change.after;
        page.seq += 1;
        if sets_last(change.action) {
            page.last = Some(change.time);
        }
    }
}
