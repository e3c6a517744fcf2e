//! The next items of the actors.
ghost use Rattle.std.specs.Prelude.{◌≡◌, ◌<◌, ◌≤◌, true, length, IfSome, IfNone};
ghost use Rattle.plat_merge.specs.Heads.{may_give, IsNextWithin, AreNextWithin, NoneGives};
ghost use Rattle.plat_base.specs.declared.limits.TheConstants.{ACTORS};

use crate::counts::Counts;
use plat_base::{ACTORS, Item, Journals};

/// How far each journal is placed, by actor.
pub type Places = [usize; ACTORS as usize];

/// Whether an actor has a next item, and it may stand next.
fn is_next(journals: &Journals, next: &Places, counts: &Counts, actor: u32) -> bool
    requires actor { actor < length journals.now.rooms }
    requires few { length journals.now.rooms ≤ ACTORS }
    requires within { IsNextWithin counts.now journals.now.lists next.now actor }
    ensures { result ≡ may_give counts.now journals.now.lists next.now actor }
{
    match journals.of(actor).get(next[actor as usize]) {
        None => false,
        Some(item) => counts.may_stand(item),
    }
}

/// The lowest of so many actors that has a next item which may stand next.
pub fn ready_actor(journals: &Journals, next: &Places, counts: &Counts, actors: u32) -> Option<u32>
    requires actors { actors ≡ length journals.now.rooms }
    requires few { length journals.now.rooms ≤ ACTORS }
    requires within { AreNextWithin counts.now journals.now.lists next.now }
    ensures none { IfNone result (NoneGives counts.now journals.now.lists next.now actors) }
    ensures lowest { IfSome result (NoneGives counts.now journals.now.lists next.now) }
    ensures some { IfSome result (λ a. may_give counts.now journals.now.lists next.now a ≡ true) }
    ensures actor { IfSome result (λ a. a < actors) }
{
    for actor in 0..actors {
        if is_next(journals, next, counts, actor) {
            return Some(actor);
        }
    }
    None
}
