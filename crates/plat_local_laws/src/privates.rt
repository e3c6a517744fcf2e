//! The law of the private states that one actor comes to.
ghost use Rattle.std.specs.Prelude.{◌≡◌, ◌<◌, ◌≤◌, ℕ, List, IsTrue, length, slice_index};
ghost use Rattle.plat_base.specs.Rooms.{journal_rooms};
ghost use Rattle.plat_base.specs.Rules.{is_end};
ghost use Rattle.plat_base.specs.Seen.{machine};
ghost use Rattle.plat_base.specs.declared.endings.End.TheVariants as end;
ghost use Rattle.plat_base.specs.declared.items.Item.{Item};
ghost use Rattle.plat_events.specs.Events.{named_next};
ghost use Rattle.plat_events.specs.Privates.{Private, actor_count};
ghost use Rattle.plat_events.specs.Shown.{IsReachedAlone, items_by};
ghost use Rattle.plat_local_laws.specs.Alone.{PrivateOk};
ghost use Rattle.plat_local_laws.specs.Words.{CountersLeft, LeavesWord, NamesWord};

use plat_base::{Config, Policy};

/// Does nothing; its contract is the law of one actor: whatever a policy answers, and whatever numbers of their kinds the
/// words are that the actor finds, one operation after another, its place, its session and its translations fit one another,
/// its guest is where its journal has come, and its journal has no more items than its room. Its next operation is on a word
/// of the machine, and leaves there what that word may be, while no counter has come to its end. Where the journal is a
/// processor's part of a history, its accesses and switches there are those of its guest, in order.
pub fn any_policy_alone<P: Policy>(cfg: &Config, policy: &P)
    ensures facts { (a : ℕ) (p : Private) → a < actor_count (machine cfg.now)
        → IsReachedAlone (machine cfg.now) (P.answer policy.now) a p → PrivateOk (machine cfg.now) (P.answer policy.now) a p }
    ensures room { (a : ℕ) (p : Private) → a < actor_count (machine cfg.now)
        → IsReachedAlone (machine cfg.now) (P.answer policy.now) a p
        → length p.journal ≤ slice_index (journal_rooms (machine cfg.now)) a }
    ensures names { (a : ℕ) (p : Private) → a < actor_count (machine cfg.now)
        → IsReachedAlone (machine cfg.now) (P.answer policy.now) a p
        → NamesWord (machine cfg.now) (named_next (machine cfg.now) (P.answer policy.now) a p p.place) }
    ensures leaves { (a : ℕ) (p : Private) (n : ℕ) → a < actor_count (machine cfg.now)
        → IsReachedAlone (machine cfg.now) (P.answer policy.now) a p → CountersLeft (machine cfg.now) p n
        → LeavesWord (machine cfg.now) (named_next (machine cfg.now) (P.answer policy.now) a p p.place) n }
    ensures order { (a : ℕ) (p : Private) (items : List Item) → a < (machine cfg.now).nodes
        → IsReachedAlone (machine cfg.now) (P.answer policy.now) a p → p.journal ≡ items_by a items
        → IsTrue (is_end (machine cfg.now) items a end.Cut p.turns) }
{}
