//! The course of a shootdown: each operation, and what follows it.
ghost use Rattle.std.specs.Prelude.{◌≡◌, ℕ, ◌<◌, ◌≤◌, ◌++◌, ◌∷◌, List, [], IsTrue, length};
ghost use Rattle.plat_base.specs.Pages.{entries_of_page};
ghost use Rattle.plat_base.specs.Seen.{machine};
ghost use Rattle.plat_events.specs.Places.{is_name, is_word};
ghost use Rattle.plat_events.specs.Shootdowns.{targets, entry_posted, shot_next, shot_after, ask_from, shoot_from, mask_found, own_post};
ghost use Rattle.plat_events.specs.Shootdowns.{is_active_in, target_at};
ghost use Rattle.plat_events.specs.Words.{has_message};
ghost use Rattle.plat_shoot.specs.Sought.{target_seen, HasPassed};
ghost use Rattle.plat_shoot.specs.Steps.{shot_seen, shoot_seen, ShotFits};

use crate::entries::{count_of_page, entry_of_page};
use crate::masks::{has_message, has_reference, has_references, posted_mask};
use crate::steps::{Shot, Step};
use crate::targets::{Passed, Target, target_at};
use arrayvec::ArrayVec;
use plat_base::{Config, ENTRIES, Op, Removed, WordName};
use plat_words::is_word;

/// The most entries that lead to one page: each virtual page of each space.
pub const MOST_POSTS: usize = ENTRIES as usize;

/// The masks that were found, one for each entry of the page so far.
pub type Posts = ArrayVec<u64, MOST_POSTS>;

/// What a shootdown is for: the actor that makes it, the page, and what it removes of the page's translations.
#[derive(Clone, Copy, Debug)]
pub struct Order {
    pub actor: u32,
    pub page: u32,
    pub removed: Removed,
}

/// The word of the next operation, and the operation.
pub fn operation(
    cfg: &Config,
    order: Order,
    posts: &[u64],
    passed: Passed,
    shot: Shot,
) -> (WordName, Op)
    requires actor { order.actor ≤ cfg.now.nodes }
    requires passed { HasPassed order.actor posts.now passed }
    requires fits { ShotFits (machine cfg.now) order.actor order.page posts.now (shot_seen shot) }
    ensures operation { result
        ≡ shot_next (machine cfg.now) order.actor order.page order.removed posts.now (shot_seen shot) }
    ensures name { IsTrue (is_name (machine cfg.now) result.0) }
{
    match shot {
        Shot::Posting => (WordName::Cmap(entry_posted(cfg, order, posts)), Op::Load),
        Shot::PostingOn(seen) => {
            let new = posted_mask(order.removed, order.actor, seen);
            let name = WordName::Cmap(entry_posted(cfg, order, posts));
            (name, Op::Exchange { old: seen, new })
        }
        Shot::Asking(k) | Shot::AskingAgain(k) => {
            let target = target_of(cfg, order, posts, passed, k);
            (WordName::Act(target.processor), Op::Load)
        }
        Shot::Interrupting(k) => {
            let target = target_of(cfg, order, posts, passed, k);
            let space = cfg.space_of(target.entry);
            (WordName::Intr(target.processor), Op::Or(1 << space))
        }
        Shot::Watching(k) => {
            let target = target_of(cfg, order, posts, passed, k);
            (WordName::Cmap(target.entry), Op::Load)
        }
    }
}

/// Whether the word of the next operation may be this number, which is asked of the kind of the word alone.
pub fn may_find(cfg: &Config, shot: Shot, old: u64) -> bool
    ensures { (actor page : ℕ) (removed : Removed) (posts : List ℕ)
        → result ≡ is_word (machine cfg.now)
        (shot_next (machine cfg.now) actor page removed posts (shot_seen shot)).0 old }
{
    let name = match shot {
        Shot::Posting | Shot::PostingOn(_) | Shot::Watching(_) => WordName::Cmap(0),
        Shot::Asking(_) | Shot::AskingAgain(_) => WordName::Act(0),
        Shot::Interrupting(_) => WordName::Intr(0),
    };
    is_word(cfg, name, old)
}

/// The entry that the next post is for.
fn entry_posted(cfg: &Config, order: Order, posts: &[u64]) -> u32
    requires { length posts.now < length (entries_of_page (machine cfg.now) order.page) }
    ensures entry { result ≡ entry_posted (machine cfg.now) order.page posts.now }
    ensures within { result < length cfg.now.entries.items }
{
    entry_of_page(cfg, order.page, posts.len())
}

/// The target that is next where `k` are passed.
fn target_of(cfg: &Config, order: Order, posts: &[u64], passed: Passed, k: u32) -> Target
    requires passed { HasPassed order.actor posts.now passed }
    requires there { k < length (targets (machine cfg.now) order.actor order.page posts.now) }
    ensures target { target_seen result ≡ target_at (machine cfg.now) order.actor order.page posts.now k }
    ensures entry { result.entry < length cfg.now.entries.items }
    ensures processor { result.processor < cfg.now.nodes }
{
    match target_at(cfg, order.actor, order.page, posts, passed, k) {
        Some(found) => found.target,
        None => unreachable!(),
    }
}

/// What follows where `k` targets are passed: the next one, or the end.
fn ask_from(cfg: &Config, order: Order, posts: &[u64], passed: &mut Passed, k: u32) -> Step
    requires { HasPassed order.actor posts.now passed.old }
    ensures passed { HasPassed order.actor posts.now passed.new }
    ensures step { shoot_seen posts.now result ≡ ask_from (machine cfg.now) order.actor order.page posts.now k }
{
    match target_at(cfg, order.actor, order.page, posts, *passed, k) {
        Some(found) => {
            *passed = found.passed;
            Step::Makes(Shot::Asking(k))
        }
        None => Step::Done,
    }
}

/// What follows the posts so far: the next entry, or the first target.
pub fn shoot_from(cfg: &Config, order: Order, posts: &[u64], passed: &mut Passed) -> Step
    requires { HasPassed order.actor posts.now passed.old }
    ensures passed { HasPassed order.actor posts.now passed.new }
    ensures step { shoot_seen posts.now result ≡ shoot_from (machine cfg.now) order.actor order.page posts.now }
{
    if posts.len() < count_of_page(cfg, order.page) {
        Step::Makes(Shot::Posting)
    } else {
        ask_from(cfg, order, posts, passed, 0)
    }
}

/// A mask that was posted to, or that has no reference, is found.
fn posted(cfg: &Config, order: Order, posts: &mut Posts, passed: &mut Passed, mask: u64) -> Step
    requires passed { HasPassed order.actor posts.old.items passed.old }
    requires left { length posts.old.items < length (entries_of_page (machine cfg.now) order.page) }
    ensures passed { HasPassed order.actor posts.new.items passed.new }
    ensures step { shoot_seen posts.new.items result
        ≡ shoot_from (machine cfg.now) order.actor order.page (posts.old.items ++ mask ∷ []) }
{
    posts.push(mask);
    shoot_from(cfg, order, posts.as_slice(), passed)
}

/// A mask is found that was not posted to: one with a reference is posted to next.
fn found(cfg: &Config, order: Order, posts: &mut Posts, passed: &mut Passed, mask: u64) -> Step
    requires passed { HasPassed order.actor posts.old.items passed.old }
    requires left { length posts.old.items < length (entries_of_page (machine cfg.now) order.page) }
    ensures passed { HasPassed order.actor posts.new.items passed.new }
    ensures step { shoot_seen posts.new.items result
        ≡ mask_found (machine cfg.now) order.actor order.page posts.old.items mask }
{
    if has_references(mask) {
        Step::Makes(Shot::PostingOn(mask))
    } else {
        posted(cfg, order, posts, passed, mask)
    }
}

/// Whether a target is active in its entry's space, by its word.
fn is_active_in(cfg: &Config, target: Target, active: u64) -> bool
    requires { target.entry < length cfg.now.entries.items }
    ensures { result ≡ is_active_in (machine cfg.now) (target_seen target) active }
{
    active == u64::from(cfg.space_of(target.entry)) + 1
}

/// What follows the operation where it found `old`.
pub fn after(
    cfg: &Config,
    order: Order,
    posts: &mut Posts,
    passed: &mut Passed,
    shot: Shot,
    old: u64,
) -> Step
    requires passed { HasPassed order.actor posts.old.items passed.old }
    requires fits { ShotFits (machine cfg.now) order.actor order.page posts.old.items (shot_seen shot) }
    ensures passed { HasPassed order.actor posts.new.items passed.new }
    ensures step { shoot_seen posts.new.items result
        ≡ shot_after (machine cfg.now) order.actor order.page posts.old.items old (shot_seen shot) }
{
    match shot {
        Shot::Posting => found(cfg, order, posts, passed, old),
        Shot::PostingOn(seen) => {
            if old == seen {
                posted(cfg, order, posts, passed, old)
            } else {
                found(cfg, order, posts, passed, old)
            }
        }
        Shot::Asking(k) => asked(cfg, order, posts.as_slice(), passed, k, old),
        Shot::Interrupting(k) => Step::Makes(Shot::Watching(k)),
        Shot::Watching(k) => watched(cfg, order, posts.as_slice(), passed, k, old),
        Shot::AskingAgain(k) => asked_again(cfg, order, posts.as_slice(), passed, k, old),
    }
}

/// The active space of a target was found: one that is active in the entry's space is interrupted.
#[tactic(auto, using(crate::proofs::TargetLemmas::few))]
fn asked(cfg: &Config, order: Order, posts: &[u64], passed: &mut Passed, k: u32, old: u64) -> Step
    requires passed { HasPassed order.actor posts.now passed.old }
    requires there { k < length (targets (machine cfg.now) order.actor order.page posts.now) }
    ensures passed { HasPassed order.actor posts.now passed.new }
    ensures step { shoot_seen posts.now result
        ≡ shot_after (machine cfg.now) order.actor order.page posts.now old (shot_seen (Shot.Asking k)) }
{
    if is_active_in(cfg, target_of(cfg, order, posts, *passed, k), old) {
        Step::Makes(Shot::Interrupting(k))
    } else {
        ask_from(cfg, order, posts, passed, k + 1)
    }
}

/// The mask of a target was found: one without a message is passed.
#[tactic(auto, using(crate::proofs::TargetLemmas::few))]
fn watched(cfg: &Config, order: Order, posts: &[u64], passed: &mut Passed, k: u32, old: u64) -> Step
    requires passed { HasPassed order.actor posts.now passed.old }
    requires there { k < length (targets (machine cfg.now) order.actor order.page posts.now) }
    ensures passed { HasPassed order.actor posts.now passed.new }
    ensures step { shoot_seen posts.now result
        ≡ shot_after (machine cfg.now) order.actor order.page posts.now old (shot_seen (Shot.Watching k)) }
{
    if has_message(old, target_of(cfg, order, posts, *passed, k).processor) {
        Step::Makes(Shot::AskingAgain(k))
    } else {
        ask_from(cfg, order, posts, passed, k + 1)
    }
}

/// The active space of a target was found again: a processor polls before it watches the target further, and the daemon,
/// which has no poll, goes on.
#[tactic(auto, using(crate::proofs::TargetLemmas::few))]
fn asked_again(
    cfg: &Config,
    order: Order,
    posts: &[u64],
    passed: &mut Passed,
    k: u32,
    old: u64,
) -> Step
    requires passed { HasPassed order.actor posts.now passed.old }
    requires there { k < length (targets (machine cfg.now) order.actor order.page posts.now) }
    ensures passed { HasPassed order.actor posts.now passed.new }
    ensures step { shoot_seen posts.now result
        ≡ shot_after (machine cfg.now) order.actor order.page posts.now old (shot_seen (Shot.AskingAgain k)) }
{
    if !is_active_in(cfg, target_of(cfg, order, posts, *passed, k), old) {
        ask_from(cfg, order, posts, passed, k + 1)
    } else if order.actor == cfg.nodes {
        Step::Makes(Shot::Watching(k))
    } else {
        Step::Polls(k)
    }
}

/// The entry of a post that was made on a mask with the actor's own reference.
pub fn own_post(cfg: &Config, order: Order, posts: &[u64], shot: Shot, old: u64) -> Option<u32>
    requires actor { order.actor ≤ cfg.now.nodes }
    requires fits { ShotFits (machine cfg.now) order.actor order.page posts.now (shot_seen shot) }
    ensures { result ≡ own_post (machine cfg.now) order.actor order.page posts.now old (shot_seen shot) }
{
    match shot {
        Shot::PostingOn(seen) => {
            if old == seen && has_reference(old, order.actor) {
                Some(entry_posted(cfg, order, posts))
            } else {
                None
            }
        }
        _ => None,
    }
}
