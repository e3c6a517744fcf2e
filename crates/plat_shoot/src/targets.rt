//! The targets of a shootdown: the processors that its messages went to.
ghost use Rattle.std.specs.Prelude.{◌≡◌, ℕ, ◌+◌, ◌<◌, ◌≤◌, ◌&&◌, ◌==◌, not, List, length, slice_get, IfSome};
ghost use Rattle.std.specs.Option.{option_map};
ghost use Rattle.plat_base.specs.Pages.{entries_of_page};
ghost use Rattle.plat_base.specs.Seen.{machine};
ghost use Rattle.plat_base.specs.declared.limits.TheConstants.{MODULES};
ghost use Rattle.plat_events.specs.Shootdowns.{targets};
ghost use Rattle.plat_events.specs.Words.{has_reference};
ghost use Rattle.plat_shoot.specs.Sought.{found_seen, others, HasPassed, IsAt, IsSought, IsWithin};

use crate::entries::count_of_page;
use crate::masks::has_reference;
use plat_base::Config;

/// A processor that a message was sent to, and the entry that it was sent for.
#[derive(Clone, Copy)]
pub struct Target {
    pub entry: u32,
    pub processor: u32,
}

/// Where a search among the other references of a mask ends.
#[derive(Clone, Copy)]
pub enum Sought {
    /// At this processor.
    Found(u32),
    /// Behind the last one, with so many still to be passed.
    Left(u32),
}

/// The first posts of a shootdown, and how many targets they have on a machine of so many nodes: a search for a later target
/// need not look at them again.
#[derive(Clone, Copy, Debug)]
pub struct Passed {
    nodes: u32,
    posts: usize,
    targets: u32,
}

impl Passed {
    /// No post.
    pub fn none(nodes: u32) -> Passed
        ensures passed { (actor : ℕ) (posts : List ℕ) → HasPassed actor posts result }
        ensures nodes { result.nodes ≡ nodes }
        ensures posts { result.posts ≡ 0 }
        ensures targets { result.targets ≡ 0 }
    {
        Passed {
            nodes,
            posts: 0,
            targets: 0,
        }
    }

    /// One more post, with which there are so many targets.
    fn past(self, targets: u32) -> Passed
        requires { self.posts < 18446744073709551615 }
        ensures nodes { result.nodes ≡ self.nodes }
        ensures posts { result.posts ≡ self.posts + 1 }
        ensures targets { result.targets ≡ targets }
    {
        Passed {
            nodes: self.nodes,
            posts: self.posts + 1,
            targets,
        }
    }
}

/// A target, and the posts before the one that it has.
#[derive(Clone, Copy)]
pub struct Found {
    pub target: Target,
    pub passed: Passed,
}

/// Whether processor `q`, other than the actor, has a reference.
fn is_other(mask: u64, actor: u32, q: u32) -> bool
    requires { q ≤ MODULES }
    ensures { result ≡ (has_reference mask q && not (q == actor)) }
{
    has_reference(mask, q) && q != actor
}

/// The processor at place `at` among the other references of a mask.
fn other_at(cfg: &Config, actor: u32, mask: u64, at: u32) -> Sought
    ensures sought { IsSought (others cfg.now.nodes actor mask) at result }
    ensures within { IsWithin cfg.now.nodes result }
{
    let mut left = at;
    for q in 0..cfg.nodes {
        if is_other(mask, actor, q) {
            if left == 0 {
                return Sought::Found(q);
            }
            left -= 1;
        }
    }
    Sought::Left(left)
}

/// Where a search begins among so many posts: where the last one ended, or at the first post where that was past `at`.
fn first_of(cfg: &Config, count: usize, passed: Passed, at: u32) -> Passed
    ensures passed { (actor : ℕ) (posts : List ℕ) → HasPassed actor posts passed → HasPassed actor posts result }
    ensures nodes { result.nodes ≡ cfg.now.nodes }
    ensures posts { result.posts ≤ count }
    ensures targets { result.targets ≤ at }
{
    if passed.nodes == cfg.nodes && passed.posts <= count && passed.targets <= at {
        passed
    } else {
        Passed::none(cfg.nodes)
    }
}

/// The target at place `at`, behind the first posts.
fn target_from(
    cfg: &Config,
    actor: u32,
    page: u32,
    posts: &[u64],
    first: Passed,
    at: u32,
) -> Option<Found>
    requires begins { IsAt cfg.now.nodes actor posts.now at first }
    requires entries { first.posts ≤ length (entries_of_page (machine cfg.now) page) }
    ensures target { option_map found_seen result
        ≡ slice_get (targets (machine cfg.now) actor page posts.now) at }
    ensures entry { IfSome result (λ f. f.target.entry < length cfg.now.entries.items) }
    ensures processor { IfSome result (λ f. f.target.processor < cfg.now.nodes) }
    ensures passed { IfSome result (λ f. HasPassed actor posts.now f.passed) }
{
    let entries = &cfg.entries_of_page(page)[first.posts..];
    let mut here = first;
    for (entry, mask) in entries.iter().zip(&posts[first.posts..]) {
        match other_at(cfg, actor, *mask, at - here.targets) {
            Sought::Found(processor) => {
                let target = Target {
                    entry: *entry,
                    processor,
                };
                return Some(Found {
                    target,
                    passed: here,
                });
            }
            Sought::Left(left) => here = here.past(at - left),
        }
    }
    None
}

/// The target at place `at`: by entry, and then by processor. `posts` are the masks that were found at the first entries
/// that lead to the page, and `passed` is where an earlier search ended.
pub fn target_at(
    cfg: &Config,
    actor: u32,
    page: u32,
    posts: &[u64],
    passed: Passed,
    at: u32,
) -> Option<Found>
    requires { HasPassed actor posts.now passed }
    ensures target { option_map found_seen result
        ≡ slice_get (targets (machine cfg.now) actor page posts.now) at }
    ensures entry { IfSome result (λ f. f.target.entry < length cfg.now.entries.items) }
    ensures processor { IfSome result (λ f. f.target.processor < cfg.now.nodes) }
    ensures passed { IfSome result (λ f. HasPassed actor posts.now f.passed) }
{
    let first = first_of(cfg, count_of_page(cfg, page), passed, at);
    target_from(cfg, actor, page, posts, first, at)
}
