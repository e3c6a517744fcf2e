//! The rule of a change: it follows the page's last one, and is what a fault or a thaw decides.
ghost use Rattle.std.specs.Prelude.{◌≡◌, ◌≢◌, ◌<◌, List as Many, ◌++◌, ◌∷◌, [], length, Some, None};
ghost use Rattle.plat_base.specs.Directories.{last_of};
ghost use Rattle.plat_base.specs.Rules.{bad_rule, is_chained as is_chained_after, is_fault_change as is_fault_change_after};
ghost use Rattle.plat_base.specs.Rules.{is_fault_decision as is_fault_decision_after, is_fault_of as is_fault_of_after};
ghost use Rattle.plat_base.specs.Rules.{is_thaw_change as is_thaw_change_after, got_named as got_named_by, has_daemon as has_daemon_by};
ghost use Rattle.plat_base.specs.Seen.{machine};
ghost use Rattle.plat_base.specs.declared.items.Item.{Item as AnyItem};
ghost use Rattle.plat_base.specs.declared.items.Item.TheVariants as item;
ghost use Rattle.plat_chronicle.specs.Present.{Shows, Fits};
ghost use Rattle.plat_follow.specs.Followed.{AllStand, AllFollow};
ghost use Rattle.plat_follow.specs.Wanted.{operation_seen, IsThroughEntry};
ghost use Rattle.plat_judge.specs.Decided.{decided_if_may};
ghost use Rattle.plat_judge.specs.Judged.{HasRoom, judge_of};

use crate::alike::{is_decided, is_granted_so, same_cause, same_dir};
use plat_base::{Action, Cause, Change, Config, Decision, Frame, Grant, Policy, PolicyKind, Rule};
use plat_chronicle::{Present, has_right};
use plat_follow::{Followers, Wanted};
use plat_policy::{decide, may_decide};

/// The rule that a change breaks, if it is the next item. Where it breaks none, it is taken in.
pub fn judge_change<P: Policy>(
    cfg: &Config,
    policy: &P,
    present: &mut Present,
    followers: &Followers,
    change: &Change,
) -> Option<Rule>
    requires { HasRoom (machine cfg.now) (judge_of present.old followers.now) }
    ensures rule { (items : Many AnyItem) → Shows (machine cfg.now) items present.old →
        AllFollow (machine cfg.now) items followers.now →
        result ≡ bad_rule (machine cfg.now) (P.answer policy.now) items (item.Change change.now) }
    ensures taken { (items : Many AnyItem) → Shows (machine cfg.now) items present.old → result ≡ None →
        Shows (machine cfg.now) (items ++ item.Change change.now ∷ []) present.new }
{
    if !is_chained(cfg, policy, present, followers, change) {
        return Some(Rule::Chain);
    }
    present.change(cfg, change);
    None
}

/// Whether a change has its page's next number and directory, and is what a fault or a thaw decides.
fn is_chained<P: Policy>(
    cfg: &Config,
    policy: &P,
    present: &Present,
    followers: &Followers,
    change: &Change,
) -> bool
    requires fits { Fits (machine cfg.now) present.now }
    requires stand { AllStand (machine cfg.now) followers.now }
    ensures { (items : Many AnyItem) → Shows (machine cfg.now) items present.now →
        AllFollow (machine cfg.now) items followers.now →
        result ≡ is_chained_after (machine cfg.now) (P.answer policy.now) items change.now }
{
    if change.page >= cfg.pages
        || change.seq != present.seq(change.page)
        || !same_dir(&change.before, &present.dir(change.page))
    {
        return false;
    }
    let last = present.last(change.page);
    if change.actor < cfg.nodes {
        is_fault_change(cfg, policy, present, followers, change, last)
    } else {
        change.actor == cfg.nodes && is_thaw_change(cfg, policy, change, last)
    }
}

/// Whether a change of a processor is what its guest's next access makes of the page by a fault.
fn is_fault_change<P: Policy>(
    cfg: &Config,
    policy: &P,
    present: &Present,
    followers: &Followers,
    change: &Change,
    last: Option<u32>,
) -> bool
    requires fits { Fits (machine cfg.now) present.now }
    requires stand { AllStand (machine cfg.now) followers.now }
    requires processor { change.now.actor < cfg.now.nodes }
    ensures { (items : Many AnyItem) → Shows (machine cfg.now) items present.now →
        AllFollow (machine cfg.now) items followers.now → last ≡ last_of items change.now.page →
        result ≡ is_fault_change_after (machine cfg.now) (P.answer policy.now) items change.now
        change.now.granted }
{
    let Some(grant) = change.granted else {
        return false;
    };
    let Some(wanted) = followers.next(change.actor) else {
        return false;
    };
    if !is_fault_of(cfg, present, change, grant, wanted) {
        return false;
    }
    is_fault_decision(cfg, policy, change, grant, last)
}

/// Whether an operation that a guest wants faults through the granted entry, with the change's cause.
fn is_fault_of(
    cfg: &Config,
    present: &Present,
    change: &Change,
    grant: Grant,
    wanted: Wanted,
) -> bool
    requires fits { Fits (machine cfg.now) present.now }
    requires processor { change.now.actor < cfg.now.nodes }
    requires entry { IsThroughEntry (machine cfg.now) wanted }
    ensures { (items : Many AnyItem) → Shows (machine cfg.now) items present.now →
        result ≡ is_fault_of_after (machine cfg.now) items change.now grant (Some (operation_seen wanted)) }
{
    let Wanted::Access(reach) = wanted else {
        return false;
    };
    if grant.entry != reach.entry
        || reach.page != change.page
        || !same_cause(reach.kind.cause(), change.cause)
    {
        return false;
    }
    !has_right(reach.kind, present.held(change.actor, grant.entry))
}

/// Whether the protocol decides a fault so, with the frame and the right that the change grants.
fn is_fault_decision<P: Policy>(
    cfg: &Config,
    policy: &P,
    change: &Change,
    grant: Grant,
    last: Option<u32>,
) -> bool
    requires { change.now.actor < cfg.now.nodes }
    ensures { (items : Many AnyItem) → last ≡ last_of items change.now.page →
        result ≡ is_fault_decision_after (machine cfg.now) (P.answer policy.now) items change.now grant }
{
    let got = got_named(change.action, grant);
    match decision_of(cfg, policy, change, last, change.actor, change.cause, got) {
        Some(decision) => is_granted_so(&decision, change, grant),
        None => false,
    }
}

/// What the protocol decides, with the directory before the change and at its tick, where it may be asked.
fn decision_of<P: Policy>(
    cfg: &Config,
    policy: &P,
    change: &Change,
    last: Option<u32>,
    actor: u32,
    cause: Cause,
    got: Option<Frame>,
) -> Option<Decision>
    requires { cause ≢ Cause.Thaw → actor < cfg.now.nodes }
    ensures { result ≡ decided_if_may (machine cfg.now) (P.answer policy.now) change.now.before last
        change.now.time actor cause got }
{
    let before = &change.before;
    if may_decide(cfg, policy, before, last, change.time, actor, cause, got) {
        Some(decide(cfg, policy, before, last, change.time, actor, cause, got))
    } else {
        None
    }
}

/// The frame that a fault took, as its change names it.
fn got_named(action: Action, grant: Grant) -> Option<Frame>
    ensures { result ≡ got_named_by action grant }
{
    match action {
        Action::Fill | Action::Replicate | Action::Migrate => Some(grant.frame),
        Action::MapLocal | Action::MapRemote | Action::Collapse | Action::Thaw => None,
    }
}

/// Whether a change of the daemon is the thaw of a frozen page.
fn is_thaw_change<P: Policy>(cfg: &Config, policy: &P, change: &Change, last: Option<u32>) -> bool
    ensures { (items : Many AnyItem) → last ≡ last_of items change.now.page →
        result ≡ is_thaw_change_after (machine cfg.now) (P.answer policy.now) items change.now }
{
    if !has_daemon(&cfg.policy)
        || !same_cause(change.cause, Cause::Thaw)
        || change.granted.is_some()
    {
        return false;
    }
    match decision_of(cfg, policy, change, last, change.actor, Cause::Thaw, None) {
        Some(decision) => is_decided(&decision, change),
        None => false,
    }
}

/// Whether a policy has a daemon, which thaws pages.
fn has_daemon(policy: &PolicyKind) -> bool
    ensures { result ≡ has_daemon_by policy.now }
{
    match policy {
        PolicyKind::Place | PolicyKind::Replicate => false,
        PolicyKind::Platinum { .. } => true,
    }
}
