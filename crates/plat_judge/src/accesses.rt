//! The rules of an access: order, then grant, then flat memory.
ghost use Rattle.std.specs.Prelude.{◌≡◌, ◌/◌, ◌<◌, List as Many, ◌++◌, ◌∷◌, [], length, Some, None, IfSome, is_some, slice_index_or};
ghost use Rattle.plat_base.specs.Decide.{is_frame};
ghost use Rattle.plat_base.specs.Machine.{Machine};
ghost use Rattle.plat_base.specs.Pages.{entry_at};
ghost use Rattle.plat_base.specs.Rules.{bad_rule, is_access_next, is_ordered_access, is_grant_of as is_grant_of_access};
ghost use Rattle.plat_base.specs.Rules.{is_granted as is_granted_after, entry_of_access};
ghost use Rattle.plat_base.specs.Seen.{machine};
ghost use Rattle.plat_base.specs.Verdicts.{Answer};
ghost use Rattle.plat_base.specs.declared.items.Item.{Item as AnyItem};
ghost use Rattle.plat_base.specs.declared.items.Item.TheVariants as item;
ghost use Rattle.plat_chronicle.specs.Present.{Shows};
ghost use Rattle.plat_follow.specs.Followed.{AllStand, AllFollow};
ghost use Rattle.plat_judge.specs.Judged.{HasTakenSome, judge_of};
ghost use Rattle.plat_follow.specs.Wanted.{operation_seen, IsThroughEntry};

use plat_base::{Access, Config, Frame, Rule, Translation};
use plat_chronicle::{Present, has_right};
use plat_follow::{Followers, Wanted};

/// The rule that an access breaks, if it is the next item. Where it breaks none, it is taken in.
pub fn judge_access(
    cfg: &Config,
    present: &mut Present,
    followers: &Followers,
    access: &Access,
) -> Option<Rule>
    requires { HasTakenSome (machine cfg.now) (judge_of present.old followers.now) }
    ensures rule { (answer : Answer) (items : Many AnyItem) → Shows (machine cfg.now) items present.old →
        AllFollow (machine cfg.now) items followers.now →
        result ≡ bad_rule (machine cfg.now) answer items (item.Access access.now) }
    ensures taken { (items : Many AnyItem) → Shows (machine cfg.now) items present.old → result ≡ None →
        Shows (machine cfg.now) (items ++ item.Access access.now ∷ []) present.new }
{
    let Some(entry) = ordered_entry(cfg, followers, access) else {
        return Some(Rule::Order);
    };
    if !is_granted(present, access, entry) {
        return Some(Rule::Grant);
    }
    if !present.access(access) {
        return Some(Rule::Legal);
    }
    None
}

/// The entry of an access that is the next operation of its actor's guest.
fn ordered_entry(cfg: &Config, followers: &Followers, access: &Access) -> Option<u32>
    requires { AllStand (machine cfg.now) followers.now }
    ensures order { (items : Many AnyItem) → AllFollow (machine cfg.now) items followers.now →
        is_some result ≡ is_ordered_access (machine cfg.now) items access.now }
    ensures entry { IfSome result (λ entry.
        entry_at (machine cfg.now) access.now.space (access.now.addr / cfg.now.words) ≡ Some entry) }
    ensures actor { IfSome result (λ entry. access.now.actor < cfg.now.nodes) }
{
    if access.actor >= cfg.nodes || !has_frame(cfg, access.frame) {
        return None;
    }
    match followers.next(access.actor) {
        Some(wanted) => entry_made(wanted, access),
        None => None,
    }
}

/// The entry of the access that is wanted, if it is this one.
fn entry_made(wanted: Wanted, access: &Access) -> Option<u32>
    ensures made { is_some result ≡ is_access_next (Some (operation_seen wanted)) access.now }
    ensures entry { (m : Machine) → IsThroughEntry m wanted →
        IfSome result (λ entry. entry_at m access.now.space (access.now.addr / m.words) ≡ Some entry) }
{
    match wanted {
        Wanted::Access(reach) if wanted.is_access(access) => Some(reach.entry),
        _ => None,
    }
}

/// Whether the machine has this frame.
fn has_frame(cfg: &Config, frame: Frame) -> bool
    ensures { result ≡ is_frame (machine cfg.now) frame }
{
    frame.module < cfg.nodes && frame.number < cfg.frames
}

/// Whether the actor holds the access's translation of this entry, with enough right that nothing has taken away since.
fn is_granted(present: &Present, access: &Access, entry: u32) -> bool
    requires processor { access.now.actor < length present.now.held }
    requires entry { entry < length (slice_index_or present.now.held access.now.actor []) }
    ensures { (m : Machine) (items : Many AnyItem) → Shows m items present.now →
        entry_of_access m access.now ≡ Some entry → result ≡ is_granted_after m items access.now }
{
    let held = present.held(access.actor, entry);
    is_grant_of(access, held)
        && has_right(access.kind, held)
        && !present.later_removed_all(access.page, access.grant)
        && !(access.kind.is_write() && present.later_removed_writes(access.page, access.grant))
}

/// Whether a translation leads to the access's frame, and comes from the change that it names.
fn is_grant_of(access: &Access, held: Option<Translation>) -> bool
    ensures { result ≡ is_grant_of_access access.now held }
{
    held.is_some_and(|translation| {
        translation.grant.frame == access.frame && translation.seq == access.grant
    })
}
