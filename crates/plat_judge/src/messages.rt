//! The rules of an applied message and of a switch.
ghost use Rattle.std.specs.Prelude.{◌≡◌, List as Many, ◌++◌, ◌∷◌, [], None};
ghost use Rattle.plat_base.specs.Rules.{bad_rule, may_apply as may_apply_to, is_answered as is_answered_after};
ghost use Rattle.plat_base.specs.Rules.{is_ordered_switch as is_ordered_switch_after};
ghost use Rattle.plat_base.specs.Seen.{machine};
ghost use Rattle.plat_base.specs.Verdicts.{Answer};
ghost use Rattle.plat_base.specs.declared.items.Item.{Item as AnyItem};
ghost use Rattle.plat_base.specs.declared.items.Item.TheVariants as item;
ghost use Rattle.plat_chronicle.specs.Present.{Shows, Fits};
ghost use Rattle.plat_follow.specs.Followed.{AllStand, AllFollow};
ghost use Rattle.plat_judge.specs.Judged.{HasTakenSome, judge_of};

use plat_base::{Applied, Config, Message, Rule, Switch, Translation};
use plat_chronicle::Present;
use plat_follow::Followers;

/// The rule that an applied message breaks, if it is the next item. Where it breaks none, it is taken in.
pub fn judge_applied(cfg: &Config, present: &mut Present, applied: Applied) -> Option<Rule>
    requires { (items : Many AnyItem) × Shows (machine cfg.now) items present.old }
    ensures rule { (answer : Answer) (items : Many AnyItem) → Shows (machine cfg.now) items present.old →
        result ≡ bad_rule (machine cfg.now) answer items (item.Applied applied) }
    ensures taken { (items : Many AnyItem) → Shows (machine cfg.now) items present.old → result ≡ None →
        Shows (machine cfg.now) (items ++ item.Applied applied ∷ []) present.new }
{
    if !is_answered(cfg, present, applied) {
        return Some(Rule::Held);
    }
    present.applied(applied);
    None
}

/// Whether a message finds a translation that it can be applied to, in the space that its actor is active in.
fn is_answered(cfg: &Config, present: &Present, applied: Applied) -> bool
    requires { Fits (machine cfg.now) present.now }
    ensures { (items : Many AnyItem) → Shows (machine cfg.now) items present.now →
        result ≡ is_answered_after (machine cfg.now) items applied }
{
    if applied.actor >= cfg.nodes || applied.entry as usize >= cfg.entries.len() {
        return false;
    }
    if present.active(applied.actor) != cfg.space_of(applied.entry) {
        return false;
    }
    may_apply(applied.message, present.held(applied.actor, applied.entry))
}

/// Whether a message can be applied to this translation: any can be dropped, and one that is not marked can be restricted.
fn may_apply(message: Message, held: Option<Translation>) -> bool
    ensures { result ≡ may_apply_to message held }
{
    held.is_some_and(|translation| match message {
        Message::Invalidate => true,
        Message::Restrict => !translation.restricted,
    })
}

/// The rule that a switch breaks, if it is the next item. Where it breaks none, it is taken in.
pub fn judge_switch(
    cfg: &Config,
    present: &mut Present,
    followers: &Followers,
    switch: Switch,
) -> Option<Rule>
    requires { HasTakenSome (machine cfg.now) (judge_of present.old followers.now) }
    ensures rule { (answer : Answer) (items : Many AnyItem) →
        AllFollow (machine cfg.now) items followers.now →
        result ≡ bad_rule (machine cfg.now) answer items (item.Switch switch) }
    ensures taken { (items : Many AnyItem) → Shows (machine cfg.now) items present.old → result ≡ None →
        Shows (machine cfg.now) (items ++ item.Switch switch ∷ []) present.new }
{
    if !is_ordered_switch(cfg, followers, switch) {
        return Some(Rule::Order);
    }
    present.switch(switch);
    None
}

/// Whether a switch is the next operation of its actor's guest.
fn is_ordered_switch(cfg: &Config, followers: &Followers, switch: Switch) -> bool
    requires { AllStand (machine cfg.now) followers.now }
    ensures { (items : Many AnyItem) → AllFollow (machine cfg.now) items followers.now →
        result ≡ is_ordered_switch_after (machine cfg.now) items switch }
{
    if switch.actor >= cfg.nodes {
        return false;
    }
    match followers.next(switch.actor) {
        Some(wanted) => wanted.is_switch(switch.space),
        None => false,
    }
}
