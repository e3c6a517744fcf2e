//! The judge: item after item, and then the ends.
ghost use Rattle.std.specs.Prelude.{◌≡◌, ◌<◌, ◌≤◌, List as Many, ◌++◌, ◌∷◌, [], length, None, IfOk};
ghost use Rattle.plat_base.specs.Rules.{bad_rule as bad_rule_of, bad_ends, first_bad};
ghost use Rattle.plat_base.specs.Seen.{machine};
ghost use Rattle.plat_base.specs.Verdicts.{policy_answer};
ghost use Rattle.plat_base.specs.declared.items.Item.{Item as AnyItem};
ghost use Rattle.plat_base.specs.declared.limits.TheConstants.{MOST_ITEMS};
ghost use Rattle.plat_chronicle.specs.Present.{Shows};
ghost use Rattle.plat_follow.specs.Followed.{AllFollow};
ghost use Rattle.plat_judge.specs.Judged.{HasTaken, HasTakenSome, HasRoom, IsJudgeOf, judge_of};

use crate::accesses::judge_access;
use crate::changes::judge_change;
use crate::ends::are_ends;
use crate::messages::{judge_applied, judge_switch};
use plat_base::{Bad, Config, Ended, Item, OutOfMemory, Policy, Rule};
use plat_chronicle::Present;
use plat_follow::Followers;
use std::alloc::Global;
use std::marker::Model;

/// A judge of one machine's histories, with the memory that it needs. It keeps the present of the items that it took in,
/// and where each guest stands, so that an item costs the same however many came before it. Only good items are taken in,
/// since the first bad one ends the judging.
#[derive(Debug, Drop)]
pub struct Judge {
    present: Present,
    followers: Followers,
}

impl Model for Judge {
    ghost use Rattle.plat_judge.specs.Judged.{JudgeSeen};

    ghost Value = { JudgeSeen };

    ghost view = { λ it. record { present = it.present; followers = it.followers } };
}

/// The rule that an item breaks, if it is the next one. Where it breaks none, the present takes it in.
fn judge_item<P: Policy>(
    cfg: &Config,
    policy: &P,
    present: &mut Present,
    followers: &Followers,
    item: &Item,
) -> Option<Rule>
    requires { HasRoom (machine cfg.now) (judge_of present.old followers.now) }
    ensures rule { (items : Many AnyItem) → Shows (machine cfg.now) items present.old →
        AllFollow (machine cfg.now) items followers.now →
        result ≡ bad_rule_of (machine cfg.now) (P.answer policy.now) items item.now }
    ensures taken { (items : Many AnyItem) → Shows (machine cfg.now) items present.old → result ≡ None →
        Shows (machine cfg.now) (items ++ item.now ∷ []) present.new }
{
    match item {
        Item::Access(access) => judge_access(cfg, present, followers, access),
        Item::Change(change) => judge_change(cfg, policy, present, followers, change),
        Item::Applied(applied) => judge_applied(cfg, present, *applied),
        Item::Switch(switch) => judge_switch(cfg, present, followers, *switch),
    }
}

impl Judge {
    /// A judge of the histories of a machine. It takes all the memory.
    pub fn new(alloc: Global, cfg: &Config) -> Result<Judge, OutOfMemory>
        ensures { IfOk result (λ it. IsJudgeOf (machine cfg.now) it) }
    {
        let present = Present::new(alloc, cfg)?;
        let followers = Followers::new(alloc, cfg)?;
        Ok(Judge { present, followers })
    }

    /// The first item that breaks a rule of the machine's histories, with that rule; where no item does, and some end is not
    /// that of its guest or there is not one for each node, the number of items with the rule of ends. It takes no memory.
    /// The policy is the one that the machine names.
    pub fn judge(self, cfg: &Config, items: &[Item], ends: &[Ended]) -> Option<Bad>
        requires made { IsJudgeOf (machine cfg.now) self }
        requires few { length items.now ≤ MOST_ITEMS }
        ensures { result ≡ first_bad (machine cfg.now) (policy_answer cfg.now.policy) items.now ends.now }
    {
        self.judge_under(cfg, &cfg.policy, items, ends)
    }

    /// The same under any policy: it, and not the one that the machine names, decides what a change at a fault is. Whether
    /// the history may have changes by the daemon is still what the machine says.
    pub fn judge_under<P: Policy>(
        self,
        cfg: &Config,
        policy: &P,
        items: &[Item],
        ends: &[Ended],
    ) -> Option<Bad>
        requires made { IsJudgeOf (machine cfg.now) self }
        requires few { length items.now ≤ MOST_ITEMS }
        ensures { result ≡ first_bad (machine cfg.now) (P.answer policy.now) items.now ends.now }
    {
        let mut judge = self;
        for (number, item) in items.iter().enumerate() {
            if let Some(rule) = judge.take_in(cfg, policy, item) {
                return Some(Bad {
                    item: number as u32,
                    rule,
                });
            }
        }
        judge.bad_ends(cfg, items.len() as u32, ends)
    }

    /// Takes in one more item, or answers the rule that it breaks.
    fn take_in<P: Policy>(&mut self, cfg: &Config, policy: &P, item: &Item) -> Option<Rule>
        requires { HasRoom (machine cfg.now) self.old }
        ensures rule { (items : Many AnyItem) → HasTaken (machine cfg.now) items self.old →
            result ≡ bad_rule_of (machine cfg.now) (P.answer policy.now) items item.now }
        ensures taken { (items : Many AnyItem) → HasTaken (machine cfg.now) items self.old → result ≡ None →
            HasTaken (machine cfg.now) (items ++ item.now ∷ []) self.new }
    {
        let rule = judge_item(cfg, policy, &mut self.present, &self.followers, item);
        if rule.is_none() {
            self.followers.add(cfg, item);
        }
        rule
    }

    /// The rule of ends after so many good items.
    fn bad_ends(&self, cfg: &Config, count: u32, ends: &[Ended]) -> Option<Bad>
        requires { HasTakenSome (machine cfg.now) self.now }
        ensures { (items : Many AnyItem) → HasTaken (machine cfg.now) items self.now → count ≡ length items →
            result ≡ bad_ends (machine cfg.now) items ends.now }
    {
        if are_ends(cfg, &self.present, &self.followers, ends) {
            None
        } else {
            Some(Bad {
                item: count,
                rule: Rule::Ends,
            })
        }
    }
}
