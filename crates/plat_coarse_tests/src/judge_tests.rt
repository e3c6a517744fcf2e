//! Small histories of two processors, good and bad, each with the item and the rule that it breaks.
ghost use Rattle.std.specs.Prelude.{◌≡◌, ◌<◌, ◌≤◌, false, length};
ghost use Rattle.plat_base.specs.Rules.{has_daemon};

use plat_base::{
    Access, Bad, Change, End, Ended, Frame, Item, Kind, Message, OutOfMemory, PolicyKind, Rule,
    Switch,
};
use plat_judge::Judge;
use plat_samples::{AtMost, access, copied, frame, halted, history, interrupt, no_copy, sharing};
use std::alloc::Global;
use std::test::Fail;

fn judged(alloc: Global, items: &[Item], ends: &[Ended]) -> Result<Option<Bad>, OutOfMemory>
    requires { length items.now ≤ 2621440 }
{
    let cfg = sharing(alloc, PolicyKind::Replicate)?;
    let judge = Judge::new(alloc, &cfg)?;
    Ok(judge.judge(&cfg, items, ends))
}

fn bad(item: u32, rule: Rule) -> Option<Bad> {
    Some(Bad { item, rule })
}

// What the judge says of the history with this item in the place of one of its own.
fn judged_with(alloc: Global, at: usize, item: Item) -> Result<Option<Bad>, OutOfMemory>
    requires { at < 8 }
{
    let mut items = history();
    items[at] = item;
    judged(alloc, &items, &[halted(5), halted(3)])
}

#[test]
fn a_good_history(rt: HostRuntime) -> Result<(), Fail> {
    let alloc = rt.alloc();
    assert_eq!(rt; judged(alloc, &history(), &[halted(5), halted(3)])?, None);
    Ok(())
}

#[test]
fn an_access_that_breaks_a_rule(rt: HostRuntime) -> Result<(), Fail> {
    let alloc = rt.alloc();
    let load = access(1, Kind::Load, 7, 7, 1, 1);
    let no_frame = Frame {
        module: 1,
        number: 4,
    };
    let rows = [
        (Access { addr: 1, ..load }, Rule::Order),
        (Access { actor: 2, ..load }, Rule::Order),
        (
            Access {
                frame: no_frame,
                ..load
            },
            Rule::Order,
        ),
        (
            Access {
                frame: frame(0),
                ..load
            },
            Rule::Grant,
        ),
        (
            Access {
                old: 6,
                new: 6,
                ..load
            },
            Rule::Legal,
        ),
        (Access { version: 0, ..load }, Rule::Legal),
    ];
    for (access, rule) in &rows {
        assert_eq!(rt;
            judged_with(alloc, 4, Item::Access(*access))?,
            bad(4, *rule),
            "at {access:?}"
        );
    }
    Ok(())
}

#[test]
fn a_change_a_message_and_a_switch_that_break_a_rule(rt: HostRuntime) -> Result<(), Fail> {
    let alloc = rt.alloc();
    let copy = copied();
    let rows = [
        (
            Item::Change(Change {
                before: no_copy(),
                ..copy
            }),
            Rule::Chain,
        ),
        (Item::Change(Change { page: 1, ..copy }), Rule::Chain),
        (Item::Change(Change { actor: 2, ..copy }), Rule::Chain),
        (interrupt(0, Message::Restrict), Rule::Held),
        (interrupt(2, Message::Invalidate), Rule::Held),
        (Item::Switch(Switch { actor: 2, space: 0 }), Rule::Order),
    ];
    for (item, rule) in &rows {
        assert_eq!(rt; judged_with(alloc, 3, *item)?, bad(3, *rule), "at {item:?}");
    }
    Ok(())
}

#[test]
fn a_translation_is_used_and_dropped_once(rt: HostRuntime) -> Result<(), Fail> {
    let alloc = rt.alloc();
    let ends = [halted(5), halted(3)];
    let [
        fill,
        store,
        restrict,
        copy,
        load,
        invalidate,
        collapse,
        last,
    ] = history();
    let late = [
        fill, store, restrict, copy, invalidate, collapse, load, last,
    ];
    assert_eq!(rt; judged(alloc, &late, &ends)?, bad(6, Rule::Grant));
    let twice = [
        fill, store, restrict, copy, load, invalidate, invalidate, collapse, last,
    ];
    assert_eq!(rt; judged(alloc, &twice, &ends)?, bad(6, Rule::Held));
    Ok(())
}

// What the judge says of the history, or of its first items, with these ends.
fn judged_until(alloc: Global, count: usize, ends: &[Ended]) -> Result<Option<Bad>, OutOfMemory>
    requires { count ≤ 8 }
{
    judged(alloc, &history()[..count], ends)
}

#[test]
fn the_ends_are_those_of_the_guests(rt: HostRuntime) -> Result<(), Fail> {
    let alloc = rt.alloc();
    let cut = Ended {
        end: End::Cut,
        turns: 2,
    };
    let broken = bad(8, Rule::Ends);
    let third = [halted(5), halted(3), halted(0)];
    assert!(rt; judged_until(alloc, 8, &[halted(5), halted(2)])? == broken);
    assert!(rt; judged_until(alloc, 8, &[halted(5)])? == broken);
    assert!(rt; judged_until(alloc, 8, &third)? == broken);
    assert!(rt; judged_until(alloc, 8, &[halted(5), cut])?.is_none());
    assert!(rt; judged_until(alloc, 4, &[halted(5), cut])? == bad(4, Rule::Ends));
    Ok(())
}

// What the judge says of the history on a machine of one policy, under its own or one that keeps so many copies.
fn judged_under(
    alloc: Global,
    policy: PolicyKind,
    given: Option<AtMost>,
) -> Result<Option<Bad>, OutOfMemory>
    requires { has_daemon policy ≡ false }
{
    let cfg = sharing(alloc, policy)?;
    let judge = Judge::new(alloc, &cfg)?;
    let ends = [halted(5), halted(3)];
    Ok(match given {
        Some(given) => judge.judge_under(&cfg, &given, &history(), &ends),
        None => judge.judge(&cfg, &history(), &ends),
    })
}

#[test]
fn a_history_is_good_under_its_own_policy(rt: HostRuntime) -> Result<(), Fail> {
    let alloc = rt.alloc();
    let chain = bad(3, Rule::Chain);
    let (one, two) = (AtMost { copies: 1 }, AtMost { copies: 2 });
    assert!(rt; judged_under(alloc, PolicyKind::Place, Some(two))?.is_none());
    assert!(rt; judged_under(alloc, PolicyKind::Place, None)? == chain);
    assert!(rt; judged_under(alloc, PolicyKind::Replicate, Some(one))? == chain);
    Ok(())
}
