//! Costs and best plans of pages that were worked out by hand.
ghost use Rattle.std.specs.Prelude.{◌≡◌, ◌<◌, true, All, IfOk, IsTrue, length};
ghost use Rattle.plat_base.specs.Seen.{machine};
ghost use Rattle.plat_cost.specs.Costs.{actors_on, can_cost, CanCost};
ghost use Rattle.plat_coarse_tests.specs.CostTried.{tried};

use plat_base::{
    Access, Action, Cause, Change, Config, Copies, Dir, Frame, Item, Kind, OutOfMemory, PolicyKind,
    Removed, State,
};
use plat_cost::{Placed, Placer, check_bound, print_costs};
use plat_io::QuietSink;
use plat_samples::{Sizes, idle_nodes};
use std::alloc::Global;
use std::test::Fail;

fn two_nodes(alloc: Global) -> Result<Config, OutOfMemory>
    ensures { IfOk result (λ cfg. machine cfg ≡ tried) }
{
    let sizes = Sizes {
        nodes: 2,
        frames: 2,
        pages: 1,
        budget: 8,
    };
    idle_nodes(alloc, sizes, PolicyKind::Replicate, &[], &[])
}

// An access by `actor` to the copy on `module`.
fn store(actor: u32, module: u32) -> Item {
    Item::Access(Access {
        actor,
        kind: Kind::Store,
        space: 0,
        addr: 0,
        page: 0,
        word: 0,
        old: 0,
        new: 0,
        version: 0,
        frame: Frame { module, number: 0 },
        grant: 0,
    })
}

// A change by `actor` of the page, which had a copy on module 0.
fn change(actor: u32, action: Action) -> Item {
    let before = Dir {
        state: State::Modified,
        frozen: false,
        copies: Copies::none().with(Frame {
            module: 0,
            number: 0,
        }),
    };
    let after = before;
    Item::Change(Change {
        actor,
        page: 0,
        seq: 0,
        time: 1,
        cause: Cause::Write,
        action,
        removed: Removed::Nothing,
        before,
        after,
        granted: None,
    })
}

fn can_cost(cfg: &Config, item: &Item) -> bool
    ensures { IsTrue result → can_cost (machine cfg.now) 0 item.now ≡ true }
{
    match item {
        Item::Access(access) => access.actor < cfg.nodes && access.frame.module < cfg.nodes,
        Item::Change(change) => change.actor < cfg.nodes && change.before.copies.count() > 0,
        Item::Applied(_) | Item::Switch(_) => true,
    }
}

fn can_cost_all(cfg: &Config, items: &[Item]) -> bool
    ensures { IsTrue result → CanCost (machine cfg.now) 0 items.now }
{
    for item in items {
        if !can_cost(cfg, item) {
            return false;
        }
    }
    true
}

fn are_processors(cfg: &Config, actors: &[u32]) -> bool
    ensures { IsTrue result → All (λ a. a < cfg.now.nodes) actors.now }
{
    actors.iter().all(|actor| *actor < cfg.nodes)
}

fn accesses(items: &[Item]) -> usize
    ensures { result ≡ length (actors_on items.now 0) }
{
    let mut count = 0;
    for item in items {
        if let Item::Access(access) = item {
            if access.page == 0 {
                count += 1;
            }
        }
    }
    count
}

// Six accesses of node 0 and then six of node 1: one move pays.
fn phases() -> [Item; 12] {
    [
        store(0, 0),
        store(0, 0),
        store(0, 0),
        store(0, 0),
        store(0, 0),
        store(0, 0),
        store(1, 0),
        store(1, 0),
        store(1, 0),
        store(1, 0),
        store(1, 0),
        store(1, 0),
    ]
}

fn placed(accesses: u32, actual: u64, least: u64, moves: u32) -> Placed {
    Placed {
        accesses,
        actual,
        least,
        moves,
    }
}

#[test]
fn places_a_page(rt: HostRuntime) -> Result<(), Fail> {
    let alloc = rt.alloc();
    let cfg = two_nodes(alloc)?;
    let mut placer = Placer::new(alloc, &cfg)?;
    assert!(rt; placer.actors().is_empty() && placer.plan().is_empty() && placer.rest().is_empty());
    // the page moves once to node 1 and is mapped there by node 0
    let frozen = [
        change(0, Action::Fill),
        store(0, 0),
        change(1, Action::Migrate),
        store(1, 1),
        change(0, Action::MapRemote),
        store(0, 1),
        store(1, 1),
        store(0, 1),
    ];
    // node 1 reads a copy of its own, and node 0 takes it back
    let read = [
        change(0, Action::Fill),
        store(0, 0),
        change(1, Action::Replicate),
        store(1, 1),
        change(0, Action::Collapse),
        store(0, 0),
    ];
    let phases = phases();
    let pages = [
        (
            frozen.as_slice(),
            placed(5, 6, 2, 0),
            [0, 0, 0, 0, 0].as_slice(),
        ),
        (read.as_slice(), placed(3, 4, 1, 0), [0, 0, 0].as_slice()),
        (
            phases.as_slice(),
            placed(12, 6, 4, 1),
            [0, 0, 0, 0, 0, 0, 1, 1, 1, 1, 1, 1].as_slice(),
        ),
        (&read[..1], placed(0, 0, 0, 0), &[0][..0]),
    ];
    for (items, expected, plan) in &pages {
        assert!(rt;
            items.len() < 100 && can_cost_all(&cfg, items) && accesses(items) < 16,
            "{items:?}"
        );
        let found = placer.page(&cfg, items, 0);
        assert_eq!(rt; found, *expected, "{items:?}");
        assert_eq!(rt; placer.plan(), *plan, "{items:?}");
        let actors = placer.actors();
        assert!(rt; are_processors(&cfg, actors), "{items:?}");
        assert!(rt;
            check_bound(&cfg, actors, placer.rest(), found.least),
            "{items:?}"
        );
    }
    Ok(())
}

#[test]
#[tactic(auto, using(crate::proofs::CostTriedLemmas::tried_place))]
fn writes_the_costs(rt: HostRuntime) -> Result<(), Fail> {
    let alloc = rt.alloc();
    let cfg = two_nodes(alloc)?;
    let mut placer = Placer::new(alloc, &cfg)?;
    let mut sink = QuietSink::new(alloc, 256)?;
    let items = phases();
    let costs = can_cost_all(&cfg, &items);
    assert!(rt; costs);
    let count = accesses(&items);
    assert!(rt; count < 16);
    let written = print_costs(&cfg, &items, &mut placer, &mut sink);
    assert!(rt; written.is_ok());
    let expected = "platinum cost 1\n\
        page 0 accesses 12 actual 6 least 4 moves 1\n\
        from 1 at 0\n\
        from 7 at 1\n\
        total actual 6 least 4\n";
    assert_eq!(rt; sink.bytes(), expected.as_bytes());
    Ok(())
}

#[test]
fn refuses_a_bound_that_is_too_high(rt: HostRuntime) -> Result<(), Fail> {
    let cfg = two_nodes(rt.alloc())?;
    // node 0 and then node 1; to carry the page costs four
    let actors = [0, 1];
    assert!(rt; check_bound(&cfg, &actors, &[1, 1, 1, 0], 1));
    assert!(rt; !check_bound(&cfg, &actors, &[1, 1, 1, 0], 2));
    assert!(rt; !check_bound(&cfg, &actors, &[2, 1, 1, 0], 1));
    assert!(rt; !check_bound(&cfg, &actors, &[1, 1, 1, 1], 1));
    assert!(rt;
        !check_bound(
            &cfg,
            &actors,
            &[u64::MAX, u64::MAX, u64::MAX, u64::MAX],
            u64::MAX
        )
    );
    assert!(rt; check_bound(&cfg, &[], &[], 0));
    assert!(rt; !check_bound(&cfg, &[], &[], 1));
    Ok(())
}
