//! First races of histories that were worked out by hand.
ghost use Rattle.std.specs.Prelude.{◌≡◌, IfOk, IsTrue};
ghost use Rattle.plat_base.specs.Seen.{machine};
ghost use Rattle.plat_race.specs.Orders.{is_in_range, AreInRange};
ghost use Rattle.plat_coarse_tests.specs.RaceTried.{tried};

use plat_base::{
    Access, Applied, Config, Frame, Item, Kind, Message, Moment, OutOfMemory, PolicyKind,
};
use plat_race::{Pair, Racer};
use plat_samples::{Sizes, idle_nodes};
use std::alloc::Global;
use std::test::Fail;

fn three_nodes(alloc: Global) -> Result<Config, OutOfMemory>
    ensures { IfOk result (λ cfg. machine cfg ≡ tried) }
{
    let sizes = Sizes {
        nodes: 3,
        frames: 2,
        pages: 2,
        budget: 1,
    };
    idle_nodes(alloc, sizes, PolicyKind::Place, &[], &[])
}

// An access; only what races are about differs.
fn access(actor: u32, kind: Kind, page: u32, word: u32) -> Item {
    Item::Access(Access {
        actor,
        kind,
        space: 0,
        addr: word,
        page,
        word,
        old: 0,
        new: 0,
        version: 0,
        frame: Frame {
            module: 0,
            number: 0,
        },
        grant: 0,
    })
}

fn store(actor: u32, page: u32, word: u32) -> Item {
    access(actor, Kind::Store, page, word)
}

fn load(actor: u32, page: u32, word: u32) -> Item {
    access(actor, Kind::Load, page, word)
}

fn add(actor: u32, page: u32, word: u32) -> Item {
    access(actor, Kind::Add, page, word)
}

// An item that is no access.
fn message(actor: u32) -> Item {
    Item::Applied(Applied {
        actor,
        entry: 0,
        message: Message::Restrict,
        moment: Moment::Interrupt,
    })
}

fn is_in_range(cfg: &Config, item: &Item) -> bool
    ensures { result ≡ is_in_range (machine cfg.now) item.now }
{
    match item {
        Item::Access(access) => {
            access.actor < cfg.nodes && access.page < cfg.pages && access.word < cfg.words
        }
        Item::Change(_) | Item::Applied(_) | Item::Switch(_) => true,
    }
}

fn are_in_range(cfg: &Config, items: &[Item]) -> bool
    ensures { IsTrue result → AreInRange (machine cfg.now) items.now }
{
    for item in items {
        if !is_in_range(cfg, item) {
            return false;
        }
    }
    true
}

// Whether these are items of the machine, and this is their first race.
fn first_is(
    alloc: Global,
    cfg: &Config,
    items: &[Item],
    wanted: Option<Pair>,
) -> Result<bool, OutOfMemory> {
    if items.len() >= 100 || !are_in_range(cfg, items) {
        return Ok(false);
    }
    let racer = Racer::new(alloc, cfg)?;
    Ok(racer.first(cfg, items) == wanted)
}

fn race(first: u32, second: u32) -> Option<Pair> {
    Some(Pair { first, second })
}

#[test]
fn finds_the_first_race(rt: HostRuntime) -> Result<(), Fail> {
    let alloc = rt.alloc();
    let cfg = three_nodes(alloc)?;
    // a page that is read in between, and a fetch-and-add to another word after and before the load
    let read = [
        message(0),
        store(0, 0, 0),
        message(0),
        message(0),
        load(1, 0, 0),
        message(0),
        message(0),
        store(0, 0, 0),
    ];
    let added = [
        message(0),
        store(0, 0, 0),
        add(0, 0, 1),
        message(0),
        add(1, 0, 1),
        load(1, 0, 0),
    ];
    let loaded = [
        message(0),
        store(0, 0, 0),
        message(0),
        add(1, 0, 1),
        load(1, 0, 0),
        add(0, 0, 1),
    ];
    // a flag by a store orders nothing, and a fetch-and-add to another word does not order either
    let flag = [store(0, 0, 0), store(0, 0, 1), load(1, 0, 1), load(1, 0, 0)];
    let apart = [store(0, 0, 0), add(0, 0, 1), add(1, 1, 1), load(1, 0, 0)];
    // what one fetch-and-add hears goes on by way of the next
    let chain = [
        store(0, 0, 0),
        add(0, 0, 1),
        add(1, 0, 1),
        add(1, 1, 1),
        add(2, 1, 1),
        store(2, 0, 0),
    ];
    // the last access of an actor races, and so does an earlier one; the least place is the answer
    let several = [
        add(2, 0, 1),
        load(2, 0, 0),
        add(1, 0, 1),
        store(2, 0, 0),
        store(0, 0, 0),
    ];
    // loads do not conflict, nor do accesses of other pages or of one actor
    let calm = [
        load(0, 0, 0),
        load(1, 0, 0),
        store(1, 1, 0),
        store(1, 1, 0),
        store(2, 0, 1),
    ];
    let histories = [
        (read.as_slice(), race(1, 4)),
        (added.as_slice(), None),
        (loaded.as_slice(), race(1, 4)),
        (flag.as_slice(), race(1, 2)),
        (apart.as_slice(), race(0, 3)),
        (chain.as_slice(), None),
        (several.as_slice(), race(1, 4)),
        (calm.as_slice(), None),
        (&read[..0], None),
    ];
    for (items, expected) in &histories {
        assert!(rt; first_is(alloc, &cfg, items, *expected)?, "{items:?}");
    }
    Ok(())
}
