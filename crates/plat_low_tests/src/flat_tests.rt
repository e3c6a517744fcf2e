//! Flat memory of a small machine, whose values were worked out by hand.
ghost use Rattle.std.specs.Prelude.{◌≡◌, IfOk};
ghost use Rattle.plat_base.specs.Seen.{machine};
ghost use Rattle.plat_low_tests.specs.FlatTried.{tried};

use plat_base::{Access, Config, Frame, Init, Item, Kind, OutOfMemory, PolicyKind, Switch};
use plat_flat::Flat;
use plat_samples::{Sizes, idle_nodes};
use std::alloc::Global;
use std::test::Fail;

const STARTING_VALUES: [Init; 2] = [
    Init {
        page: 0,
        word: 3,
        value: 9,
    },
    Init {
        page: 1,
        word: 2,
        value: 7,
    },
];

fn two_pages(alloc: Global) -> Result<Config, OutOfMemory>
    ensures { IfOk result (λ cfg. machine cfg ≡ tried) }
{
    let sizes = Sizes {
        nodes: 1,
        frames: 2,
        pages: 2,
        budget: 1,
    };
    idle_nodes(alloc, sizes, PolicyKind::Place, &[], &STARTING_VALUES)
}

// An access of word 2 of page 1.
fn access(kind: Kind, old: u32, new: u32, version: u32) -> Item {
    Item::Access(Access {
        actor: 0,
        kind,
        space: 0,
        addr: 2,
        page: 1,
        word: 2,
        old,
        new,
        version,
        frame: Frame {
            module: 0,
            number: 0,
        },
        grant: 0,
    })
}

#[test]
fn starts_with_the_starting_values(rt: HostRuntime) -> Result<(), Fail> {
    let alloc = rt.alloc();
    let cfg = two_pages(alloc)?;
    let flat = Flat::new(alloc, &cfg)?;
    for page in 0..2 {
        for word in 0..4 {
            let expected = match (page, word) {
                (0, 3) => 9,
                (1, 2) => 7,
                _ => 0,
            };
            let first = flat.value(page, word) == expected && flat.version(page, word) == 0;
            assert!(rt; first, "word {word} of page {page}");
        }
    }
    Ok(())
}

#[test]
fn takes_in_the_next_access_alone(rt: HostRuntime) -> Result<(), Fail> {
    let alloc = rt.alloc();
    let cfg = two_pages(alloc)?;
    let mut flat = Flat::new(alloc, &cfg)?;
    // an access, whether it is taken in, and the value and the version after it
    let rows = [
        (access(Kind::Load, 7, 7, 0), true, 7, 0),
        (access(Kind::Store, 7, 3, 1), true, 3, 1),
        (access(Kind::Load, 3, 3, 1), true, 3, 1),
        (access(Kind::Load, 3, 3, 2), false, 3, 1),
        (access(Kind::Store, 7, 5, 2), false, 3, 1),
        (access(Kind::Store, 3, 5, 1), false, 3, 1),
        (access(Kind::Add, 3, 8, 2), true, 8, 2),
        (Item::Switch(Switch { actor: 0, space: 1 }), true, 8, 2),
    ];
    for (item, taken, value, version) in &rows {
        assert!(rt; flat.apply(item) == *taken, "at {item:?}");
        let now = flat.value(1, 2) == *value && flat.version(1, 2) == *version;
        assert!(rt; now, "after {item:?}");
    }
    assert!(rt; flat.value(0, 3) == 9 && flat.version(0, 3) == 0);
    Ok(())
}
