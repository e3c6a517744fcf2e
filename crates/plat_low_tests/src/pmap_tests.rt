//! A processor's translations of two entries, whose virtual pages 1 and 9 use the same place of the cache.
ghost use Rattle.std.specs.Prelude.{◌≡◌, length, IfOk};

use plat_base::{Config, Frame, Grant, Kind, OutOfMemory, PolicyKind, Right, Translation};
use plat_pmap::*;
use plat_samples::{Sizes, entry, idle_nodes};
use std::alloc::Global;
use std::test::Fail;

fn machine(alloc: Global) -> Result<Config, OutOfMemory>
    ensures { IfOk result (λ cfg. length cfg.entries.items ≡ 2) }
{
    let sizes = Sizes {
        nodes: 1,
        frames: 2,
        pages: 2,
        budget: 100,
    };
    idle_nodes(
        alloc,
        sizes,
        PolicyKind::Place,
        &[entry(1, 0), entry(9, 1)],
        &[],
    )
}

/// The grant of a frame of module 0 for an entry.
fn grant(entry: u32, right: Right) -> Grant
    ensures { result ≡ record {
      entry = entry;
      frame = record { «module» = 0; number = entry };
      right = right;
    } }
{
    Grant {
        entry,
        frame: Frame {
            module: 0,
            number: entry,
        },
        right,
    }
}

/// The translation of an entry by its page's change `seq`.
fn translation(entry: u32, right: Right, seq: u32, restricted: bool) -> Translation {
    Translation {
        grant: grant(entry, right),
        seq,
        restricted,
    }
}

#[test]
fn one_entry_changes_at_a_time(rt: HostRuntime) -> Result<(), Fail> {
    let mut pmap = Pmap::new(rt.alloc(), &machine(rt.alloc())?)?;
    assert_eq!(rt; pmap.find(0), None);
    pmap.lower(0);
    pmap.restrict(0);
    pmap.drop_entry(0);
    assert_eq!(rt; pmap.find(0), None);
    pmap.install(grant(0, Right::Write), 3);
    pmap.install(grant(1, Right::Write), 4);
    pmap.lower(0);
    assert_eq!(rt; pmap.find(0), Some(translation(0, Right::Read, 3, false)));
    pmap.restrict(0);
    assert_eq!(rt; pmap.find(0), Some(translation(0, Right::Read, 3, true)));
    pmap.install(grant(0, Right::Read), 5);
    assert_eq!(rt; pmap.find(0), Some(translation(0, Right::Read, 5, false)));
    pmap.drop_entry(0);
    assert_eq!(rt; pmap.find(0), None);
    assert_eq!(rt; pmap.find(1), Some(translation(1, Right::Write, 4, false)));
    Ok(())
}

#[test]
fn loads_hit_and_a_write_misses_what_a_load_filled(rt: HostRuntime) -> Result<(), Fail> {
    let mut pmap = Pmap::new(rt.alloc(), &machine(rt.alloc())?)?;
    let mut atc = Atc::new();
    assert_eq!(rt;
        atc.find(&pmap, 0, 1, Kind::Load),
        Look {
            found: None,
            hit: false
        }
    );
    pmap.install(grant(0, Right::Write), 3);
    let found = Some(translation(0, Right::Write, 3, false));
    assert_eq!(rt;
        atc.find(&pmap, 0, 1, Kind::Load),
        Look { found, hit: false }
    );
    assert_eq!(rt;
        atc.find(&pmap, 0, 1, Kind::Load),
        Look { found, hit: true }
    );
    assert_eq!(rt;
        atc.find(&pmap, 0, 1, Kind::Store),
        Look { found, hit: false }
    );
    assert_eq!(rt; atc.find(&pmap, 0, 1, Kind::Add), Look { found, hit: true });
    atc.forget(1);
    assert_eq!(rt;
        atc.find(&pmap, 0, 1, Kind::Load),
        Look { found, hit: true }
    );
    atc.forget(0);
    pmap.drop_entry(0);
    assert_eq!(rt;
        atc.find(&pmap, 0, 1, Kind::Load),
        Look {
            found: None,
            hit: false
        }
    );
    Ok(())
}

#[test]
fn a_place_keeps_the_entry_of_the_last_miss(rt: HostRuntime) -> Result<(), Fail> {
    let mut pmap = Pmap::new(rt.alloc(), &machine(rt.alloc())?)?;
    pmap.install(grant(0, Right::Read), 3);
    pmap.install(grant(1, Right::Write), 4);
    let mut atc = Atc::new();
    let reads = Some(translation(0, Right::Read, 3, false));
    let writes = Some(translation(1, Right::Write, 4, false));
    assert_eq!(rt;
        atc.find(&pmap, 1, 9, Kind::Store),
        Look {
            found: writes,
            hit: false
        }
    );
    assert_eq!(rt;
        atc.find(&pmap, 0, 1, Kind::Store),
        Look {
            found: None,
            hit: false
        }
    );
    assert_eq!(rt;
        atc.find(&pmap, 1, 9, Kind::Load),
        Look {
            found: writes,
            hit: true
        }
    );
    assert_eq!(rt;
        atc.find(&pmap, 0, 1, Kind::Load),
        Look {
            found: reads,
            hit: false
        }
    );
    assert_eq!(rt;
        atc.find(&pmap, 1, 9, Kind::Load),
        Look {
            found: writes,
            hit: false
        }
    );
    atc.flush();
    assert_eq!(rt;
        atc.find(&pmap, 1, 9, Kind::Load),
        Look {
            found: writes,
            hit: false
        }
    );
    Ok(())
}
