//! Reports of two small runs, as they were worked out by hand.
ghost use Rattle.std.specs.Prelude.{◌≡◌, IfOk};
ghost use Rattle.plat_base.specs.Seen.{machine};
ghost use Rattle.plat_coarse_tests.specs.ReportTried.{smallest, smallest_items};

use plat_base::{Config, Instr, Item, Kind, OutOfMemory, PolicyKind};
use plat_io::quiet::QuietSink;
use plat_report::{Tally, report, summary};
use plat_samples::{
    Sizes, access, entry, filled, guest, halted, history, one_guest, sharing, small,
};
use std::alloc::Global;
use std::test::Fail;

const SMALLEST: [Instr; 5] = [
    Instr::Set { d: 1, n: 5 },
    Instr::Store {
        s: 1,
        k: 0,
        i: None,
    },
    Instr::Load {
        d: 2,
        k: 0,
        i: None,
    },
    Instr::Print(2),
    Instr::Halt,
];

// One guest stores, loads and prints.
fn smallest(alloc: Global) -> Result<Config, OutOfMemory>
    ensures { IfOk result (λ cfg. machine cfg ≡ smallest) }
{
    let sizes = Sizes {
        nodes: 1,
        frames: 1,
        pages: 1,
        budget: 10,
    };
    let guests = one_guest(alloc, guest(alloc, &SMALLEST)?)?;
    small(alloc, sizes, PolicyKind::Place, &[entry(0, 0)], &[], guests)
}

fn smallest_items() -> [Item; 3]
    ensures { result ≡ smallest_items }
{
    [
        Item::Change(filled()),
        Item::Access(access(0, Kind::Store, 0, 5, 1, 0)),
        Item::Access(access(0, Kind::Load, 5, 5, 1, 0)),
    ]
}

#[test]
fn reports_the_smallest_run(rt: HostRuntime) -> Result<(), Fail> {
    let alloc = rt.alloc();
    let cfg = smallest(alloc)?;
    let tally = Tally::new(alloc, &cfg)?;
    let mut sink = QuietSink::new(alloc, 512)?;
    let written = report(tally, &cfg, &smallest_items(), &[halted(5)], &mut sink);
    assert!(rt; written.is_ok());
    let expected = "platinum report 1\n\
        processor 0 halted 5\n\
        print 0 5\n\
        word 0 0 5\n\
        access 0 loads 1 stores 1 adds 0 local 2 remote 0\n\
        atc 0 hits 1 misses 1\n\
        changes fill 1 maplocal 0 mapremote 0 replicate 0 migrate 0 collapse 0 thaw 0 freezes 0\n\
        applied interrupt 0 activation 0\n\
        items 3\n";
    assert_eq!(rt; sink.bytes(), expected.as_bytes());
    Ok(())
}

#[test]
fn reports_a_shootdown(rt: HostRuntime) -> Result<(), Fail> {
    let alloc = rt.alloc();
    let cfg = sharing(alloc, PolicyKind::Replicate)?;
    let tally = Tally::new(alloc, &cfg)?;
    let mut sink = QuietSink::new(alloc, 512)?;
    let written = report(tally, &cfg, &history(), &[halted(5), halted(3)], &mut sink);
    assert!(rt; written.is_ok());
    let expected = "platinum report 1\n\
        processor 0 halted 5\n\
        processor 1 halted 3\n\
        print 1 7\n\
        word 0 0 8\n\
        access 0 loads 0 stores 2 adds 0 local 2 remote 0\n\
        atc 0 hits 0 misses 2\n\
        access 1 loads 1 stores 0 adds 0 local 1 remote 0\n\
        atc 1 hits 0 misses 1\n\
        changes fill 1 maplocal 0 mapremote 0 replicate 1 migrate 0 collapse 1 thaw 0 freezes 0\n\
        applied interrupt 2 activation 0\n\
        items 8\n";
    assert_eq!(rt; sink.bytes(), expected.as_bytes());
    Ok(())
}

#[test]
fn sums_up_a_shootdown(rt: HostRuntime) -> Result<(), Fail> {
    let alloc = rt.alloc();
    let cfg = sharing(alloc, PolicyKind::Replicate)?;
    let tally = Tally::new(alloc, &cfg)?;
    let mut sink = QuietSink::new(alloc, 256)?;
    let written = summary(
        tally,
        &cfg,
        &history(),
        &[halted(5), halted(3)],
        9,
        &mut sink,
    );
    assert!(rt; written.is_ok());
    let expected = "big 9\n\
        processor 0 halted 5\n\
        processor 1 halted 3\n\
        changes fill 1 maplocal 0 mapremote 0 replicate 1 migrate 0 collapse 1 thaw 0 freezes 0\n\
        applied interrupt 2 activation 0\n\
        items 8\n";
    assert_eq!(rt; sink.bytes(), expected.as_bytes());
    Ok(())
}
