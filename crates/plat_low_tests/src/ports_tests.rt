//! Ports, once each, on a machine of one node and one page whose guest has no instruction.
ghost use Rattle.std.specs.Prelude.{◌≡◌, ◌<◌, None, IfSome, length, slice_index};
ghost use Rattle.plat_ports.specs.Ports.{words_after};

use plat_base::{Config, GuestText, List, Op, OutOfMemory, PolicyKind};
use plat_ports::*;
use plat_samples::{Sizes, one_guest, small};
use std::alloc::Global;
use std::test::Fail;

/// The machine. It has eleven words: two, an active space, interrupts, a directory, a stamp, a pool, and four of a frame.
fn one_node(alloc: Global) -> Result<Config, OutOfMemory> {
    let sizes = Sizes {
        nodes: 1,
        frames: 1,
        pages: 1,
        budget: 64,
    };
    let text = GuestText {
        space: 2,
        code: List::new(alloc),
        labels: List::new(alloc),
    };
    let guests = one_guest(alloc, text)?;
    small(alloc, sizes, PolicyKind::Place, &[], &[], guests)
}

#[test]
fn each_operation_changes_one_word(rt: HostRuntime) -> Result<(), Fail> {
    let cfg = one_node(rt.alloc())?;
    let mut port = VecPort::new(rt.alloc(), &cfg)?;
    assert!(rt; port.words() == [0, 1, 3, 0, 0, 0, 1, 0, 0, 0, 0].as_slice());
    let found = [
        port.apply(0, Op::Sub(1)),
        port.apply(0, Op::Add(3)),
        port.apply(2, Op::Store(9)),
        port.apply(3, Op::Or(6)),
        port.apply(3, Op::And(5)),
        port.apply(4, Op::Swap(7)),
        port.apply(4, Op::Exchange { old: 7, new: 8 }),
        port.apply(4, Op::Exchange { old: 7, new: 9 }),
        port.apply(1, Op::Load),
    ];
    assert!(rt; found == [0, u64::MAX, 0, 0, 6, 0, 7, 8, 1]);
    assert!(rt; port.words() == [2, 1, 9, 4, 8, 0, 1, 0, 0, 0, 0].as_slice());
    Ok(())
}

/// One operation through a bound.
fn load<P: WordPort>(port: &mut P, at: usize) -> u64
    requires within { IfSome (P.words port.old) (λ ws. at < length ws) }
    requires alone { P.serves port.old ≡ None }
    ensures found { IfSome (P.words port.old) (λ ws. result ≡ slice_index ws at) }
    ensures words { P.words port.new ≡ words_after at Op.Load (P.words port.old) }
{
    port.apply(at, Op::Load)
}

#[test]
fn operations_are_kept(rt: HostRuntime) -> Result<(), Fail> {
    let cfg = one_node(rt.alloc())?;
    let mut port = RecordPort::new(rt.alloc(), &cfg, 1)?;
    let found = (load(&mut port, 2), load(&mut port, 1));
    let first = Made {
        at: 2,
        op: Op::Load,
        found: 3,
    };
    let kept = port.made() == [first].as_slice() && port.words().len() == 11;
    assert!(rt; found == (3, 1) && kept);
    Ok(())
}
