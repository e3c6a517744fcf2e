//! Three guests, against the operations of their runs, which were worked out by hand: one without an access, one whose store
//! finds its page empty, and one that stores into a page and loads from another.
ghost use Rattle.std.specs.Prelude.{◌≡◌, false, IfOk, IsTrue, length};
ghost use Rattle.plat_base.specs.Canon.{is_short};
ghost use Rattle.plat_base.specs.Machine.{is_machine, program_seen};
ghost use Rattle.plat_base.specs.Seen.{machine};
ghost use Rattle.plat_events.specs.Places.{word_count};
ghost use Rattle.plat_events.specs.Privates.{is_over};
ghost use Rattle.plat_proc.specs.Fits.{Fits};
ghost use Rattle.plat_fine_tests.specs.ProcTried.{buffering_guest, store_buffering, tried};

use plat_base::{
    Access, Action, Cause, Change, Config, Copies, Dir, End, Ended, Frame, Grant, GuestText, Instr,
    Item, Kind, Op, OutOfMemory, PolicyKind, Removed, Right, State, Switch,
};
use plat_ports::{Made, RecordPort};
use plat_proc::{Proc, Stepped};
use plat_samples::{Sizes, entry, guest, one_guest, small, two_guests};
use std::alloc::Global;
use std::test::Fail;

/// The guest `switch 0`, `print r0`, `halt`.
const SWITCHING: [Instr; 3] = [Instr::Switch(0), Instr::Print(0), Instr::Halt];

/// The guest `set r1 5`, `store r1 0`, `load r2 0`, `print r2`, `halt`.
const STORING: [Instr; 5] = [
    Instr::Set { d: 1, n: 5 },
    Instr::Store {
        s: 1,
        k: 0,
        i: None,
    },
    Instr::Load {
        d: 2,
        k: 0,
        i: None,
    },
    Instr::Print(2),
    Instr::Halt,
];

/// A machine of one node and one page, which virtual page 0 of space 0 leads to, with that guest. Its words are the time, the
/// live processors, the active space, the interrupts, the directory, the stamp, the mask, the pool, and four of the frame.
fn one_node(alloc: Global, code: &[Instr]) -> Result<Config, OutOfMemory>
    requires limits { IsTrue (is_machine (tried code.now)) }
    requires short { IsTrue (is_short (tried code.now)) }
{
    let sizes = Sizes {
        nodes: 1,
        frames: 1,
        pages: 1,
        budget: 10,
    };
    let guests = one_guest(alloc, guest(alloc, code)?)?;
    small(alloc, sizes, PolicyKind::Place, &[entry(0, 0)], &[], guests)
}

fn made(at: usize, op: Op, found: u64) -> Made {
    Made { at, op, found }
}

/// What a processor leaves that ran alone and halted: its operations, its turns and its items, and the first words.
#[derive(Clone, Copy, Debug)]
struct Left<'a> {
    operations: &'a [Made],
    turns: u32,
    items: &'a [Item],
    words: &'a [u64],
}

/// Whether the processor halts with its operation of this number, and not before.
fn halts_with(proc: &mut Proc, cfg: &Config, port: &mut RecordPort, operations: usize) -> bool
    requires live { is_over proc.old.state.place ≡ false }
    requires fits { Fits (machine cfg.now) proc.old }
    requires words { length port.old.words ≡ word_count (machine cfg.now) }
{
    for _ in 1..operations {
        if proc.step(cfg, port) != Stepped::More {
            return false;
        }
    }
    proc.step(cfg, port) == Stepped::Ended(End::Halted)
}

/// Whether a processor has ended so, with these items.
fn has_left(proc: Proc, left: Left<'_>) -> bool {
    let ended = Ended {
        end: End::Halted,
        turns: left.turns,
    };
    proc.is_over()
        && proc.ended() == ended
        && proc.turns() == left.turns
        && proc.journal() == left.items
        && proc.finish().as_slice() == left.items
}

/// Whether processor 0 leaves this, where it runs alone.
fn leaves(alloc: Global, cfg: &Config, left: Left<'_>) -> Result<bool, OutOfMemory> {
    let mut port = RecordPort::new(alloc, cfg, left.operations.len())?;
    let mut proc = Proc::new(alloc, cfg, 0)?;
    let fresh = proc.at_turn();
    let halts = halts_with(&mut proc, cfg, &mut port, left.operations.len());
    Ok(
        fresh
            && halts
            && port.made() == left.operations
            && port.words().strip_prefix(left.words).is_some()
            && has_left(proc, left),
    )
}

#[test]
fn a_guest_switches_prints_and_halts(rt: HostRuntime) -> Result<(), Fail> {
    let cfg = one_node(rt.alloc(), &SWITCHING)?;
    let operations = [
        made(3, Op::Swap(0), 0),
        made(0, Op::Add(1), 0),
        made(2, Op::Swap(1), 1),
        made(6, Op::Load, 0),
        made(3, Op::Swap(0), 0),
        made(0, Op::Add(1), 1),
        made(3, Op::Swap(0), 0),
        made(0, Op::Add(1), 2),
        made(2, Op::Swap(0), 1),
        made(1, Op::Sub(1), 1),
    ];
    let items = [Item::Switch(Switch { actor: 0, space: 0 })];
    let words = [3, 0, 0, 0, 0, 0, 0, 1, 0, 0, 0, 0];
    let left = Left {
        operations: &operations,
        turns: 3,
        items: &items,
        words: &words,
    };
    assert!(rt; leaves(rt.alloc(), &cfg, left)?);
    Ok(())
}

const FRAME: Frame = Frame {
    module: 0,
    number: 0,
};

/// The change that fills the page for a store.
fn filled() -> Change {
    let before = Dir {
        state: State::Empty,
        frozen: false,
        copies: Copies::none(),
    };
    let after = Dir {
        state: State::Modified,
        frozen: false,
        copies: Copies::none().with(FRAME),
    };
    let grant = Grant {
        entry: 0,
        frame: FRAME,
        right: Right::Write,
    };
    Change {
        actor: 0,
        page: 0,
        seq: 0,
        time: 2,
        cause: Cause::Write,
        action: Action::Fill,
        removed: Removed::Nothing,
        before,
        after,
        granted: Some(grant),
    }
}

/// An access of word 0 that leaves 5 there.
fn access(kind: Kind, old: u32) -> Access {
    Access {
        actor: 0,
        kind,
        space: 0,
        addr: 0,
        page: 0,
        word: 0,
        old,
        new: 5,
        version: 1,
        frame: FRAME,
        grant: 0,
    }
}

/// The word of the stored 5 in its first version.
const STORED: u64 = 4294967301;

#[test]
fn a_store_fills_its_page_and_a_load_finds_it(rt: HostRuntime) -> Result<(), Fail> {
    let cfg = one_node(rt.alloc(), &STORING)?;
    let taken = Op::Exchange { old: 1, new: 0 };
    let written = Op::Exchange {
        old: 0,
        new: STORED,
    };
    let operations = [
        made(3, Op::Swap(0), 0),
        made(0, Op::Add(1), 0),
        made(3, Op::Swap(0), 0),
        made(0, Op::Add(1), 1),
        made(4, Op::Or(8), 0),
        made(5, Op::Load, 0),
        made(7, Op::Load, 1),
        made(7, taken, 1),
        made(8, Op::Store(0), 0),
        made(9, Op::Store(0), 0),
        made(10, Op::Store(0), 0),
        made(11, Op::Store(0), 0),
        made(5, Op::Store(4294967296), 0),
        made(6, Op::Or(1), 0),
        made(4, Op::Store(259), 0),
        made(8, Op::Load, 0),
        made(8, written, 0),
        made(3, Op::Swap(0), 0),
        made(0, Op::Add(1), 2),
        made(8, Op::Load, STORED),
        made(3, Op::Swap(0), 0),
        made(0, Op::Add(1), 3),
        made(3, Op::Swap(0), 0),
        made(0, Op::Add(1), 4),
        made(2, Op::Swap(0), 1),
        made(1, Op::Sub(1), 1),
    ];
    let items = [
        Item::Change(filled()),
        Item::Access(access(Kind::Store, 0)),
        Item::Access(access(Kind::Load, 5)),
    ];
    let words = [5, 0, 0, 0, 259, 4294967296, 1, 0, STORED, 0, 0, 0];
    let left = Left {
        operations: &operations,
        turns: 5,
        items: &items,
        words: &words,
    };
    assert!(rt; leaves(rt.alloc(), &cfg, left)?);
    Ok(())
}

/// The guest `set r1 1`, `store r1 own`, `load r2 other`, `print r2`, `halt`.
fn buffering(alloc: Global, own: u32, other: u32) -> Result<GuestText, OutOfMemory>
    ensures { IfOk result (λ text. program_seen text ≡ buffering_guest own other) }
{
    let store = Instr::Store {
        s: 1,
        k: own,
        i: None,
    };
    let load = Instr::Load {
        d: 2,
        k: other,
        i: None,
    };
    let set = Instr::Set { d: 1, n: 1 };
    guest(alloc, &[set, store, load, Instr::Print(2), Instr::Halt])
}

/// A machine of two nodes and two pages, whose guests each store into a page of their own and load from the other's. Its words
/// are the time, the live processors, and two each of active spaces, interrupts, directories, stamps, masks and pools; and then
/// four of each frame.
fn store_buffering(alloc: Global) -> Result<Config, OutOfMemory>
    ensures { IfOk result (λ cfg. machine cfg ≡ store_buffering) }
{
    let sizes = Sizes {
        nodes: 2,
        frames: 4,
        pages: 2,
        budget: 100,
    };
    let entries = [entry(0, 0), entry(1, 1)];
    let first = buffering(alloc, 0, 4)?;
    let second = buffering(alloc, 4, 0)?;
    let guests = two_guests(alloc, first, second)?;
    small(alloc, sizes, PolicyKind::Replicate, &entries, &[], guests)
}

/// The word of the stored 1 in its first version.
const ONE: u64 = 4294967297;

/// The operations of processor 0 where it runs alone.
fn buffered() -> [Made; 37] {
    [
        made(4, Op::Swap(0), 0),
        made(0, Op::Add(1), 0),
        made(4, Op::Swap(0), 0),
        made(0, Op::Add(1), 1),
        made(6, Op::Or(8), 0),
        made(8, Op::Load, 0),
        made(12, Op::Load, 15),
        made(12, Op::Exchange { old: 15, new: 14 }, 15),
        made(14, Op::Store(0), 0),
        made(15, Op::Store(0), 0),
        made(16, Op::Store(0), 0),
        made(17, Op::Store(0), 0),
        made(8, Op::Store(4294967296), 0),
        made(10, Op::Or(1), 0),
        made(6, Op::Store(259), 0),
        made(14, Op::Load, 0),
        made(14, Op::Exchange { old: 0, new: ONE }, 0),
        made(4, Op::Swap(0), 0),
        made(0, Op::Add(1), 2),
        made(7, Op::Or(8), 0),
        made(9, Op::Load, 0),
        made(12, Op::Load, 14),
        made(12, Op::Exchange { old: 14, new: 12 }, 14),
        made(18, Op::Store(0), 0),
        made(19, Op::Store(0), 0),
        made(20, Op::Store(0), 0),
        made(21, Op::Store(0), 0),
        made(9, Op::Store(4294967296), 0),
        made(11, Op::Or(1), 0),
        made(7, Op::Store(65793), 0),
        made(18, Op::Load, 0),
        made(4, Op::Swap(0), 0),
        made(0, Op::Add(1), 3),
        made(4, Op::Swap(0), 0),
        made(0, Op::Add(1), 4),
        made(2, Op::Swap(0), 1),
        made(1, Op::Sub(1), 2),
    ]
}

/// The second frame of module 0.
const SECOND: Frame = Frame {
    module: 0,
    number: 1,
};

/// The change that fills page 1 for a load.
fn read() -> Change {
    let after = Dir {
        state: State::Present1,
        frozen: false,
        copies: Copies::none().with(SECOND),
    };
    let grant = Grant {
        entry: 1,
        frame: SECOND,
        right: Right::Read,
    };
    Change {
        page: 1,
        time: 3,
        cause: Cause::Read,
        after,
        granted: Some(grant),
        ..filled()
    }
}

/// The load of word 0 of page 1, which nothing was stored into.
fn loaded() -> Access {
    Access {
        addr: 4,
        page: 1,
        new: 0,
        version: 0,
        frame: SECOND,
        ..access(Kind::Load, 0)
    }
}

#[test]
fn a_store_and_a_load_fill_a_page_each(rt: HostRuntime) -> Result<(), Fail> {
    let cfg = store_buffering(rt.alloc())?;
    let stored = Access {
        new: 1,
        ..access(Kind::Store, 0)
    };
    let items = [
        Item::Change(filled()),
        Item::Access(stored),
        Item::Change(read()),
        Item::Access(loaded()),
    ];
    let operations = buffered();
    let words = [
        5, 1, 0, 1, 0, 0, 259, 65793, 4294967296, 4294967296, 1, 1, 12, 15, ONE, 0, 0, 0, 0,
    ];
    let left = Left {
        operations: &operations,
        turns: 5,
        items: &items,
        words: &words,
    };
    assert!(rt; leaves(rt.alloc(), &cfg, left)?);
    Ok(())
}
