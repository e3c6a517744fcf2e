//! Passes of the daemon, operation by operation. What they find and make stands in a run that this program did not make.
ghost use Rattle.std.specs.Prelude.{◌≡◌, IfOk, length};
ghost use Rattle.plat_base.specs.Seen.{machine};
ghost use Rattle.plat_events.specs.Places.{word_count};
ghost use Rattle.plat_daemon.specs.Fits.{Fits};
ghost use Rattle.plat_fine_tests.specs.DaemonTried.{six_entries, three_nodes};

use plat_base::{
    Action, Cause, Change, Config, Copies, Dir, Entries, Frame, Item, List, Op, OutOfMemory, Plan,
    PolicyKind, Removed, State,
};
use plat_daemon::*;
use plat_ports::{Made, RecordPort, WordPort};
use plat_samples::{entry, idle_guests, listed};
use std::alloc::Global;
use std::test::Fail;

fn entries(alloc: Global) -> Result<Entries, OutOfMemory>
    ensures { IfOk result (λ entries. entries.items ≡ six_entries) }
{
    let six = [
        entry(2, 2),
        entry(9, 2),
        entry(4, 0),
        entry(0, 1),
        entry(63, 0),
        entry(1, 2),
    ];
    Entries::new(alloc, listed(alloc, &six)?)
}

/// The active spaces stand at 2, 3 and 4, the interrupts from 5 on, the directories at 8, 9 and 10, the stamps from 11 on, and
/// the masks from 14 on: those of page 0 at 16 and 18.
fn three_nodes(alloc: Global) -> Result<Config, OutOfMemory>
    ensures { IfOk result (λ cfg. machine cfg ≡ three_nodes) }
{
    let entries = entries(alloc)?;
    let guests = idle_guests(alloc, 3)?;
    Ok(Config {
        nodes: 3,
        frames: 3,
        words: 8,
        pages: 3,
        policy: PolicyKind::Platinum { t1: 25, t2: 64 },
        budget: 73,
        schedule: Plan::Robin,
        distances: List::new(alloc),
        entries,
        inits: List::new(alloc),
        guests,
    })
}

/// A port that gives a chosen word, and keeps the operation that it made.
#[derive(Drop)]
struct ChosenPort {
    found: u64,
    made: Option<(usize, Op)>,
}

impl WordPort for ChosenPort {
    ghost use Rattle.std.specs.Prelude.{None};

    ghost words = { λ _. None };

    ghost serves = { λ _. None };

    fn apply(&mut self, at: usize, op: Op) -> u64 {
        self.made = Some((at, op));
        match op {
            Op::Store(_) => 0,
            _ => self.found,
        }
    }
}

/// Whether the daemon's next operation is this one, where it finds what it is to find, and leaves the daemon so.
fn steps(daemon: &mut Daemon, cfg: &Config, made: &Made, went: Went) -> bool
    requires { Fits (machine cfg.now) daemon.old }
    ensures { Fits (machine cfg.now) daemon.new }
{
    if daemon.is_over() {
        return false;
    }
    let mut port = ChosenPort {
        found: made.found,
        made: None,
    };
    daemon.step(cfg, &mut port) == went && port.made == Some((made.at, made.op))
}

/// Whether the daemon's next operations are these, and it goes on behind each.
fn makes(daemon: &mut Daemon, cfg: &Config, operations: &[Made]) -> bool
    requires { Fits (machine cfg.now) daemon.old }
    ensures { Fits (machine cfg.now) daemon.new }
{
    for made in operations {
        if !steps(daemon, cfg, made, Went::More) {
            return false;
        }
    }
    true
}

/// The daemon's next operation on the words of a port.
fn step_on(daemon: &mut Daemon, cfg: &Config, port: &mut RecordPort)
    requires fits { Fits (machine cfg.now) daemon.old }
    requires words { length port.old.words ≡ word_count (machine cfg.now) }
    ensures fits { Fits (machine cfg.now) daemon.new }
    ensures words { length port.new.words ≡ word_count (machine cfg.now) }
{
    if !daemon.is_over() {
        daemon.step(cfg, port);
    }
}

fn made(at: usize, op: Op, found: u64) -> Made {
    Made { at, op, found }
}

/// The directory of a page with its one copy on module 0.
fn single(state: State, frozen: bool) -> Dir {
    let copies = Copies::none().with(Frame {
        module: 0,
        number: 0,
    });
    Dir {
        state,
        frozen,
        copies,
    }
}

/// Whether the daemon looks at the live processors and at the time in turns, and no more, from its first operation on.
fn looks_on(alloc: Global) -> Result<bool, OutOfMemory> {
    let cfg = three_nodes(alloc)?;
    let mut daemon = Daemon::new(alloc, &cfg)?;
    let mut port = RecordPort::new(alloc, &cfg, 4)?;
    for _ in 0..4 {
        step_on(&mut daemon, &cfg, &mut port);
    }
    let live = made(1, Op::Load, 3);
    let time = made(0, Op::Load, 0);
    Ok(port.made() == [live, time, live, time].as_slice() && daemon.journal().is_empty())
}

#[test]
fn it_looks_on_while_no_pass_is_due(rt: HostRuntime) -> Result<(), Fail> {
    assert!(rt; looks_on(rt.alloc())?);
    Ok(())
}

#[test]
fn a_frozen_page_is_thawed(rt: HostRuntime) -> Result<(), Fail> {
    let cfg = three_nodes(rt.alloc())?;
    let mut daemon = Daemon::new(rt.alloc(), &cfg)?;
    let operations = [
        made(1, Op::Load, 2),
        made(0, Op::Load, 63),
        made(1, Op::Load, 2),
        made(0, Op::Load, 64),
        made(8, Op::Or(8), 263),
        made(11, Op::Load, 17_179_869_196),
        made(16, Op::Load, 4),
        made(16, Op::Exchange { old: 4, new: 1028 }, 4),
        made(18, Op::Load, 5),
        made(18, Op::Exchange { old: 5, new: 1285 }, 5),
        made(4, Op::Load, 0),
        made(2, Op::Load, 1),
        made(5, Op::Or(1), 0),
        made(18, Op::Load, 1285),
        made(2, Op::Load, 1),
        made(18, Op::Load, 1028),
        made(4, Op::Load, 0),
        made(11, Op::Store(21_474_836_492), 0),
        made(8, Op::Store(257), 0),
        made(9, Op::Or(8), 0),
    ];
    assert!(rt; makes(&mut daemon, &cfg, &operations));
    let thaw = Change {
        actor: 3,
        page: 0,
        seq: 4,
        time: 64,
        cause: Cause::Thaw,
        action: Action::Thaw,
        removed: Removed::All,
        before: single(State::Modified, true),
        after: single(State::Present1, false),
        granted: None,
    };
    assert_eq!(rt; daemon.finish().as_slice(), [Item::Change(thaw)].as_slice());
    Ok(())
}

#[test]
fn pages_that_are_not_frozen_stay(rt: HostRuntime) -> Result<(), Fail> {
    let cfg = three_nodes(rt.alloc())?;
    let mut daemon = Daemon::new(rt.alloc(), &cfg)?;
    let operations = [
        made(1, Op::Load, 2),
        made(0, Op::Load, 64),
        made(8, Op::Or(8), 257),
        made(8, Op::Store(257), 0),
        made(9, Op::Or(8), 0),
        made(9, Op::Store(0), 0),
        made(10, Op::Or(8), 65_803),
        made(10, Op::Or(8), 65_795),
        made(10, Op::Store(65_795), 0),
        made(1, Op::Load, 1),
        made(0, Op::Load, 71),
    ];
    assert!(rt; makes(&mut daemon, &cfg, &operations));
    assert!(rt; steps(&mut daemon, &cfg, &made(1, Op::Load, 0), Went::Ended));
    assert!(rt; daemon.is_over() && daemon.journal().is_empty());
    Ok(())
}
