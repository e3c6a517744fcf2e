//! Two guests that add to one word a hundred times each, on two threads.
use crossbeam_utils::atomic::AtomicCell;
use plat_base::{End, Ended};
use plat_samples::adding;
use plat_table::{FreeGate, Gate};
use plat_threads::{Ready, run_threads};
use std::test::Fail;

const HALTED: Ended = Ended {
    end: End::Halted,
    turns: 403,
};

#[test]
fn two_guests_halt(rt: HostRuntime) -> Result<(), Fail> {
    let ready = Ready::new(rt.alloc(), adding(rt.alloc())?, &FreeGate)?;
    let closed = run_threads(&rt, ready);
    assert_eq!(rt; closed.ends(), [HALTED, HALTED].as_slice());
    Ok(())
}

/// How often a processor looks for the other at a turn.
const LOOKS: u32 = 100_000_000;

/// Two processors meet at each of their turns: each says that it has come, and then waits for the other. If it waits in vain,
/// that is noted, and nobody waits any more.
#[derive(Drop)]
struct Meeting {
    first: AtomicCell<u64>,
    second: AtomicCell<u64>,
    missed: AtomicCell<bool>,
}

impl Gate for Meeting {
    fn pass(&self, actor: u32, turn: u32) {
        let (mine, other) = if actor == 0 {
            (&self.first, &self.second)
        } else {
            (&self.second, &self.first)
        };
        let turn = u64::from(turn);
        mine.store(turn);
        if self.missed.load() {
            return;
        }
        for _ in 0..LOOKS {
            if turn <= other.load() {
                return;
            }
        }
        self.missed.store(true);
    }
}

#[test]
fn turns_overlap(rt: HostRuntime) -> Result<(), Fail> {
    let gate = Meeting {
        first: AtomicCell::new(0),
        second: AtomicCell::new(0),
        missed: AtomicCell::new(false),
    };
    let ready = Ready::new(rt.alloc(), adding(rt.alloc())?, &gate)?;
    let closed = run_threads(&rt, ready);
    assert_eq!(rt; closed.ends(), [HALTED, HALTED].as_slice());
    assert!(rt; !gate.missed.load());
    assert_eq!(rt; (gate.first.load(), gate.second.load()), (403, 403));
    Ok(())
}
