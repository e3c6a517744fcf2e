//! Two guests that add to one word a hundred times each, by two riders that step in turns.
ghost use Rattle.std.specs.Prelude.{◌≡◌, ◌<◌, ◌∷◌, [], length};
ghost use Rattle.plat_events.specs.Privates.{actor_count};
ghost use Rattle.plat_table.specs.Closed.{IsRun};
ghost use Rattle.plat_table.specs.Riders.{IsOf, numbers_of};

use plat_base::{End, Ended};
use plat_samples::adding;
use plat_table::{Board, Closed, Gate, Rider};
use std::cell::Cell;
use std::process::Abort;
use std::test::Fail;

/// Notes how often it was called, the last turn of each of two processors, and whether the turns came in order.
#[derive(Drop)]
struct Noting {
    calls: Cell<u32>,
    first: Cell<u32>,
    second: Cell<u32>,
    in_order: Cell<bool>,
}

impl Noting {
    fn new() -> Noting {
        Noting {
            calls: Cell::new(0),
            first: Cell::new(0),
            second: Cell::new(0),
            in_order: Cell::new(true),
        }
    }

    /// Whether it was called for so many turns of each processor, in their order.
    fn has_passed(&self, turns: u32) -> bool {
        let each = self.first.get() == turns && self.second.get() == turns;
        each && self.calls.get() == turns.wrapping_mul(2) && self.in_order.get()
    }
}

impl Gate for Noting {
    fn pass(&self, actor: u32, turn: u32) {
        let last = if actor == 0 {
            &self.first
        } else {
            &self.second
        };
        if turn != last.get().wrapping_add(1) {
            self.in_order.set(false);
        }
        last.set(turn);
        self.calls.set(self.calls.get().wrapping_add(1));
    }
}

/// One event of the rider's first actor, if it has not ended.
fn step(rt: &impl Abort, board: &Board<'_, Noting>, gate: &Noting, rider: &mut Rider)
    requires of { IsOf rider.old board.now }
    requires some { 0 < length rider.old.crew }
    ensures of { IsOf rider.new board.now }
    ensures numbers { numbers_of rider.new.crew ≡ numbers_of rider.old.crew }
{
    if rider.live(0) {
        let before = gate.calls.get();
        rider.step(board, 0);
        assert!(rt; gate.calls.get() == before || gate.calls.get() == before.wrapping_add(1));
    }
}

/// Events of two riders in turns, one of whose actors each is given, until both have ended.
#[tactic(auto, using(crate::proofs::TableTriedLemmas::one_there))]
fn ride(
    rt: &impl Abort,
    board: &Board<'_, Noting>,
    gate: &Noting,
    rider: &mut Rider,
    other: &mut Rider,
)
    requires rider { IsOf rider.old board.now }
    requires other { IsOf other.old board.now }
    requires first { numbers_of rider.old.crew ≡ 0 ∷ [] }
    requires second { numbers_of other.old.crew ≡ 1 ∷ [] }
    ensures rider { IsOf rider.new board.now }
    ensures other { IsOf other.new board.now }
    ensures first { numbers_of rider.new.crew ≡ 0 ∷ [] }
    ensures second { numbers_of other.new.crew ≡ 1 ∷ [] }
{
    assert!(rt; rider.number(0) == 0 && other.number(0) == 1 && gate.calls.get() == 0);
    for _ in 0..10000u32 {
        step(rt, board, gate, rider);
        step(rt, board, gate, other);
    }
}

/// Closes a board, both of whose processors have ended.
fn close(rt: &impl Abort, board: Board<'_, Noting>, rider: Rider) -> Closed
    requires of { IsOf rider board }
    requires both { numbers_of rider.crew ≡ 0 ∷ 1 ∷ [] }
    requires all { actor_count rider.machine ≡ 2 }
    ensures machine { result.machine ≡ board.entry.machine }
    ensures run { IsRun result }
{
    assert!(rt; rider.len() == 2);
    let first = rider.live(0);
    assert!(rt; !first);
    let second = rider.live(1);
    assert!(rt; !second);
    board.close(rider)
}

/// Whether both processors halted behind all their turns, and the word has what they added.
fn has_added(closed: &Closed) -> bool
    requires run { IsRun closed.now }
    requires two { closed.now.machine.nodes ≡ 2 }
{
    let ended = Ended {
        end: End::Halted,
        turns: 403,
    };
    let items = closed.journals().of(0).len() + closed.journals().of(1).len();
    closed.cfg().nodes == 2
        && items == 202
        && closed.ends() == [ended, ended].as_slice()
        && closed.words().starts_with(&[806, 0, 0, 0])
}

#[tactic(auto, using(crate::proofs::TableTriedLemmas::one_there, crate::proofs::TableTriedLemmas::joined))]
#[test]
fn two_riders_step_in_turns(rt: HostRuntime) -> Result<(), Fail> {
    let gate = Noting::new();
    let (board, mut rider) = Board::new(rt.alloc(), adding(rt.alloc())?, &gate)?;
    assert!(rt; rider.len() == 2);
    let mut other = rider.split(&board);
    ride(&rt, &board, &gate, &mut rider, &mut other);
    rider.join(&board, other);
    let closed = close(&rt, board, rider);
    assert!(rt; gate.has_passed(403) && has_added(&closed));
    Ok(())
}
