//! Runs of a machine on threads.
ghost use Rattle.std.specs.Prelude.{◌≡◌, ◌<◌, ◌≤◌, length, IfOk};
ghost use Rattle.std.specs.Thread.{IsSync};
ghost use Rattle.plat_base.specs.Seen.{machine};
ghost use Rattle.plat_table.specs.Closed.{IsRun};
ghost use Rattle.plat_table.specs.Riders.{IsOf, numbers_of};
ghost use Rattle.plat_threads.specs.Running.{HasRun};

use plat_base::{Config, OutOfMemory};
use plat_table::{Board, Closed, Gate, Rider};
use std::alloc::Global;
use std::marker::Model;
use std::sync::Wait;
use std::thread::{Threads, join_mut, yield_now};

/// A machine before the first operation of its run, with all memory that the run ever uses.
pub struct Ready<'g, G: Gate> {
    board: Board<'g, G>,
    rider: Rider,
}

impl<'g, G: Gate> Model for Ready<'g, G> {
    ghost use Rattle.plat_base.specs.Machine.{Machine};
    ghost use Rattle.plat_threads.specs.Running.{HasAll};

    ghost Value = { Machine };

    ghost view = { λ it. it.board.machine };

    ghost invariant = { λ it. HasAll it.rider it.board };
}

impl<'g, G: Gate> Ready<'g, G> {
    /// Takes all memory that the run ever uses. The gate is called at the first operation of each turn of a processor, by the
    /// thread of that processor.
    pub fn new(alloc: Global, cfg: Config, gate: &'g G) -> Result<Ready<'g, G>, OutOfMemory>
        ensures machine { IfOk result (λ it. it ≡ machine cfg) }
    {
        let (board, rider) = Board::new(alloc, cfg, gate)?;
        Ok(Ready { board, rider })
    }
}

/// How many operations an actor makes before its thread lets others run.
const OPERATIONS: u32 = 64;

/// Makes some operations of the only actor.
#[tactic(auto, using(crate::proofs::RunLemmas::as_many))]
fn run_some<G: Gate>(board: &Board<'_, G>, rider: &mut Rider)
    requires of { IsOf rider.old board.now }
    requires one { length rider.old.crew ≡ 1 }
    ensures of { IsOf rider.new board.now }
    ensures same { numbers_of rider.new.crew ≡ numbers_of rider.old.crew }
{
    for _ in 0..OPERATIONS {
        if rider.live(0) {
            rider.step(board, 0);
        }
    }
}

/// Makes the operations of the only actor, until it has ended.
#[tactic(auto, using(crate::proofs::RunLemmas::as_many, crate::proofs::RunLemmas::run_alone))]
fn run_one<R: Wait, G: Gate>(rt: &R, board: &Board<'_, G>, rider: &mut Rider)
    requires of { IsOf rider.old board.now }
    requires one { length rider.old.crew ≡ 1 }
    ensures run { HasRun rider.old rider.new board.now }
{
    for _ in rt.forever() {
        if !rider.live(0) {
            break;
        }
        run_some(board, rider);
        yield_now();
    }
}

/// Runs the actors of two riders, those of the first on a thread of their own.
#[cycle(riders)]
fn run_both<R: Threads + Wait + Sync, G: Gate + Sync>(
    rt: &R,
    board: &Board<'_, G>,
    low: &mut Rider,
    high: &mut Rider,
)
    requires low { IsOf low.old board.now × (0 < length low.old.crew) }
    requires high { IsOf high.old board.now × (0 < length high.old.crew) }
    ensures low { HasRun low.old low.new board.now }
    ensures high { HasRun high.old high.new board.now }
{
    join_mut(
        rt,
        &mut ||
            requires { IsSync R.row × IsSync G.row × IsOf low.now board.now × (0 < length low.now.crew) }
            ensures { HasRun low.entry.now low.exit.now board.entry.now }
        { run_all(rt, board, low) },
        &mut ||
            requires { IsSync R.row × IsSync G.row × IsOf high.now board.now × (0 < length high.now.crew) }
            ensures { HasRun high.entry.now high.exit.now board.entry.now }
        { run_all(rt, board, high) },
    );
}

/// Runs the actors of a rider, each on a thread of its own, until all have ended.
#[cycle(riders)]
fn run_all<R: Threads + Wait + Sync, G: Gate + Sync>(
    rt: &R,
    board: &Board<'_, G>,
    rider: &mut Rider,
)
    requires of { IsOf rider.old board.now }
    requires some { 0 < length rider.old.crew }
    ensures run { HasRun rider.old rider.new board.now }
{
    if rider.len() == 1 {
        run_one(rt, board, rider);
        return;
    }
    let mut other = rider.split(board);
    run_both(rt, board, rider, &mut other);
    rider.join(board, other);
}

/// Runs each processor and the daemon on a thread of its own, until all have ended. It takes no memory. Where no thread can be
/// made, actors run one after another on the thread that there is, and one that waits for another may wait forever.
#[tactic(auto, using(crate::proofs::RunLemmas::all_over))]
pub fn run_threads<R: Threads + Wait + Sync, G: Gate + Sync>(rt: &R, ready: Ready<'_, G>) -> Closed
    ensures machine { result.machine ≡ ready.entry }
    ensures run { IsRun result }
{
    let Ready { board, mut rider } = ready;
    run_all(rt, &board, &mut rider);
    board.close(rider)
}
