//! Runs by one rider.
ghost use Rattle.std.specs.Prelude.{◌≡◌, true, All};
ghost use Rattle.plat_events.specs.Privates.{is_over};
ghost use Rattle.plat_table.specs.Riders.{IsOf, numbers_of};

use plat_base::{Config, OutOfMemory};
use plat_table::{Board, Closed, FreeGate, Rider};
use std::alloc::Global;
use std::sync::Wait;

/// What a run leaves, and whether its operations were those that are listed, no more and no fewer.
#[derive(Drop)]
pub struct Ran {
    pub closed: Closed,
    pub as_listed: bool,
}

/// Makes the next operation of an actor, if it has not ended.
fn step_one(board: &Board<'_, FreeGate>, rider: &mut Rider, at: usize) -> bool
    requires of { IsOf rider.old board.now }
    ensures of { IsOf rider.new board.now }
    ensures numbers { numbers_of rider.new.crew ≡ numbers_of rider.old.crew }
{
    if at < rider.len() && rider.live(at) {
        rider.step(board, at);
        true
    } else {
        false
    }
}

/// Makes the operations of the listed actors, and tells whether none of them had ended before.
fn step_listed(board: &Board<'_, FreeGate>, rider: &mut Rider, actors: &str) -> bool
    requires of { IsOf rider.old board.now }
    ensures of { IsOf rider.new board.now }
    ensures numbers { numbers_of rider.new.crew ≡ numbers_of rider.old.crew }
{
    let mut all = true;
    for digit in actors.bytes() {
        all &= step_one(board, rider, usize::from(digit.wrapping_sub(b'0')));
    }
    all
}

/// Whether all actors have ended.
#[tactic(auto, using(crate::proofs::RunLemmas::none_below, crate::proofs::RunLemmas::one_more, crate::proofs::RunLemmas::all_ended))]
fn are_over(rider: &Rider) -> bool
    ensures { result ≡ true → All (λ h. is_over h.1.place ≡ true) rider.now.crew }
{
    for at in 0..rider.len() {
        if rider.live(at) {
            return false;
        }
    }
    true
}

/// One operation of each actor that has not ended.
fn step_all(board: &Board<'_, FreeGate>, rider: &mut Rider)
    requires of { IsOf rider.old board.now }
    ensures of { IsOf rider.new board.now }
    ensures numbers { numbers_of rider.new.crew ≡ numbers_of rider.old.crew }
{
    for at in 0..rider.len() {
        step_one(board, rider, at);
    }
}

/// Makes further operations, until every actor has ended.
fn finish<R: Wait>(rt: &R, board: &Board<'_, FreeGate>, rider: &mut Rider)
    requires of { IsOf rider.old board.now }
    ensures of { IsOf rider.new board.now }
    ensures numbers { numbers_of rider.new.crew ≡ numbers_of rider.old.crew }
    ensures over { All (λ h. is_over h.1.place ≡ true) rider.new.crew }
{
    for _ in rt.forever() {
        if are_over(rider) {
            break;
        }
        step_all(board, rider);
    }
}

/// Makes a machine's run: the listed operations, and then, where some actor has not ended, further ones in turn.
pub fn run<R: Wait>(rt: &R, alloc: Global, cfg: Config, actors: &str) -> Result<Ran, OutOfMemory> {
    let (board, mut rider) = Board::new(alloc, cfg, &FreeGate)?;
    let listed = step_listed(&board, &mut rider, actors);
    let as_listed = listed && are_over(&rider);
    finish(rt, &board, &mut rider);
    Ok(Ran {
        closed: board.close(rider),
        as_listed,
    })
}
