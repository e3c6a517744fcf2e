//! The port by which an actor of a seat makes its operations on the table.
ghost use Rattle.std.specs.Prelude.{◌≡◌, ℕ, ◌<◌, IfSome, IsSome, slice_get};
ghost use Rattle.plat_events.specs.Operations.{told};
ghost use Rattle.plat_ports.specs.Ports.{IsItsOperation};
ghost use Rattle.plat_table.specs.Ports.{IsAtItsTable, IsStep, StaysWithinAt};
ghost use Rattle.plat_table.specs.Rule.{moved, served};

use crate::rules::{Makes, Steps, Token, Turn};
use plat_base::Op;
use plat_ports::WordPort;
use std::marker::PhantomData;

/// The table, the seat, and the place of the actor that it serves.
#[derive(Drop)]
pub(crate) struct TablePort<'a, J: Turn> {
    pub(crate) table: &'a Steps,
    pub(crate) seat: &'a mut Token,
    pub(crate) turn: PhantomData<J>,
    ghost of: { IsAtItsTable table.now.table_id table.now.key seat.now.table_id seat.now.me.0 },
    ghost there: { IsSome (slice_get seat.now.me.0.crew J.at) },
    ghost within: { StaysWithinAt J.at seat.now.me.0 },
}

/// One operation, which is one step of the table.
fn make<J: Turn>(table: &Steps, seat: &mut Token, at: usize, op: Op) -> u64
    requires of { IsAtItsTable table.now.table_id table.now.key seat.old.table_id seat.old.me.0 }
    requires within { at < table.now.table_id.words }
    requires there { IsSome (slice_get seat.old.me.0.crew J.at) }
    requires its_own { IfSome (served J.at seat.old.me.0) (λ t. IsItsOperation t at op) }
    ensures seat { (seat.new.table_id ≡ seat.old.table_id) × (seat.new.id ≡ seat.old.id) }
    ensures event { (n : ℕ) × (result ≡ told op n)
        × (seat.new.me ≡ (moved J.at seat.old.me.0 n, seat.old.me.1)) }
{
    match op {
        Op::Load => table.load::<Makes<J>>(seat, at),
        Op::Store(value) => {
            table.store::<Makes<J>>(seat, at, value);
            0
        }
        Op::Swap(value) => table.swap::<Makes<J>>(seat, at, value),
        Op::Add(k) => table.fetch_add::<Makes<J>>(seat, at, k),
        Op::Sub(k) => table.fetch_sub::<Makes<J>>(seat, at, k),
        Op::And(k) => table.fetch_and::<Makes<J>>(seat, at, k),
        Op::Or(k) => table.fetch_or::<Makes<J>>(seat, at, k),
        Op::Exchange { old, new } => table.compare_exchange::<Makes<J>>(seat, at, old, new),
    }
}

impl<'a, J: Turn> WordPort for TablePort<'a, J> {
    ghost use Rattle.std.specs.Prelude.{None};

    ghost words = { λ _. None };

    ghost serves = { λ p. served J.at p.seat.now.me.0 };

    ghost stays = { λ p q. (q.seat.ghost_name ≡ p.seat.ghost_name)
        × (q.seat.now.table_id ≡ p.seat.now.table_id)
        × (q.seat.now.id ≡ p.seat.now.id) × IsStep J.at p.seat.now.me q.seat.now.me };

    fn apply(&mut self, at: usize, op: Op) -> u64 {
        make::<J>(self.table, self.seat, at, op)
    }
}
