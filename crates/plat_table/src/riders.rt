//! Riders: a seat of the table, and the actors whose private states it knows.
ghost use Rattle.std.specs.Prelude.{◌≡◌, ◌+◌, ◌<◌, ◌≤◌, ◌++◌, false, true, not, length, take, drop, Some, slice_get};
ghost use Rattle.arrayvec.specs.ArrayVec.{array_vec_len};
ghost use Rattle.plat_base.specs.Seen.{machine};
ghost use Rattle.plat_base.specs.declared.limits.TheConstants.{ACTORS};
ghost use Rattle.plat_daemon.specs.DaemonSeen.{went_to};
ghost use Rattle.plat_table.specs.Actors.{Fits, has_ended, held};
ghost use Rattle.plat_table.specs.Ports.{IsAtItsTable};
ghost use Rattle.plat_table.specs.Riders.{AreBehind, HasMoved, HasStepped, IsOf, is_live_at, numbers_of};
ghost use Rattle.plat_table.specs.Rule.{kept_of};

use crate::actors::Actor;
use crate::boards::Board;
use crate::gates::Gate;
use crate::ports::TablePort;
use crate::rules::{Halves, Steps, Token, Turn};
use arrayvec::ArrayVec;
use plat_base::{ACTORS, Config};
use plat_daemon::Went;
use std::marker::{Brand, Model, PhantomData};

/// Up to eight processors and the daemon.
pub(crate) type Actors = ArrayVec<Actor, SEATS>;

/// The most actors that a rider can seat.
const SEATS: usize = ACTORS as usize;

/// Some actors of a machine, in rising number, and what lets them make operations on its board.
#[derive(Drop)]
pub struct Rider {
    pub(crate) seat: Token,
    pub(crate) actors: Actors,
}

impl Model for Rider {
    ghost use Rattle.plat_table.specs.Riders.{RiderSeen, Rides};

    ghost Value = { RiderSeen };

    ghost view = { λ it. record {
      table_id = it.seat.table_id;
      machine = it.seat.me.0.machine;
      crew = it.seat.me.0.crew;
    } };

    ghost invariant = { λ it. Rides it.seat.me.0.machine it.seat.me it.actors.items };
}

/// The next operation of the actor at a place of the seat.
fn make_event<J: Turn>(
    table: &Steps,
    seat: &mut Token,
    cfg: &Config,
    at: usize,
    actor: &mut Actor,
) -> Went
    requires turn { at ≡ J.at }
    requires of { IsAtItsTable table.now.table_id table.now.key seat.old.table_id seat.old.me.0 }
    requires machine { machine cfg.now ≡ seat.old.me.0.machine }
    requires there { slice_get seat.old.me.0.crew at ≡ Some (held (machine cfg.now) actor.old) }
    requires fits { Fits (machine cfg.now) actor.old }
    requires live { has_ended actor.old ≡ false }
    ensures seat { (seat.new.table_id ≡ seat.old.table_id) × (seat.new.id ≡ seat.old.id) }
    ensures event { HasMoved at (machine cfg.now) seat.old.me seat.new.me actor.old actor.new }
    ensures fits { Fits (machine cfg.now) actor.new }
    ensures went { result ≡ went_to (not (has_ended actor.new)) }
{
    let mut port = TablePort::<J> {
        table,
        seat,
        turn: PhantomData,
    };
    actor.step(cfg, &mut port)
}

impl Rider {
    /// The number of its actors.
    pub fn len(&self) -> usize
        ensures { result ≡ length self.now.crew }
    {
        self.actors.len()
    }

    /// The number of the actor at a place.
    pub fn number(&self, at: usize) -> u32
        requires { at < length self.now.crew }
        ensures { Some result ≡ slice_get (numbers_of self.now.crew) at }
    {
        self.actors[at].number
    }

    /// Whether the actor at a place has not ended.
    pub fn live(&self, at: usize) -> bool
        requires { at < length self.now.crew }
        ensures { result ≡ is_live_at self.now.crew at }
    {
        self.actors[at].live()
    }

    /// Keeps the lowest actors, half of them rounded up, and gives the others away. It takes no memory.
    pub fn split<G: Gate>(&mut self, board: &Board<'_, G>) -> Rider
        requires of { IsOf self.old board.now }
        requires two { 2 ≤ length self.old.crew }
        ensures of { IsOf self.new board.now × IsOf result board.now }
        ensures kept { self.new.crew ≡ take (kept_of self.old.crew) self.old.crew }
        ensures given { result.crew ≡ drop (kept_of self.old.crew) self.old.crew }
        ensures behind { AreBehind (numbers_of self.new.crew) (numbers_of result.crew) }
    {
        let seat = board.table.shared.split_seat::<Halves>(&mut self.seat);
        let actors = upper(&mut self.actors);
        Rider { seat, actors }
    }

    /// Takes the actors of another rider behind its own. It takes no memory.
    pub fn join<G: Gate>(&mut self, board: &Board<'_, G>, other: Rider)
        requires of { IsOf self.old board.now × IsOf other board.now }
        requires behind { AreBehind (numbers_of self.old.crew) (numbers_of other.crew) }
        ensures of { IsOf self.new board.now }
        ensures crew { self.new.crew ≡ self.old.crew ++ other.crew }
    {
        let Rider { seat, actors } = other;
        board.table.shared.join_seat::<Halves>(&mut self.seat, seat);
        append(&mut self.actors, actors);
    }

    /// Makes one event of the actor at a place, which has not ended. Where a turn of a processor begins with it, the board's
    /// gate is called first, once. It takes no memory.
    pub fn step<G: Gate>(&mut self, board: &Board<'_, G>, at: usize) -> Went
        requires of { IsOf self.old board.now }
        requires live { is_live_at self.old.crew at ≡ true }
        ensures of { IsOf self.new board.now }
        ensures event { HasStepped self.old self.new at }
        ensures numbers { numbers_of self.new.crew ≡ numbers_of self.old.crew }
        ensures went { result ≡ went_to (is_live_at self.new.crew at) }
    {
        self.pass(board, at);
        let Some(actor) = self.actors.get_mut(at) else {
            unreachable!()
        };
        make_event::<Brand>(&board.table.shared, &mut self.seat, &board.cfg, at, actor)
    }

    /// Calls the gate where a turn begins with the actor's next operation.
    fn pass<G: Gate>(&self, board: &Board<'_, G>, at: usize)
        requires of { IsOf self.now board.now }
        requires live { is_live_at self.now.crew at ≡ true }
    {
        let actor = &self.actors[at];
        if let Some(turn) = actor.turn(&board.cfg) {
            board.gate.pass(actor.number, turn);
        }
    }
}

/// Gives the upper half away.
fn upper(actors: &mut Actors) -> Actors
    ensures kept { actors.new.items ≡ take (kept_of actors.old.items) actors.old.items }
    ensures given { result.items ≡ drop (kept_of actors.old.items) actors.old.items }
{
    let mut others = ArrayVec::new();
    let count = actors.len();
    let keep = count - count / 2;
    while actors.len() > keep {
        let Some(actor) = actors.pop() else {
            unreachable!()
        };
        others.insert(0, actor);
    }
    others
}

/// Takes others behind.
fn append(actors: &mut Actors, mut others: Actors)
    requires { array_vec_len actors.old + array_vec_len others ≤ ACTORS }
    ensures { actors.new.items ≡ actors.old.items ++ others.items }
{
    while !others.is_empty() {
        actors.push(others.remove(0));
    }
}
