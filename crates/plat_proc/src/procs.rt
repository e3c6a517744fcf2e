//! Processors.
ghost use Rattle.std.specs.Prelude.{◌≡◌, ◌<◌, false, IfOk};
ghost use Rattle.plat_base.specs.Seen.{machine};
ghost use Rattle.plat_events.specs.Privates.{first_private, is_over, period};
ghost use Rattle.plat_events.specs.Runs.{ended_by};
ghost use Rattle.plat_ports.specs.Ports.{AreWords, IsServed};
ghost use Rattle.plat_proc.specs.Fits.{EndsBy, Fits};
ghost use Rattle.plat_proc.specs.Followed.{HasStepped};
ghost use Rattle.plat_proc.specs.ProcSeen.{is_at_turn, stepped_to};

use crate::places::{Onward, Place};
use plat_base::{Config, End, Ended, Item, List, OutOfMemory, PolicyKind};
use plat_guest::Guest;
use plat_handler::Handler;
use plat_pmap::{Atc, Pmap};
use plat_ports::WordPort;
use std::alloc::Global;
use std::marker::Model;

/// How an operation left its processor: it goes on, or it has ended.
#[derive(Clone, Copy, Debug, PartialEq, Eq)]
pub enum Stepped {
    More,
    Ended(End),
}

/// A processor between two operations. Contracts see its number, its private state, how many items its journal may have, what
/// its cache of translations keeps, and the handler of the fault under way.
#[derive(Debug, Drop)]
pub struct Proc {
    pub(crate) q: u32,
    pub(crate) guest: Guest,
    pub(crate) turns: u32,
    /// That of the turn.
    pub(crate) tick: u32,
    /// When the daemon's next pass is due: each private state has it, and a processor does not look at it.
    due: u32,
    pub(crate) pmap: Pmap,
    pub(crate) atc: Atc,
    pub(crate) place: Place,
    pub(crate) handler: Option<Handler>,
    pub(crate) journal: List<Item>,
}

impl Model for Proc {
    ghost use Rattle.std.specs.Prelude.{◌≡◌, ◌+◌, length};
    ghost use Rattle.plat_pmap.specs.Slots.{places};
    ghost use Rattle.plat_proc.specs.Places.{place_seen, HandlesWell};
    ghost use Rattle.plat_proc.specs.ProcSeen.{ProcSeen};

    ghost Value = { ProcSeen };

    ghost view = { λ it. record {
      actor = it.q;
      state = record {
        turns = it.turns;
        now = it.tick;
        guest = it.guest.state;
        pmap = it.pmap;
        atc = places it.atc;
        due = it.due;
        place = place_seen it.handler it.place;
        journal = it.journal.items;
      };
      room = length it.journal.items + it.journal.spare;
      slots = it.atc;
      handler = it.handler;
    } };

    ghost invariant = { λ it. (it.guest.node ≡ it.q) × HandlesWell it.handler it.place };
}

/// The daemon's period; 0 where there is no daemon.
fn period(policy: PolicyKind) -> u32
    ensures { result ≡ period policy }
{
    match policy {
        PolicyKind::Place | PolicyKind::Replicate => 0,
        PolicyKind::Platinum { t2, .. } => t2,
    }
}

impl Proc {
    /// Processor `q` before its first turn. It takes all memory that the processor ever uses.
    pub fn new(alloc: Global, cfg: &Config, q: u32) -> Result<Proc, OutOfMemory>
        requires processor { q < cfg.now.nodes }
        ensures actor { IfOk result (λ it. it.actor ≡ q) }
        ensures start { IfOk result (λ it. it.state ≡ first_private (machine cfg.now) q) }
        ensures fits { IfOk result (Fits (machine cfg.now)) }
    {
        Ok(Proc {
            q,
            guest: Guest::new(cfg, q),
            turns: 0,
            tick: 0,
            due: period(cfg.policy),
            pmap: Pmap::new(alloc, cfg)?,
            atc: Atc::new(),
            place: Place::Polling(Onward::NewTurn),
            handler: None,
            journal: List::with_room(alloc, 4 * cfg.budget as usize)?,
        })
    }

    /// Makes the processor's next operation, one and no more, and takes in the word that it found. A word that its kind
    /// cannot be changes nothing.
    pub fn step<P: WordPort>(&mut self, cfg: &Config, port: &mut P) -> Stepped
        requires live { is_over self.old.state.place ≡ false }
        requires fits { Fits (machine cfg.now) self.old }
        requires words { AreWords (machine cfg.now) (P.words port.old) }
        requires serves { IsServed (machine cfg.now) self.old.actor self.old.state (P.serves port.old) }
        ensures event { HasStepped (machine cfg.now) self.old self.new (P.words port.old) (P.words port.new) }
        ensures actor { self.new.actor ≡ self.old.actor }
        ensures fits { Fits (machine cfg.now) self.new }
        ensures words { AreWords (machine cfg.now) (P.words port.new) }
        ensures serves { IsServed (machine cfg.now) self.new.actor self.new.state (P.serves port.new) }
        ensures stays { P.stays port.old port.new }
        ensures stepped { result ≡ stepped_to self.new.state.place }
        ensures why { EndsBy (machine cfg.now) self.new result }
        ensures live { result ≡ Stepped.More → is_over self.new.state.place ≡ false }
    {
        match self.place {
            Place::Faulting => self.handle(cfg, port),
            Place::Loading | Place::Expecting | Place::Exchanging(_) => self.access(cfg, port),
            _ => self.act(cfg, port),
        }
        self.stepped()
    }

    /// Its items so far.
    pub fn journal(&self) -> &[Item]
        ensures { result.now ≡ self.now.state.journal }
    {
        self.journal.as_slice()
    }

    /// How many ticks it has made.
    pub fn turns(&self) -> u32
        ensures { result ≡ self.now.state.turns }
    {
        self.turns
    }

    /// Whether its next operation is the first of a turn.
    pub fn at_turn(&self) -> bool
        ensures { result ≡ is_at_turn self.now.state.place }
    {
        self.place == Place::Polling(Onward::NewTurn)
    }

    /// How it ended, Cut where it has not, and its turns.
    pub fn ended(&self) -> Ended
        ensures { result ≡ ended_by self.now.state }
    {
        let end = match self.place {
            Place::Gone(end) => end,
            _ => End::Cut,
        };
        Ended {
            end,
            turns: self.turns,
        }
    }

    /// Whether it makes no further operation.
    pub fn is_over(&self) -> bool
        ensures { result ≡ is_over self.now.state.place }
    {
        matches!(self.place, Place::Gone(_))
    }

    /// Hands out its items. It takes no memory.
    pub fn finish(self) -> List<Item>
        ensures { result.items ≡ self.state.journal }
    {
        self.journal
    }

    fn stepped(&self) -> Stepped
        ensures { result ≡ stepped_to self.now.state.place }
    {
        match self.place {
            Place::Gone(end) => Stepped::Ended(end),
            _ => Stepped::More,
        }
    }
}
