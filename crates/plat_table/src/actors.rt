//! Actors of either kind.
ghost use Rattle.std.specs.Prelude.{◌≡◌, false, not};
ghost use Rattle.plat_base.specs.Seen.{machine};
ghost use Rattle.plat_daemon.specs.DaemonSeen.{went_to};
ghost use Rattle.plat_ports.specs.Ports.{AreWords, IsEvent, IsServed};
ghost use Rattle.plat_table.specs.Actors.{Fits, IsSomebody, ended_in, has_ended, journal_in, state_in};

use plat_base::{Config, Ended, Item, List};
use plat_daemon::{Daemon, Went};
use plat_ports::WordPort;
use plat_proc::Proc;

/// Who an actor is. `Nobody` stands where a rider has no actor.
#[derive(Debug, Drop)]
pub enum Part {
    Nobody,
    Processor(Proc),
    Daemon(Daemon),
}

/// An actor, and its number.
#[derive(Debug, Drop)]
pub struct Actor {
    pub number: u32,
    pub part: Part,
}

fn went_by(over: bool) -> Went
    ensures { result ≡ went_to (not over) }
{
    if over { Went::Ended } else { Went::More }
}

impl Default for Actor {
    fn default() -> Actor {
        Actor {
            number: 0,
            part: Part::Nobody,
        }
    }
}

impl Actor {
    /// Makes the actor's next operation, one and no more.
    pub fn step<P: WordPort>(&mut self, cfg: &Config, port: &mut P) -> Went
        requires live { has_ended self.old ≡ false }
        requires fits { Fits (machine cfg.now) self.old }
        requires words { AreWords (machine cfg.now) (P.words port.old) }
        requires serves { let m = machine cfg.now
            in IsServed m self.old.number (state_in m self.old.part) (P.serves port.old) }
        ensures event { let m = machine cfg.now
            in IsEvent m self.old.number (state_in m self.old.part) (state_in m self.new.part)
            (P.words port.old) (P.words port.new) }
        ensures number { self.new.number ≡ self.old.number }
        ensures fits { Fits (machine cfg.now) self.new }
        ensures serves { let m = machine cfg.now
            in IsServed m self.new.number (state_in m self.new.part) (P.serves port.new) }
        ensures stays { P.stays port.old port.new }
        ensures went { result ≡ went_to (not (has_ended self.new)) }
    {
        match &mut self.part {
            Part::Processor(proc) => {
                proc.step(cfg, port);
                went_by(proc.is_over())
            }
            Part::Daemon(daemon) => daemon.step(cfg, port),
            Part::Nobody => unreachable!(),
        }
    }

    /// The turn that begins with its next operation, from 1.
    pub fn turn(&self, cfg: &Config) -> Option<u32>
        requires fits { Fits (machine cfg.now) self.now }
    {
        match &self.part {
            Part::Processor(proc) => {
                if proc.at_turn() {
                    Some(proc.turns() + 1)
                } else {
                    None
                }
            }
            Part::Daemon(_) | Part::Nobody => None,
        }
    }

    /// Whether it makes a further operation.
    pub fn live(&self) -> bool
        ensures { result ≡ not (has_ended self.now) }
    {
        match &self.part {
            Part::Processor(proc) => !proc.is_over(),
            Part::Daemon(daemon) => !daemon.is_over(),
            Part::Nobody => false,
        }
    }

    /// How a processor ended, and its turns.
    pub fn ended(&self) -> Option<Ended>
        ensures { result ≡ ended_in self.now.part }
    {
        match &self.part {
            Part::Processor(proc) => Some(proc.ended()),
            Part::Daemon(_) | Part::Nobody => None,
        }
    }

    /// Hands out its items. It takes no memory.
    pub fn finish(self) -> List<Item>
        requires { IsSomebody self.part }
        ensures { result.items ≡ journal_in self.part }
    {
        match self.part {
            Part::Processor(proc) => proc.finish(),
            Part::Daemon(daemon) => daemon.finish(),
            Part::Nobody => unreachable!(),
        }
    }
}
