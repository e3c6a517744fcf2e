//! Runs of single operations.
ghost use Rattle.std.specs.Prelude.{◌≡◌, ◌<◌, true, IfOk, not, replicate};
ghost use Rattle.std.specs.List.{sum};
ghost use Rattle.plat_base.specs.Rooms.{journal_rooms};
ghost use Rattle.plat_base.specs.Seen.{machine};
ghost use Rattle.plat_events.specs.Runs.{ends_of, fine_start};
ghost use Rattle.plat_events.specs.Events.{with_item};
ghost use Rattle.plat_fine.specs.Crew.{IsCrew, daemon_states, first_daemon, first_states, states};
ghost use Rattle.plat_fine.specs.FineSeen.{HasRoomFor, IsSwept, cut_first, event_in, is_live, room_of};
ghost use Rattle.plat_daemon.specs.DaemonSeen.{went_to};

use crate::stepping::{step, sweep};
use plat_base::{Config, End, Ended, Finished, Item, List, OutOfMemory, PolicyKind};
use plat_daemon::{Daemon, Went};
use plat_ports::VecPort;
use plat_proc::Proc;
use std::alloc::Global;
use std::marker::Model;

/// A run of single operations on shared words, whichever actor makes each of them. Contracts see the
/// machine, the words, the private state of each actor, and the history.
#[derive(Debug, Drop)]
pub struct Fine {
    cfg: Config,
    port: VecPort,
    procs: Vec<Proc>,
    daemon: Option<Daemon>,
    history: List<Item>,
    ends: Vec<Ended>,
    handed: List<Ended>,
}

impl Model for Fine {
    ghost use Rattle.plat_base.specs.Seen.{machine};
    ghost use Rattle.plat_fine.specs.Crew.{privates_of};
    ghost use Rattle.plat_fine.specs.FineSeen.{FineSeen, RunsOn, HasEnds};

    ghost Value = { FineSeen };

    ghost view = { λ it. record {
      machine = machine it.cfg;
      fine = record { words = it.port; privates = privates_of (machine it.cfg) it.procs.items it.daemon; history = it.history.items };
    } };

    ghost invariant = { λ it. RunsOn (machine it.cfg) it.procs.items it.daemon it.port it.history
        × HasEnds (machine it.cfg) it.procs.items it.ends.items it.handed };
}

/// The processors before their first turns.
fn crew(alloc: Global, cfg: &Config) -> Result<Vec<Proc>, OutOfMemory>
    ensures crew { IfOk result (λ procs. IsCrew (machine cfg.now) procs.items) }
    ensures states { IfOk result (λ procs. states procs.items
        ≡ first_states (machine cfg.now) cfg.now.nodes) }
{
    let Ok(mut procs) = Vec::with_capacity(alloc, cfg.nodes as usize) else {
        return Err(OutOfMemory);
    };
    for q in 0..cfg.nodes {
        procs.push_reserved(Proc::new(alloc, cfg, q)?);
    }
    Ok(procs)
}

/// The daemon before its first operation, where the policy has one.
fn daemon(alloc: Global, cfg: &Config) -> Result<Option<Daemon>, OutOfMemory>
    ensures swept { IfOk result (IsSwept (machine cfg.now)) }
    ensures states { IfOk result (λ it. daemon_states (machine cfg.now) it ≡ first_daemon (machine cfg.now)) }
{
    match cfg.policy {
        PolicyKind::Place | PolicyKind::Replicate => Ok(None),
        PolicyKind::Platinum { .. } => Ok(Some(Daemon::new(alloc, cfg)?)),
    }
}

/// The most items of a history: those of the journals together.
fn history_room(cfg: &Config) -> u32
    ensures { result ≡ sum (journal_rooms (machine cfg.now)) }
{
    let processors = cfg.nodes * (4 * cfg.budget);
    match cfg.policy {
        PolicyKind::Place | PolicyKind::Replicate => processors,
        PolicyKind::Platinum { t2, .. } => processors + cfg.nodes * cfg.budget / t2 * cfg.pages,
    }
}

/// The end of each processor that has made no turn.
fn no_ends(alloc: Global, cfg: &Config) -> Result<Vec<Ended>, OutOfMemory>
    ensures { IfOk result (λ ends. ends.items ≡ replicate cfg.now.nodes cut_first) }
{
    let none = Ended {
        end: End::Cut,
        turns: 0,
    };
    match vec![in alloc; none; cfg.nodes as usize] {
        Ok(ends) => Ok(ends),
        Err(_) => Err(OutOfMemory),
    }
}

/// Adds an item, if there is one.
fn keep(history: &mut List<Item>, made: Option<Item>)
    requires { HasRoomFor history.old made }
    ensures items { history.new.items ≡ with_item history.old.items made }
    ensures room { room_of history.new ≡ room_of history.old }
{
    if let Some(item) = made {
        history.push(item);
    }
}

/// How an event left its actor.
fn went_by(over: bool) -> Went
    ensures { result ≡ went_to (not over) }
{
    if over { Went::Ended } else { Went::More }
}

impl Fine {
    /// The run before its first event. It takes all memory that the run ever uses.
    pub fn new(alloc: Global, cfg: Config) -> Result<Fine, OutOfMemory>
        ensures machine { IfOk result (λ it. it.machine ≡ machine cfg) }
        ensures start { IfOk result (λ it. it.fine ≡ fine_start (machine cfg)) }
    {
        Ok(Fine {
            port: VecPort::new(alloc, &cfg)?,
            procs: crew(alloc, &cfg)?,
            daemon: daemon(alloc, &cfg)?,
            history: List::with_room(alloc, history_room(&cfg) as usize)?,
            ends: no_ends(alloc, &cfg)?,
            handed: List::with_room(alloc, cfg.nodes as usize)?,
            cfg,
        })
    }

    /// Makes the next event of an actor. It takes no memory.
    pub fn event(&mut self, actor: u32) -> Went
        requires { is_live self.old.fine.privates actor ≡ true }
        ensures machine { self.new.machine ≡ self.old.machine }
        ensures event { self.new.fine ≡ event_in self.old actor }
        ensures went { result ≡ went_to (is_live self.new.fine.privates actor) }
    {
        if actor == self.cfg.nodes {
            self.pass()
        } else {
            self.turn(actor)
        }
    }

    /// Makes the next event of a processor.
    fn turn(&mut self, q: u32) -> Went
        requires processor { q < self.old.machine.nodes }
        requires live { is_live self.old.fine.privates q ≡ true }
        ensures machine { self.new.machine ≡ self.old.machine }
        ensures event { self.new.fine ≡ event_in self.old q }
        ensures went { result ≡ went_to (is_live self.new.fine.privates q) }
    {
        let made = step(&mut self.procs, &self.cfg, &mut self.port, q);
        keep(&mut self.history, made);
        let proc = &self.procs[q as usize];
        self.ends[q as usize] = proc.ended();
        went_by(proc.is_over())
    }

    /// Makes the next event of the daemon.
    fn pass(&mut self) -> Went
        requires live { is_live self.old.fine.privates self.old.machine.nodes ≡ true }
        ensures machine { self.new.machine ≡ self.old.machine }
        ensures event { self.new.fine ≡ event_in self.old self.old.machine.nodes }
        ensures went { result ≡ went_to (is_live self.new.fine.privates self.old.machine.nodes) }
    {
        let Some(daemon) = &mut self.daemon else {
            unreachable!()
        };
        let made = sweep(daemon, &self.cfg, &mut self.port);
        keep(&mut self.history, made);
        went_by(daemon.is_over())
    }

    /// Whether an actor has not ended.
    pub fn live(&self, actor: u32) -> bool
        ensures { result ≡ is_live self.now.fine.privates actor }
    {
        if actor == self.cfg.nodes {
            return match &self.daemon {
                Some(daemon) => !daemon.is_over(),
                None => false,
            };
        }
        match self.procs.get(actor as usize) {
            Some(proc) => !proc.is_over(),
            None => false,
        }
    }

    /// The machine.
    pub fn config(&self) -> &Config
        ensures { machine result.now ≡ self.now.machine }
    {
        &self.cfg
    }

    /// The words.
    pub fn words(&self) -> &[u64]
        ensures { result.now ≡ self.now.fine.words }
    {
        self.port.words()
    }

    /// The history so far.
    pub fn history(&self) -> &[Item]
        ensures { result.now ≡ self.now.fine.history }
    {
        self.history.as_slice()
    }

    /// The end and the turns of each processor so far; the end is Cut where it has not ended.
    pub fn ends(&self) -> &[Ended]
        ensures { result.now ≡ ends_of self.now.machine self.now.fine.privates }
    {
        self.ends.as_slice()
    }

    /// Hands out the machine, the history and the ends. It takes no memory.
    pub fn finish(self) -> Finished
        ensures machine { machine result.cfg ≡ self.machine }
        ensures items { result.items.items ≡ self.fine.history }
        ensures ends { result.ends.items ≡ ends_of self.machine self.fine.privates }
    {
        let mut handed = self.handed;
        for ended in &self.ends {
            handed.push(*ended);
        }
        Finished {
            cfg: self.cfg,
            items: self.history,
            ends: handed,
        }
    }
}
