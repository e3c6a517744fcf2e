//! The coarse run, turn by turn.
ghost use Rattle.std.specs.Prelude.{◌≡◌, ◌+◌, ◌*◌, ◌<◌, ◌≤◌, ◌++◌, [], length, true, IfOk, IsTrue};
ghost use Rattle.plat_base.specs.Ends.{is_live as is_live_of, ended_of};
ghost use Rattle.plat_base.specs.Coarse.{coarse_start};
ghost use Rattle.plat_base.specs.Turns.{turn as turn_of};
ghost use Rattle.plat_base.specs.Rules.{Good};
ghost use Rattle.plat_base.specs.Seen.{machine};
ghost use Rattle.plat_base.specs.declared.limits.TheConstants.{MOST_ITEMS};
ghost use Rattle.plat_coarse_laws.specs.Room.{room as room_of, passes};
ghost use Rattle.plat_coarse.specs.CoarseSeen.{turned_of};

use crate::acts::{act, advance, daemon, settle};
use crate::messages::is_live;
use plat_base::{Config, End, Ended, Finished, Item, List, OutOfMemory, Policy, PolicyKind};
use plat_chronicle::Chronicle;
use plat_guest::Guest;
use std::alloc::Global;
use std::marker::Model;

/// How a turn left its processor: it goes on, or it ended.
#[derive(Clone, Copy, Debug, PartialEq, Eq)]
pub enum Turned {
    Ran,
    Ended(End),
}

/// A coarse run under a policy: whole instructions on one thread, each with its protocol change. Contracts see the machine
/// and the policy, and the history and the ends so far; a live processor has the end Cut.
///
/// The policy gives the verdict on each fault. Whether there is a daemon, and its period, is what the machine's own line
/// of the policy says.
#[derive(Debug, Drop)]
pub struct Coarse<P: Policy = PolicyKind> {
    policy: P,
    chronicle: Chronicle,
    guests: Vec<Guest>,
    ends: Vec<Ended>,
    handed: List<Ended>,
    time: u32,
}

impl<P: Policy> Model for Coarse<P> {
    ghost use Rattle.std.specs.Prelude.{◌≤◌, ◌≡◌, [], length};
    ghost use Rattle.plat_coarse.specs.CoarseSeen.{CoarseSeen, RunsOn};

    ghost Value = { CoarseSeen P };

    ghost view = { λ it. record {
      machine = it.chronicle.machine;
      policy = it.policy;
      run = record { history = it.chronicle.items; ends = it.ends.items };
    } };

    ghost invariant = { λ it. RunsOn it.chronicle (P.answer it.policy) it.ends.items it.guests.items it.time
        × ((it.handed.items ≡ []) × (length it.ends.items ≤ it.handed.spare)) };
}

/// How many turns a run can have: each processor's budget.
pub fn most_turns(cfg: &Config) -> u32
    ensures value { result ≡ cfg.now.nodes * cfg.now.budget }
    ensures few { result ≤ 524288 }
{
    cfg.nodes * cfg.budget
}

/// How many passes the daemon can make.
fn most_passes(cfg: &Config) -> u32
    ensures value { result ≡ passes cfg.now.policy (cfg.now.nodes * cfg.now.budget) }
    ensures few { result ≤ 8192 }
{
    match cfg.policy {
        PolicyKind::Place | PolicyKind::Replicate => 0,
        PolicyKind::Platinum { t2, .. } => most_turns(cfg) / t2,
    }
}

/// How many items the history of a machine can have: four for each turn, and one for each page at each pass of the daemon.
fn room(cfg: &Config) -> u32
    ensures value { result ≡ room_of (machine cfg.now) }
    ensures few { result ≤ MOST_ITEMS }
{
    4 * most_turns(cfg) + cfg.pages * most_passes(cfg)
}

fn outcome_of(end: End) -> Turned
    ensures { result ≡ turned_of end }
{
    match end {
        End::Cut => Turned::Ran,
        End::Halted | End::Trapped | End::Spent | End::NoFrames => Turned::Ended(end),
    }
}

impl Coarse {
    /// The run before its first turn, under the policy that the machine's text names.
    pub fn new(alloc: Global, cfg: Config) -> Result<Coarse, OutOfMemory>
        ensures machine { IfOk result (λ it. it.machine ≡ machine cfg) }
        ensures start { IfOk result (λ it. it.run ≡ coarse_start (machine cfg)) }
        ensures policy { IfOk result (λ it. it.policy ≡ (machine cfg).policy) }
    {
        let policy = cfg.policy;
        Coarse::under(alloc, cfg, policy)
    }
}

impl<P: Policy + Drop> Coarse<P> {
    /// The run before its first turn, with room for the whole history, whatever the policy answers.
    pub fn under(alloc: Global, cfg: Config, policy: P) -> Result<Coarse<P>, OutOfMemory>
        ensures machine { IfOk result (λ it. it.machine ≡ machine cfg) }
        ensures start { IfOk result (λ it. it.run ≡ coarse_start (machine cfg)) }
        ensures policy { IfOk result (λ it. it.policy ≡ policy) }
    {
        let room = room(&cfg) as usize;
        let nodes = cfg.nodes;
        let (Ok(mut guests), Ok(mut ends)) = (
            Vec::with_capacity(alloc, nodes as usize),
            Vec::with_capacity(alloc, nodes as usize),
        ) else {
            return Err(OutOfMemory);
        };
        let handed = List::with_room(alloc, nodes as usize)?;
        for q in 0..nodes {
            guests.push_reserved(Guest::new(&cfg, q));
            ends.push_reserved(Ended {
                end: End::Cut,
                turns: 0,
            });
        }
        let chronicle = Chronicle::new(alloc, cfg, room)?;
        Ok(Coarse {
            policy,
            chronicle,
            guests,
            ends,
            handed,
            time: 0,
        })
    }

    /// Hands out the machine, the history and the ends. It takes no memory.
    pub fn finish(self) -> Finished
        ensures machine { machine result.cfg ≡ self.machine }
        ensures items { result.items.items ≡ self.run.history }
        ensures ends { result.ends.items ≡ self.run.ends }
    {
        let mut handed = self.handed;
        for ended in &self.ends {
            handed.push(*ended);
        }
        let (cfg, items) = self.chronicle.finish();
        Finished {
            cfg,
            items,
            ends: handed,
        }
    }
}

impl<P: Policy> Coarse<P> {
    /// Makes one turn of processor `q`, and the daemon's pass that belongs to it. But for what the policy does for its
    /// verdict, it takes no memory, and its cost does not grow with the history.
    pub fn turn(&mut self, q: u32) -> Turned
        requires live { IsTrue (is_live_of self.old.run.ends q) }
        ensures machine { self.new.machine ≡ self.old.machine }
        ensures policy { self.new.policy ≡ self.old.policy }
        ensures run { self.new.run ≡ turn_of self.old.machine (P.answer self.old.policy) self.old.run q }
        ensures turned { result ≡ turned_of (ended_of self.new.run.ends q).end }
    {
        let now = self.time + 1;
        let want = self.guests[q as usize].next(self.chronicle.config());
        let acted = act(
            &mut self.chronicle,
            &self.policy,
            self.ends.as_slice(),
            q,
            now,
            want,
        );
        advance(&mut self.guests, self.chronicle.config(), q, acted);
        let end = settle(&mut self.ends, q, acted.end, self.chronicle.config().budget);
        daemon(&mut self.chronicle, &self.policy, self.ends.as_slice(), now);
        self.time = now;
        outcome_of(end)
    }

    /// Whether processor `q` has not ended.
    pub fn live(&self, q: u32) -> bool
        requires { q < self.now.machine.nodes }
        ensures { result ≡ is_live_of self.now.run.ends q }
    {
        is_live(self.ends.as_slice(), q)
    }

    /// The machine.
    pub fn config(&self) -> &Config
        ensures { machine result.now ≡ self.now.machine }
    {
        self.chronicle.config()
    }

    /// The history so far.
    pub fn history(&self) -> &[Item]
        ensures items { result.now ≡ self.now.run.history }
        ensures good { Good self.now.machine (P.answer self.now.policy) result.now self.now.run.ends }
    {
        self.chronicle.items()
    }

    /// The end and the turns of each processor so far.
    pub fn ends(&self) -> &[Ended]
        ensures { result.now ≡ self.now.run.ends }
    {
        self.ends.as_slice()
    }
}
