//! Boards: the shared words of a machine, for many threads, and what a run leaves.
ghost use Rattle.std.specs.Prelude.{◌≡◌, ◌<◌, ◌≤◌, ◌++◌, map, length, All, IfOk};
ghost use Rattle.std.specs.Slots.{IsFull, slots_items, slots_len};
ghost use Rattle.arrayvec.specs.ArrayVec.{array_vec_len};
ghost use Rattle.plat_base.specs.Pages.{numbers};
ghost use Rattle.plat_base.specs.Seen.{machine};
ghost use Rattle.plat_events.specs.Privates.{actor_count};
ghost use Rattle.plat_table.specs.Actors.{Fits, HasRoomIn, ends_in, held, journals_of};
ghost use Rattle.plat_table.specs.Closed.{HasGoodHistory, IsRun};
ghost use Rattle.plat_table.specs.Riders.{AreOver, IsOf};
ghost use Rattle.plat_table.specs.Rule.{held_first};

use crate::actors::{Actor, Part};
use crate::gates::Gate;
use crate::riders::{Actors, Rider};
use crate::rules::Words;
use arrayvec::ArrayVec;
use atomic_table::Closed as ClosedTable;
use plat_base::{Config, Ended, Journals, List, Op, OutOfMemory, PolicyKind};
use plat_daemon::Daemon;
use plat_ports::{VecPort, WordPort};
use plat_proc::Proc;
use std::alloc::Global;
use std::marker::Model;

/// The shared words of a machine, on which riders make their operations from any thread, and room for what the run leaves.
pub struct Board<'g, G: Gate> {
    pub(crate) cfg: Config,
    pub(crate) table: Words,
    pub(crate) gate: &'g G,
    words: VecPort,
    journals: Journals,
    ends: List<Ended>,
}

impl<'g, G: Gate> Model for Board<'g, G> {
    ghost use Rattle.plat_base.specs.Seen.{machine};
    ghost use Rattle.plat_table.specs.Boards.{IsReady};
    ghost use Rattle.plat_table.specs.Riders.{BoardSeen};

    ghost Value = { BoardSeen };

    ghost view = { λ it. record { table_id = it.table.shared.table_id; machine = machine it.cfg } };

    ghost invariant = { λ it. IsReady it.cfg it.table.shared.key it.table.shared.table_id it.words it.journals
        it.ends };
}

/// What a run leaves: its words at the end, the items of each actor, and how each processor ended.
#[derive(Debug, Drop)]
pub struct Closed {
    cfg: Config,
    words: VecPort,
    journals: Journals,
    ends: List<Ended>,
}

impl Model for Closed {
    ghost use Rattle.plat_base.specs.Seen.{machine};
    ghost use Rattle.plat_table.specs.Closed.{ClosedSeen, IsRun};

    ghost Value = { ClosedSeen };

    ghost view = { λ it. record {
      machine = machine it.cfg;
      words = it.words;
      journals = it.journals;
      ends = it.ends.items;
    } };

    ghost invariant = { λ it. IsRun (record {
      machine = machine it.cfg;
      words = it.words;
      journals = it.journals;
      ends = it.ends.items;
    }) };
}

/// All actors before their first operations.
fn crew(alloc: Global, cfg: &Config) -> Result<Actors, OutOfMemory>
    ensures fit { IfOk result (λ actors. All (Fits (machine cfg.now)) actors.items) }
    ensures held { IfOk result (λ actors. map (held (machine cfg.now)) actors.items
        ≡ map (held_first (machine cfg.now)) (numbers (actor_count (machine cfg.now)))) }
{
    let mut actors = ArrayVec::new();
    for number in 0..cfg.nodes {
        let part = Part::Processor(Proc::new(alloc, cfg, number)?);
        actors.push(Actor { number, part });
    }
    match cfg.policy {
        PolicyKind::Place | PolicyKind::Replicate => {}
        PolicyKind::Platinum { .. } => {
            let part = Part::Daemon(Daemon::new(alloc, cfg)?);
            actors.push(Actor {
                number: cfg.nodes,
                part,
            });
        }
    }
    Ok(actors)
}

/// Reads the words of a table that no thread shares any more.
fn read_words(words: &mut VecPort, table: &ClosedTable<u64, Global>)
    requires full { IsFull table.now.words }
    requires long { length words.old ≡ slots_len table.now.words }
    ensures { words.new ≡ slots_items table.now.words }
{
    for at in 0..words.words().len() {
        words.apply(at, Op::Store(table.word(at)));
    }
}

/// Adds the end of each processor.
fn note_ends(ends: &mut List<Ended>, actors: &Actors)
    requires { length (ends_in actors.now.items) ≤ ends.old.spare }
    ensures { ends.new.items ≡ ends.old.items ++ ends_in actors.now.items }
{
    for actor in actors {
        if let Some(ended) = actor.ended() {
            ends.push(ended);
        }
    }
}

/// Hands over the items of each actor.
fn hand_over(journals: &mut Journals, mut actors: Actors)
    requires order { map (λ x. x.number) actors.items ≡ numbers (array_vec_len actors) }
    requires room { All (HasRoomIn journals.old.rooms) actors.items }
    requires lists { length journals.old.lists ≡ array_vec_len actors }
    ensures rooms { journals.new.rooms ≡ journals.old.rooms }
    ensures lists { journals.new.lists ≡ journals_of actors.items }
{
    for _ in 0..actors.len() {
        let actor = actors.remove(0);
        journals.put(actor.number, actor.finish());
    }
}

impl<'g, G: Gate> Board<'g, G> {
    /// The words at the start, with a rider that has all actors before their first operations. It takes all memory that the
    /// run ever uses.
    pub fn new(
        alloc: Global,
        cfg: Config,
        gate: &'g G,
    ) -> Result<(Board<'g, G>, Rider), OutOfMemory>
        ensures machine { IfOk result (λ made. made.0.machine ≡ machine cfg) }
        ensures of { IfOk result (λ made. IsOf made.1 made.0) }
        ensures crew { IfOk result (λ made. made.1.crew
            ≡ map (held_first (machine cfg)) (numbers (actor_count (machine cfg)))) }
    {
        let words = VecPort::new(alloc, &cfg)?;
        let actors = crew(alloc, &cfg)?;
        let journals = Journals::new(alloc, &cfg)?;
        let ends = List::with_room(alloc, cfg.nodes as usize)?;
        let Ok((table, seat)) = Words::of_words(alloc, words.words(), &cfg) else {
            return Err(OutOfMemory);
        };
        let board = Board {
            cfg,
            table,
            gate,
            words,
            journals,
            ends,
        };
        Ok((board, Rider { seat, actors }))
    }

    /// Ends the run, once every actor has ended. It takes no memory.
    pub fn close(self, rider: Rider) -> Closed
        requires of { IsOf rider self }
        requires over { AreOver rider }
        ensures machine { result.machine ≡ self.entry.machine }
        ensures run { IsRun result }
    {
        let Board {
            cfg,
            table,
            gate: _,
            mut words,
            mut journals,
            mut ends,
        } = self;
        let Rider { seat, actors } = rider;
        let closed = table.close_with(seat);
        read_words(&mut words, &closed);
        closed.free();
        note_ends(&mut ends, &actors);
        hand_over(&mut journals, actors);
        Closed {
            cfg,
            words,
            journals,
            ends,
        }
    }
}

impl Closed {
    /// The machine.
    pub fn cfg(&self) -> &Config
        ensures machine { machine result.now ≡ self.now.machine }
        ensures run { IsRun self.now }
    {
        &self.cfg
    }

    /// The words at the end.
    pub fn words(&self) -> &[u64]
        ensures words { result.now ≡ self.now.words }
        ensures run { IsRun self.now }
    {
        self.words.words()
    }

    /// The items of each actor.
    pub fn journals(&self) -> &Journals
        ensures journals { result.now ≡ self.now.journals }
        ensures run { IsRun self.now }
        ensures good { HasGoodHistory self.now }
    {
        &self.journals
    }

    /// How each processor ended, and its turns.
    pub fn ends(&self) -> &[Ended]
        ensures ends { result.now ≡ self.now.ends }
        ensures run { IsRun self.now }
    {
        self.ends.as_slice()
    }
}
