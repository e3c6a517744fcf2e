//! Placements: for each page its real cost, and the best plan of a single copy that may move.
ghost use Rattle.std.specs.Prelude.{◌≡◌, ◌*◌, ◌≤◌, IfOk, length, take};
ghost use Rattle.plat_base.specs.Seen.{machine};
ghost use Rattle.plat_base.specs.declared.limits.TheConstants.{MOST_ITEMS, MOST_TURNS};
ghost use Rattle.plat_cost.specs.Certificates.{IsCertificate};
ghost use Rattle.plat_cost.specs.Costs.{actors_on, actual, CanCost};
ghost use Rattle.plat_cost.specs.Placements.{IsEmpty, IsFor};
ghost use Rattle.plat_cost.specs.Plans.{moves_of, plan_cost, IsBestPlan};

use crate::costs::{actual, collect, moves};
use crate::rests::first_best;
use plat_base::{Config, Item, OutOfMemory};
use std::alloc::Global;
use std::marker::Model;

/// What a page cost, and the least that a single copy of it could have cost. `moves` says how often the best plan moves
/// that copy. Costs are distances; to carry a page costs its words times the distance.
#[derive(Clone, Copy, Debug, PartialEq, Eq)]
pub struct Placed {
    pub accesses: u32,
    pub actual: u64,
    pub least: u64,
    pub moves: u32,
}

/// Places one page after another. It has room for all accesses of a run, at most 37.7 MB, and `new` takes all of it.
/// Contracts see the last page's actors, plan and table.
#[derive(Debug, Drop)]
pub struct Placer {
    nodes: u32,
    room: usize,
    count: usize,
    actors: Vec<u32>,
    plan: Vec<u32>,
    rest: Vec<u64>,
}

impl Model for Placer {
    ghost use Rattle.std.specs.Prelude.{◌*◌, take};
    ghost use Rattle.plat_cost.specs.Placements.{FitsRoom, Placements};

    ghost Value = { Placements };

    ghost view = { λ it. record {
      nodes = it.nodes;
      room = it.room;
      actors = take it.count it.actors.items;
      plan = take it.count it.plan.items;
      rest = take (it.count * it.nodes) it.rest.items;
    } };

    ghost invariant = { λ it. FitsRoom it.nodes it.room it.count it.actors.items it.plan.items it.rest.items };
}

impl Placer {
    /// Room for any page of a run of this machine. It is the one call here that takes memory.
    pub fn new(alloc: Global, cfg: &Config) -> Result<Placer, OutOfMemory>
        ensures made { IfOk result (IsFor (machine cfg.now)) }
        ensures empty { IfOk result IsEmpty }
    {
        let room = (cfg.nodes * cfg.budget) as usize;
        let numbers = room * cfg.nodes as usize;
        let (Ok(actors), Ok(plan), Ok(rest)) = (
            vec![in alloc; 0; room],
            vec![in alloc; 0; room],
            vec![in alloc; 0; numbers],
        ) else {
            return Err(OutOfMemory);
        };
        Ok(Placer {
            nodes: cfg.nodes,
            room,
            count: 0,
            actors,
            plan,
            rest,
        })
    }

    /// Places a page: what it cost by these items, and the first of the plans that cost least for the same accesses.
    pub fn page(&mut self, cfg: &Config, items: &[Item], page: u32) -> Placed
        requires made { IsFor (machine cfg.now) self.old }
        requires few { length items.now ≤ MOST_ITEMS }
        requires costs { CanCost (machine cfg.now) page items.now }
        requires room { length (actors_on items.now page) ≤ cfg.now.nodes * cfg.now.budget }
        ensures accesses { result.accesses ≡ length (actors_on items.now page) }
        ensures actual { result.actual ≡ actual (machine cfg.now) items.now page }
        ensures actors { self.new.actors ≡ actors_on items.now page }
        ensures best { IsBestPlan (machine cfg.now) self.new.actors self.new.plan }
        ensures least { result.least ≡ plan_cost (machine cfg.now) self.new.actors self.new.plan }
        ensures moves { result.moves ≡ moves_of self.new.plan }
        ensures rest { length self.new.rest ≡ length self.new.actors * cfg.now.nodes }
        ensures certified { IsCertificate (machine cfg.now) self.new.actors self.new.rest result.least }
        ensures made { IsFor (machine cfg.now) self.new }
    {
        let found = place(
            cfg,
            items,
            page,
            &mut self.actors,
            &mut self.rest,
            &mut self.plan,
        );
        self.count = found.count;
        Placed {
            accesses: found.count as u32,
            actual: actual(cfg, items, page),
            least: found.least,
            moves: found.moves,
        }
    }

    /// The actors of the last page's accesses, in order.
    pub fn actors(&self) -> &[u32]
        ensures { result.now ≡ self.now.actors }
    {
        &self.actors[..self.count]
    }

    /// The best plan for them: the module of the copy at each access.
    pub fn plan(&self) -> &[u32]
        ensures { result.now ≡ self.now.plan }
    {
        &self.plan[..self.count]
    }

    /// The least costs of the rest of a plan, for each access one number for each module: a certificate of the bound.
    pub fn rest(&self) -> &[u64]
        ensures { result.now ≡ self.now.rest }
    {
        &self.rest[..self.count * self.nodes as usize]
    }
}

/// How many accesses a page has, and of the best plan for them the cost and the moves.
#[derive(Clone, Copy)]
struct Found {
    count: usize,
    least: u64,
    moves: u32,
}

/// Writes the actors of the page's accesses, the best plan for them and its table into the front of the room.
fn place(
    cfg: &Config,
    items: &[Item],
    page: u32,
    actors: &mut [u32],
    rest: &mut [u64],
    plan: &mut [u32],
) -> Found
    requires costs { CanCost (machine cfg.now) page items.now }
    requires some { length (actors_on items.now page) ≤ length actors.old }
    requires few { length actors.old ≤ MOST_TURNS }
    requires rest { length rest.old ≡ length actors.old * cfg.now.nodes }
    requires plan { length plan.old ≡ length actors.old }
    ensures count { result.count ≡ length (actors_on items.now page) }
    ensures actors { take result.count actors.new ≡ actors_on items.now page }
    ensures best { IsBestPlan (machine cfg.now) (actors_on items.now page) (take result.count plan.new) }
    ensures least { let actors = actors_on items.now page in
        result.least ≡ plan_cost (machine cfg.now) actors (take result.count plan.new) }
    ensures moves { result.moves ≡ moves_of (take result.count plan.new) }
    ensures certified { let front = take (result.count * cfg.now.nodes) rest.new
        in IsCertificate (machine cfg.now) (actors_on items.now page) front result.least }
{
    let count = collect(items, page, actors);
    let numbers = count * cfg.nodes as usize;
    let least = first_best(
        cfg,
        &actors[..count],
        &mut rest[..numbers],
        &mut plan[..count],
    );
    Found {
        count,
        least,
        moves: moves(&plan[..count]),
    }
}
