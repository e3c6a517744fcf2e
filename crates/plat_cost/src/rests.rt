//! The table of least costs of the rest of a plan, and the walk along it that is the best plan.
ghost use Rattle.std.specs.Prelude.{◌≡◌, ◌+◌, ◌*◌, ◌<◌, ◌≤◌, ℕ, All, length, slice_index};
ghost use Rattle.plat_base.specs.Pages.{distance};
ghost use Rattle.plat_base.specs.Seen.{machine};
ghost use Rattle.plat_base.specs.declared.limits.TheConstants.{MOST_TURNS};
ghost use Rattle.plat_cost.specs.Certificates.{IsCertificate, number_at};
ghost use Rattle.plat_cost.specs.Distances.{AreDistances};
ghost use Rattle.plat_cost.specs.Plans.{IsBestPlan, plan_cost};
ghost use Rattle.plat_cost.specs.Rests.{AreLow, AreRisen, IsFirstLeast, IsKeptFrom, IsLastRow, IsRowOf, IsTableFrom, IsWalked, onward_at};

use crate::distances::{Distances, carry, distances, way};
use plat_base::Config;

/// More than any number of the table: 65,000 for each access.
pub(crate) const MOST_REST: u64 = 34_078_720_000;

/// Makes `plan` the best plan for `actors`, and `rest` the table of least costs. The answer is the plan's cost.
pub(crate) fn first_best(cfg: &Config, actors: &[u32], rest: &mut [u64], plan: &mut [u32]) -> u64
    requires few { length actors.now ≤ MOST_TURNS }
    requires nodes { All (λ a. a < cfg.now.nodes) actors.now }
    requires rest { length rest.old ≡ length actors.now * cfg.now.nodes }
    requires plan { length plan.old ≡ length actors.now }
    ensures best { IsBestPlan (machine cfg.now) actors.now plan.new }
    ensures cost { result ≡ plan_cost (machine cfg.now) actors.now plan.new }
    ensures certified { IsCertificate (machine cfg.now) actors.now rest.new result }
{
    if actors.is_empty() {
        return 0;
    }
    let far = distances(cfg);
    fill(cfg, &far, actors, rest);
    walk(cfg, &far, rest, plan);
    rest[plan[0] as usize]
}

/// Fills the table from the last access down.
fn fill(cfg: &Config, far: &Distances, actors: &[u32], rest: &mut [u64])
    requires far { AreDistances (machine cfg.now) far.now }
    requires some { 0 < length actors.now }
    requires few { length actors.now ≤ MOST_TURNS }
    requires nodes { All (λ a. a < cfg.now.nodes) actors.now }
    requires rest { length rest.old ≡ length actors.now * cfg.now.nodes }
    ensures table { IsTableFrom (machine cfg.now) actors.now 0 (number_at (machine cfg.now) rest.new) }
    ensures low { AreLow rest.new 0 MOST_REST }
{
    let nodes = cfg.nodes as usize;
    let mut i = actors.len() - 1;
    let mut base = i * nodes;
    fill_last(cfg, far, actors[i], rest, base);
    while i > 0 {
        i -= 1;
        base -= nodes;
        fill_row(cfg, far, actors[i], rest, base);
    }
}

/// Fills the row of the last access, which begins at `base`.
fn fill_last(cfg: &Config, far: &Distances, actor: u32, rest: &mut [u64], base: usize)
    requires far { AreDistances (machine cfg.now) far.now }
    requires actor { actor < cfg.now.nodes }
    requires last { base + cfg.now.nodes ≡ length rest.old }
    ensures row { IsLastRow (machine cfg.now) actor base rest.new }
    ensures low { AreLow rest.new base 1000 }
{
    for x in 0..cfg.nodes {
        rest[base + x as usize] = u64::from(way(cfg, far, actor, x));
    }
}

/// Fills the row that begins at `base`, by the next one.
fn fill_row(cfg: &Config, far: &Distances, actor: u32, rest: &mut [u64], base: usize)
    requires far { AreDistances (machine cfg.now) far.now }
    requires actor { actor < cfg.now.nodes }
    requires room { base + cfg.now.nodes + cfg.now.nodes ≤ length rest.old }
    requires low { AreLow rest.old (base + cfg.now.nodes) MOST_REST }
    ensures row { IsRowOf (machine cfg.now) actor rest.old base rest.new cfg.now.nodes }
    ensures kept { IsKeptFrom (base + cfg.now.nodes) rest.old rest.new }
    ensures risen { AreRisen rest.old (base + cfg.now.nodes) rest.new base cfg.now.nodes }
{
    let next = base + cfg.nodes as usize;
    for x in 0..cfg.nodes {
        let y = first_onward(cfg, far, rest, next, x);
        let least = onward(cfg, far, rest, next, x, y);
        rest[base + x as usize] = u64::from(way(cfg, far, actor, x)) + least;
    }
}

/// What follows an access at module `x`, where the copy goes on to module `y` and the next row begins at `next`.
fn onward(cfg: &Config, far: &Distances, rest: &[u64], next: usize, x: u32, y: u32) -> u64
    requires far { AreDistances (machine cfg.now) far.now }
    requires x { x < cfg.now.nodes }
    requires y { y < cfg.now.nodes }
    requires room { next + cfg.now.nodes ≤ length rest.now }
    requires low { AreLow rest.now next MOST_REST }
    ensures onward { result ≡ onward_at (machine cfg.now) rest.now next x y }
    ensures most { (top : ℕ) → AreLow rest.now next top → result ≤ top + 64000 }
{
    u64::from(carry(cfg, far, y, x)) + rest[next + y as usize]
}

/// The first module at which what follows an access at module `x` is least.
fn first_onward(cfg: &Config, far: &Distances, rest: &[u64], next: usize, x: u32) -> u32
    requires far { AreDistances (machine cfg.now) far.now }
    requires x { x < cfg.now.nodes }
    requires room { next + cfg.now.nodes ≤ length rest.now }
    requires low { AreLow rest.now next MOST_REST }
    ensures { IsFirstLeast (onward_at (machine cfg.now) rest.now next x) cfg.now.nodes result }
{
    let mut best = 0;
    for y in 1..cfg.nodes {
        if onward(cfg, far, rest, next, x, y) < onward(cfg, far, rest, next, x, best) {
            best = y;
        }
    }
    best
}

/// The first module at which the number of the first access is least.
fn first_start(cfg: &Config, rest: &[u64]) -> u32
    requires room { cfg.now.nodes ≤ length rest.now }
    ensures { IsFirstLeast (slice_index rest.now) cfg.now.nodes result }
{
    let mut best = 0;
    for x in 1..cfg.nodes {
        if rest[x as usize] < rest[best as usize] {
            best = x;
        }
    }
    best
}

/// Writes the plan that takes the first module of the least rest each time.
fn walk(cfg: &Config, far: &Distances, rest: &[u64], plan: &mut [u32])
    requires far { AreDistances (machine cfg.now) far.now }
    requires some { 0 < length plan.old }
    requires rest { length rest.now ≡ length plan.old * cfg.now.nodes }
    requires low { AreLow rest.now 0 MOST_REST }
    ensures { IsWalked (machine cfg.now) rest.now plan.new (length plan.old) }
{
    plan[0] = first_start(cfg, rest);
    for i in 1..plan.len() {
        plan[i] = first_onward(cfg, far, rest, i * cfg.nodes as usize, plan[i - 1]);
    }
}
