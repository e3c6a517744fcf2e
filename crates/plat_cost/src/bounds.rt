//! A checker of certificates: whether numbers that anybody made show that no plan costs less than a bound.
ghost use Rattle.std.specs.Prelude.{◌≡◌, ◌↔◌, ◌+◌, ◌*◌, ◌<◌, ◌≤◌, ℕ, List as Many, All, IsTrue, length, slice_index};
ghost use Rattle.plat_base.specs.Seen.{machine};
ghost use Rattle.plat_cost.specs.Certificates.{number_at, AreRowsBelow, IsCertificate, IsLowest, IsNumberBelow, IsOnwardBelow, IsRowBelow};
ghost use Rattle.plat_cost.specs.Distances.{AreDistances};
ghost use Rattle.plat_cost.specs.Plans.{IsBound};

use crate::distances::{Distances, carry, distances, way};
use plat_base::Config;

/// Whether `rest` shows that every plan for `actors` costs at least `least`. It has one number for each module of the
/// machine, access after access, and may come from anywhere. Without actors the answer is whether `least` is 0. It takes
/// no memory.
pub fn check_bound(cfg: &Config, actors: &[u32], rest: &[u64], least: u64) -> bool
    requires nodes { All (λ a. a < cfg.now.nodes) actors.now }
    requires rest { length rest.now ≡ length actors.now * cfg.now.nodes }
    ensures exact { IsTrue result ↔ IsCertificate (machine cfg.now) actors.now rest.now least }
    ensures sound { IsTrue result → IsBound (machine cfg.now) actors.now least }
{
    if actors.is_empty() {
        return least == 0;
    }
    let far = distances(cfg);
    are_rows_below(cfg, &far, actors, rest) && is_least(cfg, rest, least)
}

/// Whether the bound is at most each number of the first access.
fn is_least(cfg: &Config, rest: &[u64], least: u64) -> bool
    requires { cfg.now.nodes ≤ length rest.now }
    ensures { IsTrue result ↔ IsLowest (machine cfg.now) rest.now least }
{
    for x in 0..cfg.nodes as usize {
        if least > rest[x] {
            return false;
        }
    }
    true
}

/// Whether the numbers of all accesses are low enough.
fn are_rows_below(cfg: &Config, far: &Distances, actors: &[u32], rest: &[u64]) -> bool
    requires far { AreDistances (machine cfg.now) far.now }
    requires nodes { All (λ a. a < cfg.now.nodes) actors.now }
    requires rest { length rest.now ≡ length actors.now * cfg.now.nodes }
    ensures { IsTrue result ↔ AreRowsBelow (machine cfg.now) actors.now rest.now }
{
    for i in 0..actors.len() {
        if !is_row_below(cfg, far, actors, rest, i) {
            return false;
        }
    }
    true
}

/// Whether the numbers of access `i` are low enough.
fn is_row_below(cfg: &Config, far: &Distances, actors: &[u32], rest: &[u64], i: usize) -> bool
    requires far { AreDistances (machine cfg.now) far.now }
    requires nodes { All (λ a. a < cfg.now.nodes) actors.now }
    requires rest { length rest.now ≡ length actors.now * cfg.now.nodes }
    requires i { i < length actors.now }
    ensures { let m = machine cfg.now in IsTrue result ↔ IsRowBelow m actors.now (number_at m rest.now) i }
{
    for x in 0..cfg.nodes {
        if !is_number_below(cfg, far, actors, rest, i, x) {
            return false;
        }
    }
    true
}

/// Whether the number of access `i` and module `x` is low enough.
fn is_number_below(
    cfg: &Config,
    far: &Distances,
    actors: &[u32],
    rest: &[u64],
    i: usize,
    x: u32,
) -> bool
    requires far { AreDistances (machine cfg.now) far.now }
    requires nodes { All (λ a. a < cfg.now.nodes) actors.now }
    requires rest { length rest.now ≡ length actors.now * cfg.now.nodes }
    requires i { i < length actors.now }
    requires x { x < cfg.now.nodes }
    ensures { let m = machine cfg.now in
        IsTrue result ↔ IsNumberBelow m actors.now (number_at m rest.now) i x }
{
    let nodes = cfg.nodes as usize;
    let number = rest[i * nodes + x as usize];
    let own = way(cfg, far, actors[i], x);
    if i + 1 == actors.len() {
        number <= u64::from(own)
    } else {
        is_onward_below(cfg, far, rest, number, own, (i + 1) * nodes, x)
    }
}

/// Whether a number is at most `own` and what follows an access at module `x`, by way of any module. The row of the next
/// access begins at `next`.
fn is_onward_below(
    cfg: &Config,
    far: &Distances,
    rest: &[u64],
    number: u64,
    own: u32,
    next: usize,
    x: u32,
) -> bool
    requires far { AreDistances (machine cfg.now) far.now }
    requires room { next + cfg.now.nodes ≤ length rest.now }
    requires x { x < cfg.now.nodes }
    ensures { IsTrue result ↔ IsOnwardBelow (machine cfg.now) rest.now number own next x }
{
    for y in 0..cfg.nodes {
        let onward = u128::from(carry(cfg, far, y, x)) + u128::from(rest[next + y as usize]);
        if u128::from(number) > u128::from(own) + onward {
            return false;
        }
    }
    true
}
