//! Distances, looked up in one step.
ghost use Rattle.std.specs.Prelude.{◌≡◌, ◌*◌, ◌<◌, ◌≤◌};
ghost use Rattle.plat_base.specs.Pages.{distance};
ghost use Rattle.plat_base.specs.Seen.{machine};
ghost use Rattle.plat_cost.specs.Distances.{AreDistances, IsRowFrom};

use plat_base::{Config, MODULES};
use plat_policy::distance;

/// The most nodes of a machine.
pub(crate) const NODES: usize = MODULES as usize;

/// For each node the distances from it to each node.
pub(crate) type Distances = [[u32; NODES]; NODES];

/// The distances of a machine.
pub(crate) fn distances(cfg: &Config) -> Distances
    ensures { AreDistances (machine cfg.now) result }
{
    let mut rows = [[0; NODES]; NODES];
    for a in 0..NODES {
        rows[a] = row_from(cfg, a as u32);
    }
    rows
}

/// The distances from a node.
fn row_from(cfg: &Config, a: u32) -> [u32; NODES]
    ensures { IsRowFrom (machine cfg.now) a result }
{
    let mut row = [0; NODES];
    for b in 0..NODES {
        row[b] = distance(cfg, a, b as u32);
    }
    row
}

/// The distance from node `a` to node `b`.
pub(crate) fn way(cfg: &Config, far: &Distances, a: u32, b: u32) -> u32
    requires far { AreDistances (machine cfg.now) far.now }
    requires a { a < cfg.now.nodes }
    requires b { b < cfg.now.nodes }
    ensures way { result ≡ distance (machine cfg.now) a b }
    ensures most { result ≤ 1000 }
{
    far[a as usize][b as usize]
}

/// What it costs to carry a page to module `to` from module `from`.
pub(crate) fn carry(cfg: &Config, far: &Distances, to: u32, from: u32) -> u32
    requires far { AreDistances (machine cfg.now) far.now }
    requires to { to < cfg.now.nodes }
    requires from { from < cfg.now.nodes }
    ensures carry { result ≡ cfg.now.words * distance (machine cfg.now) to from }
    ensures most { result ≤ 64000 }
{
    cfg.words * way(cfg, far, to, from)
}
