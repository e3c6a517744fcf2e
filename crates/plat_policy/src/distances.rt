//! How far a node is from another, and which copy of a page is nearest to a node.
ghost use Rattle.std.specs.Prelude.{◌≡◌, ◌<◌, ◌==◌, ◌&&◌, length, find};
ghost use Rattle.plat_base.specs.Copies.{AreCopies};
ghost use Rattle.plat_base.specs.Decide.{nearest, nearer, first_frame};
ghost use Rattle.plat_base.specs.Pages.{distance};
ghost use Rattle.plat_base.specs.Seen.{machine};

use plat_base::{Config, Copies, Distance, Frame, MODULES};

/// The distance from node `a` to node `b`.
pub fn distance(cfg: &Config, a: u32, b: u32) -> u32
    ensures { result ≡ distance (machine cfg.now) a b }
{
    if a == b {
        return 0;
    }
    match line_between(cfg, a, b) {
        Some(line) => line.d,
        None => 1,
    }
}

/// What the machine text says of the distance from node `a` to node `b`, if anything.
fn line_between(cfg: &Config, a: u32, b: u32) -> Option<Distance>
    ensures { result ≡ find (λ d. d.a == a && d.b == b) cfg.now.distances.items }
{
    cfg.distances
        .as_slice()
        .iter()
        .copied()
        .find(|line| line.a == a && line.b == b)
}

/// The copy that is nearest to `node`: of the least distance, then on the lowest module.
#[tactic(auto, using(crate::proofs::Walks::walks))]
pub fn nearest(cfg: &Config, node: u32, copies: &Copies) -> Frame
    requires node { node < cfg.now.nodes }
    requires one { 0 < length copies.now }
    ensures { result ≡ nearest (machine cfg.now) node copies.now }
{
    let mut best = lowest(copies);
    for module in best.module + 1..MODULES {
        if let Some(frame) = copies.on(module) {
            best = nearer(cfg, node, best, frame);
        }
    }
    best
}

/// `frame` where it is nearer to `node` than `best`, else `best`.
fn nearer(cfg: &Config, node: u32, best: Frame, frame: Frame) -> Frame
    ensures { result ≡ nearer (machine cfg.now) node best frame }
{
    if distance(cfg, node, frame.module) < distance(cfg, node, best.module) {
        frame
    } else {
        best
    }
}

/// The copy on the lowest module.
#[tactic(auto, using(crate::proofs::Walks::walks))]
pub(crate) fn lowest(copies: &Copies) -> Frame
    requires { 0 < length copies.now }
    ensures first { result ≡ first_frame copies.now }
    ensures rising { AreCopies copies.now }
{
    let count = copies.count();
    prove!(count > 0);
    for module in 0..MODULES {
        if let Some(frame) = copies.on(module) {
            return frame;
        }
    }
    unreachable!()
}
