//! Free frames: those that no directory names.
ghost use Rattle.std.specs.Prelude.{◌≡◌, ℕ, ◌<◌, ◌==◌, if◌then◌else◌};
ghost use Rattle.std.specs.Int.{bit_at};
ghost use Rattle.plat_base.specs.Frames.{is_used, free_frame, nearest_free};
ghost use Rattle.plat_base.specs.declared.limits.TheConstants.{MODULES, FRAMES};
ghost use Rattle.plat_coarse.specs.Nearer.{nearer_of};

use plat_base::{FRAMES, Frame};
use plat_chronicle::Chronicle;
use plat_policy::distance;

/// The set with this number, if it is below 64: the bit of each number in it is set.
fn with_number(set: u64, number: u32) -> u64
    ensures { (n : ℕ) → n < FRAMES → bit_at result n ≡ (if number == n then 1 else bit_at set n) }
{
    if number < FRAMES {
        set | 1 << number
    } else {
        set
    }
}

/// The set of the numbers of a module's frames that are copies of pages.
fn used_numbers(chronicle: &Chronicle, module: u32) -> u64
    requires { «module» < MODULES }
    ensures { (number : ℕ) → number < FRAMES →
        (bit_at result number == 1) ≡ is_used chronicle.now.machine chronicle.now.items «module» number }
{
    let mut used = 0;
    for page in 0..chronicle.config().pages {
        if let Some(frame) = chronicle.dir(page).copies.on(module) {
            used = with_number(used, frame.number);
        }
    }
    used
}

/// The free frame of a module that has the lowest number.
pub fn free_frame(chronicle: &Chronicle, module: u32) -> Option<Frame>
    requires { «module» < MODULES }
    ensures { result ≡ free_frame chronicle.now.machine chronicle.now.items «module» }
{
    let number = used_numbers(chronicle, module).trailing_ones();
    if number < chronicle.config().frames {
        Some(Frame { module, number })
    } else {
        None
    }
}

/// The lowest free frame of the nearest module that has one.
pub fn nearest_free(chronicle: &Chronicle, node: u32) -> Option<Frame>
    ensures { result ≡ nearest_free chronicle.now.machine chronicle.now.items node }
{
    let mut best: Option<Frame> = None;
    for module in 0..chronicle.config().nodes {
        if let Some(frame) = free_frame(chronicle, module) {
            best = Some(nearer(chronicle, node, best, frame));
        }
    }
    best
}

/// The frame where it is nearer to the node than the best so far, or the first; else the best so far.
fn nearer(chronicle: &Chronicle, node: u32, best: Option<Frame>, frame: Frame) -> Frame
    ensures { result ≡ nearer_of chronicle.now.machine node best frame }
{
    match best {
        None => frame,
        Some(best) => {
            let cfg = chronicle.config();
            if distance(cfg, node, frame.module) < distance(cfg, node, best.module) {
                frame
            } else {
                best
            }
        }
    }
}
