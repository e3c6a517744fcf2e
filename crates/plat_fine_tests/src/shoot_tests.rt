//! A shootdown of a page whose translations both processors of a machine have, operation by operation. Two nodes and one
//! entry, of space 0: the words of the active spaces stand at 2 and 3, those of interrupts at 4 and 5, and the mask at 8.
ghost use Rattle.std.specs.Prelude.{◌≡◌, IfOk};
ghost use Rattle.plat_base.specs.Seen.{machine};
ghost use Rattle.plat_shoot.specs.ShootSeen.{ShootsOn};

use plat_base::{Config, Op, OutOfMemory, PolicyKind, Removed};
use plat_samples::{Sizes, entry, idle_nodes};
use plat_shoot::*;
use std::alloc::Global;
use std::test::Fail;

fn two_nodes(alloc: Global) -> Result<Config, OutOfMemory>
    ensures nodes { IfOk result (λ cfg. cfg.nodes ≡ 2) }
    ensures pages { IfOk result (λ cfg. cfg.pages ≡ 1) }
{
    let sizes = Sizes {
        nodes: 2,
        frames: 1,
        pages: 1,
        budget: 10,
    };
    idle_nodes(alloc, sizes, PolicyKind::Replicate, &[entry(0, 0)], &[])
}

/// What the shootdown needs, and what it takes of the actor's own translations where that is an operation and finds `old`.
fn called(shoot: &mut Shoot, cfg: &Config, old: u64) -> (Need, Own)
    requires { ShootsOn (machine cfg.now) shoot.old }
    ensures { ShootsOn (machine cfg.now) shoot.new }
{
    let need = shoot.next(cfg);
    let own = match need {
        Need::Word { .. } => shoot.after(cfg, old),
        Need::Poll => {
            shoot.polled();
            Own::Nothing
        }
        Need::Finished => Own::Nothing,
    };
    (need, own)
}

/// Whether the shootdown needs these in turn, where each that is an operation finds what stands before it, and takes what stands
/// behind it of the actor's own translations.
fn needs(shoot: &mut Shoot, cfg: &Config, course: &[(u64, Need, Own)]) -> bool
    requires { ShootsOn (machine cfg.now) shoot.old }
    ensures { ShootsOn (machine cfg.now) shoot.new }
{
    for step in course {
        let (need, own) = called(shoot, cfg, step.0);
        if need != step.1 || own != step.2 {
            return false;
        }
    }
    true
}

fn word(at: usize, op: Op) -> Need {
    Need::Word { at, op }
}

#[test]
fn a_target_is_interrupted_and_waited_for(rt: HostRuntime) -> Result<(), Fail> {
    let cfg = two_nodes(rt.alloc())?;
    let mut shoot = Shoot::start(&cfg, 0, 0, Removed::All);
    let post = Op::Exchange { old: 3, new: 514 };
    let course = [
        (3, word(8, Op::Load), Own::Nothing),
        (3, word(8, post), Own::Dropped(0)),
        (1, word(3, Op::Load), Own::Nothing),
        (0, word(5, Op::Or(1)), Own::Nothing),
        (514, word(8, Op::Load), Own::Nothing),
        (1, word(3, Op::Load), Own::Nothing),
        (0, Need::Poll, Own::Nothing),
        (0, word(8, Op::Load), Own::Nothing),
        (0, Need::Finished, Own::Nothing),
    ];
    assert!(rt; needs(&mut shoot, &cfg, &course));
    Ok(())
}

#[test]
fn the_daemon_lowers_nothing_of_its_own_and_has_no_poll(rt: HostRuntime) -> Result<(), Fail> {
    let cfg = two_nodes(rt.alloc())?;
    let mut shoot = Shoot::start(&cfg, 2, 0, Removed::Writes);
    let first = Op::Exchange {
        old: 3,
        new: 196_611,
    };
    let second = Op::Exchange {
        old: 2,
        new: 131_074,
    };
    let course = [
        (3, word(8, Op::Load), Own::Nothing),
        (2, word(8, first), Own::Nothing),
        (2, word(8, second), Own::Nothing),
        (1, word(3, Op::Load), Own::Nothing),
        (0, word(5, Op::Or(1)), Own::Nothing),
        (131_074, word(8, Op::Load), Own::Nothing),
        (1, word(3, Op::Load), Own::Nothing),
        (131_074, word(8, Op::Load), Own::Nothing),
        (0, word(3, Op::Load), Own::Nothing),
        (0, Need::Finished, Own::Nothing),
    ];
    assert!(rt; needs(&mut shoot, &cfg, &course));
    Ok(())
}
