//! Two sessions, operation by operation: a fill on a machine of one node, and a migration whose target is in another space.
ghost use Rattle.std.specs.Prelude.{◌≡◌, [], ◌∷◌, IfOk, Some};
ghost use Rattle.plat_base.specs.Seen.{machine};
ghost use Rattle.plat_handler.specs.HandlerSeen.{HandlesOn};

use plat_base::{
    Action, Cause, Change, Config, Copies, Dir, Frame, Grant, Op, OutOfMemory, PolicyKind, Removed,
    Right, State,
};
use plat_handler::*;
use plat_samples::{Sizes, entry, idle_nodes};
use std::alloc::Global;
use std::test::Fail;

/// The directory of the page stands at 4, its stamp at 5, the mask at 6, the pool at 7, and its frame at 8.
fn one_node(alloc: Global) -> Result<Config, OutOfMemory>
    ensures nodes { IfOk result (λ cfg. cfg.nodes ≡ 1) }
    ensures pages { IfOk result (λ cfg. cfg.pages ≡ 1) }
    ensures entries { IfOk result (λ cfg. cfg.entries.items
        ≡ record { space = 0; vpage = 0; page = 0 } ∷ []) }
{
    let sizes = Sizes {
        nodes: 1,
        frames: 1,
        pages: 1,
        budget: 10,
    };
    idle_nodes(alloc, sizes, PolicyKind::Place, &[entry(0, 0)], &[])
}

/// The active spaces stand at 2 and 3, the directory of the page at 6, its stamp at 7, the mask at 8, the pools at 9 and 10,
/// the first frame of module 0 at 11, and that of module 1 at 27.
fn two_nodes(alloc: Global) -> Result<Config, OutOfMemory>
    ensures nodes { IfOk result (λ cfg. cfg.nodes ≡ 2) }
    ensures pages { IfOk result (λ cfg. cfg.pages ≡ 1) }
    ensures entries { IfOk result (λ cfg. cfg.entries.items
        ≡ record { space = 0; vpage = 0; page = 0 } ∷ []) }
{
    let sizes = Sizes {
        nodes: 2,
        frames: 4,
        pages: 1,
        budget: 100,
    };
    idle_nodes(alloc, sizes, PolicyKind::Replicate, &[entry(0, 0)], &[])
}

/// What the handler asks, and what it takes of the actor's own translations where that is an operation and finds `old`.
fn called(handler: &mut Handler, cfg: &Config, old: u64) -> (Ask, Own)
    requires { HandlesOn (machine cfg.now) handler.old }
    ensures { HandlesOn (machine cfg.now) handler.new }
{
    let ask = handler.next(cfg);
    match ask {
        Ask::Word { .. } => (ask, handler.after(cfg, old)),
        Ask::Poll => {
            handler.polled();
            (ask, Own::Nothing)
        }
        _ => (ask, Own::Nothing),
    }
}

/// Whether the handler asks these in turn, where each that is an operation finds what stands before it, and takes nothing of the
/// actor's own translations.
fn asks(handler: &mut Handler, cfg: &Config, course: &[(u64, Ask)]) -> bool
    requires { HandlesOn (machine cfg.now) handler.old }
    ensures { HandlesOn (machine cfg.now) handler.new }
{
    for step in course {
        let (ask, own) = called(handler, cfg, step.0);
        if ask != step.1 || own != Own::Nothing {
            return false;
        }
    }
    true
}

fn word(at: usize, op: Op) -> Ask {
    Ask::Word { at, op }
}

/// A directory with the first frame of one module.
fn single(state: State, module: u32) -> Dir {
    let copies = Copies::none().with(Frame {
        module: module % 8,
        number: 0,
    });
    Dir {
        state,
        frozen: false,
        copies,
    }
}

/// The grant of the first frame of module 0 for a write.
fn write_grant() -> Grant {
    let frame = Frame {
        module: 0,
        number: 0,
    };
    Grant {
        entry: 0,
        frame,
        right: Right::Write,
    }
}

/// A write through the entry.
fn write() -> Fault
    ensures { result ≡ record { entry = Some 0; page = 0; cause = Cause.Write } }
{
    Fault {
        entry: Some(0),
        page: 0,
        cause: Cause::Write,
    }
}

/// Whether the handler has installed the translation of the grant, as it stands behind the page's first change.
fn has_installed(handler: &Handler, cfg: &Config) -> bool
    requires { HandlesOn (machine cfg.now) handler.now }
{
    match handler.installed(cfg) {
        Some(it) => it.grant == write_grant() && it.seq == 0 && !it.restricted,
        None => false,
    }
}

#[test]
fn an_empty_page_is_filled(rt: HostRuntime) -> Result<(), Fail> {
    let cfg = one_node(rt.alloc())?;
    let mut handler = Handler::start(&cfg, 0, write(), 2);
    let course = [
        (0, word(4, Op::Or(8))),
        (0, word(5, Op::Load)),
        (1, word(7, Op::Load)),
        (1, word(7, Op::Exchange { old: 1, new: 0 })),
        (0, word(8, Op::Store(0))),
        (0, word(9, Op::Store(0))),
        (0, word(10, Op::Store(0))),
        (0, word(11, Op::Store(0))),
        (0, word(5, Op::Store(4_294_967_296))),
        (0, word(6, Op::Or(1))),
        (0, word(4, Op::Store(259))),
    ];
    assert!(rt; asks(&mut handler, &cfg, &course));
    let before = Dir {
        state: State::Empty,
        frozen: false,
        copies: Copies::none(),
    };
    let change = Change {
        actor: 0,
        page: 0,
        seq: 0,
        time: 2,
        cause: Cause::Write,
        action: Action::Fill,
        removed: Removed::Nothing,
        before,
        after: single(State::Modified, 0),
        granted: Some(write_grant()),
    };
    assert!(rt; handler.next(&cfg) == Ask::Granted(change) && has_installed(&handler, &cfg));
    Ok(())
}

#[test]
fn a_page_migrates_though_its_target_is_elsewhere(rt: HostRuntime) -> Result<(), Fail> {
    let cfg = two_nodes(rt.alloc())?;
    let mut handler = Handler::start(&cfg, 0, write(), 3);
    let course = [
        (521, word(6, Op::Or(8))),
        (0, Ask::Poll),
        (513, word(6, Op::Or(8))),
        (4_294_967_296, word(7, Op::Load)),
        (15, word(9, Op::Load)),
        (15, word(9, Op::Exchange { old: 15, new: 14 })),
        (2, word(8, Op::Load)),
        (2, word(8, Op::Exchange { old: 2, new: 514 })),
        (2, word(3, Op::Load)),
        (0, word(27, Op::Load)),
        (0, word(11, Op::Store(0))),
        (5, word(28, Op::Load)),
        (0, word(12, Op::Store(5))),
        (0, word(29, Op::Load)),
        (0, word(13, Op::Store(0))),
        (0, word(30, Op::Load)),
        (0, word(14, Op::Store(0))),
        (14, word(10, Op::Or(1))),
        (0, word(7, Op::Store(8_589_934_596))),
        (0, word(8, Op::Or(1))),
        (0, word(6, Op::Store(259))),
    ];
    assert!(rt; asks(&mut handler, &cfg, &course));
    let change = Change {
        actor: 0,
        page: 0,
        seq: 1,
        time: 3,
        cause: Cause::Write,
        action: Action::Migrate,
        removed: Removed::All,
        before: single(State::Present1, 1),
        after: single(State::Modified, 0),
        granted: Some(write_grant()),
    };
    assert_eq!(rt; handler.next(&cfg), Ask::Granted(change));
    Ok(())
}
