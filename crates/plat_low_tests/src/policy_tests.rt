//! Worked decisions, on a machine of four nodes where node 3 is far from nodes 0 and 1.
ghost use Rattle.std.specs.Prelude.{◌≡◌, [], IfOk};

use plat_base::{
    Action, Cause, Config, Copies, Decision, Dir, Distance, Entries, Frame, List, OutOfMemory,
    Plan, Policy, PolicyKind, Removed, State, Verdict,
};
use plat_policy::*;
use plat_samples::{idle_guests, listed};
use std::alloc::Global;
use std::process::Abort;
use std::test::Fail;

fn no_entries(alloc: Global) -> Result<Entries, OutOfMemory>
    ensures { IfOk result (λ entries. entries.items ≡ []) }
{
    Entries::new(alloc, List::new(alloc))
}

const DISTANCES: [Distance; 2] = [Distance { a: 3, b: 0, d: 5 }, Distance { a: 3, b: 1, d: 5 }];

fn machine(alloc: Global) -> Result<Config, OutOfMemory>
    ensures { IfOk result (λ cfg. cfg.nodes ≡ 4) }
{
    let distances = listed(alloc, &DISTANCES)?;
    let entries = no_entries(alloc)?;
    let guests = idle_guests(alloc, 4)?;
    Ok(Config {
        nodes: 4,
        frames: 4,
        words: 4,
        pages: 1,
        policy: PolicyKind::Replicate,
        budget: 100,
        schedule: Plan::Robin,
        distances,
        entries,
        inits: List::new(alloc),
        guests,
    })
}

/// Frame 0 of a module.
fn frame(module: u32) -> Frame
    ensures { result ≡ record { «module» = «module»; number = 0 } }
{
    Frame { module, number: 0 }
}

#[test]
fn nearest_is_by_distance_and_then_by_module(rt: HostRuntime) -> Result<(), Fail> {
    let cfg = machine(rt.alloc())?;
    assert_eq!(rt;
        [
            distance(&cfg, 3, 3),
            distance(&cfg, 3, 1),
            distance(&cfg, 1, 3)
        ],
        [0, 5, 1]
    );
    let three = Copies::none().with(frame(0)).with(frame(1)).with(frame(2));
    assert_eq!(rt; nearest(&cfg, 3, &three), frame(2));
    assert_eq!(rt; nearest(&cfg, 1, &three), frame(1));
    let two = three.without(2);
    assert_eq!(rt; nearest(&cfg, 3, &two), frame(0));
    Ok(())
}

#[test]
fn verdicts_have_a_window(rt: HostRuntime) {
    let dir = Dir {
        state: State::Modified,
        frozen: false,
        copies: Copies::none().with(frame(1)),
    };
    let frozen = Dir {
        frozen: true,
        ..dir
    };
    let platinum = Platinum { t1: 3, t2: 64 };
    for (last, now, verdict) in [
        (None, 4, Verdict::Move),
        (Some(2), 4, Verdict::Freeze),
        (Some(2), 5, Verdict::Move),
        (Some(9), 4, Verdict::Freeze),
    ] {
        assert_eq!(rt; platinum.verdict(&dir, last, now), verdict, "at {now}");
        assert_eq!(rt; platinum.verdict(&frozen, last, now), Verdict::Stay);
        assert_eq!(rt; Place.verdict(&dir, last, now), Verdict::Stay);
        assert_eq!(rt; Replicate.verdict(&frozen, last, now), Verdict::Move);
    }
}

/// A fault or a thaw at tick 3, of a page that was last invalidated at tick 2, and what the protocol does.
#[derive(Clone, Copy)]
struct Case {
    node: u32,
    cause: Cause,
    dir: Dir,
    got: Option<Frame>,
    decision: Decision,
}

fn at(node: u32, cause: Cause, dir: &Dir, got: Option<Frame>, decision: &Decision) -> Case {
    Case {
        node,
        cause,
        dir: *dir,
        got,
        decision: *decision,
    }
}

#[tactic(auto, using(plat_policy::proofs::Asking::may))]
fn decides<P: Policy>(rt: &impl Abort, cfg: &Config, policy: &P, cases: &[Case]) {
    let (last, now) = (Some(2), 3);
    for (i, case) in cases.iter().enumerate() {
        let (node, cause, got) = (case.node, case.cause, case.got);
        assert!(rt; node < cfg.nodes);
        let may = may_decide(cfg, policy, &case.dir, last, now, node, cause, got);
        assert!(rt; may, "case {i}");
        let decision = decide(cfg, policy, &case.dir, last, now, node, cause, got);
        assert_eq!(rt; decision, case.decision, "case {i}");
    }
}

/// A page with frame 0 of each module below `modules`.
fn shared(state: State, frozen: bool, modules: u32) -> Dir {
    let mut copies = Copies::none();
    for module in 0..modules.min(4) {
        copies = copies.with(frame(module));
    }
    Dir {
        state,
        frozen,
        copies,
    }
}

/// A modified page with frame 0 of this module.
fn dirty(frozen: bool, module: u32) -> Dir {
    Dir {
        state: State::Modified,
        frozen,
        copies: Copies::none().with(frame(module % 4)),
    }
}

fn decision(action: Action, removed: Removed, after: &Dir, module: u32) -> Decision {
    Decision {
        action,
        removed,
        after: *after,
        sets_last: matches!(action, Action::Migrate | Action::Collapse),
        frame: frame(module),
    }
}

#[test]
fn reads_fill_map_and_copy(rt: HostRuntime) -> Result<(), Fail> {
    let cfg = machine(rt.alloc())?;
    let empty = shared(State::Empty, false, 0);
    let filled = Dir {
        state: State::Present1,
        ..dirty(false, 3)
    };
    let there = dirty(false, 0);
    let two = shared(State::PresentPlus, false, 2);
    let three = shared(State::PresentPlus, false, 3);
    let fill = decision(Action::Fill, Removed::Nothing, &filled, 3);
    let copy_dirty = decision(Action::Replicate, Removed::Writes, &two, 1);
    let remote = decision(Action::MapRemote, Removed::Nothing, &there, 0);
    let local = decision(Action::MapLocal, Removed::Nothing, &two, 1);
    let copy = decision(Action::Replicate, Removed::Nothing, &three, 2);
    let far = decision(Action::MapRemote, Removed::Nothing, &two, 0);
    let cases = [
        at(1, Cause::Read, &empty, Some(frame(3)), &fill),
        at(1, Cause::Read, &there, Some(frame(1)), &copy_dirty),
        at(1, Cause::Read, &there, None, &remote),
        at(1, Cause::Read, &two, None, &local),
        at(2, Cause::Read, &two, Some(frame(2)), &copy),
        at(2, Cause::Read, &two, None, &far),
    ];
    decides(&rt, &cfg, &Replicate, cases.as_slice());
    Ok(())
}

#[test]
fn writes_map_move_and_collapse(rt: HostRuntime) -> Result<(), Fail> {
    let cfg = machine(rt.alloc())?;
    let empty = shared(State::Empty, false, 0);
    let one = shared(State::Present1, false, 1);
    let three = shared(State::PresentPlus, true, 3);
    let fill = decision(Action::Fill, Removed::Nothing, &dirty(false, 3), 3);
    let local = decision(Action::MapLocal, Removed::Nothing, &dirty(false, 0), 0);
    let moved = decision(Action::Migrate, Removed::All, &dirty(false, 2), 2);
    let here = decision(Action::Collapse, Removed::All, &dirty(true, 0), 0);
    let near = decision(Action::Collapse, Removed::All, &dirty(true, 2), 2);
    let moved_many = decision(Action::Migrate, Removed::All, &dirty(true, 3), 3);
    let cases = [
        at(1, Cause::Write, &empty, Some(frame(3)), &fill),
        at(0, Cause::Write, &one, None, &local),
        at(2, Cause::Write, &one, Some(frame(2)), &moved),
        at(0, Cause::Write, &three, None, &here),
        at(3, Cause::Write, &three, None, &near),
        at(3, Cause::Write, &three, Some(frame(3)), &moved_many),
    ];
    decides(&rt, &cfg, &Replicate, cases.as_slice());
    Ok(())
}

#[test]
fn a_recent_page_freezes_until_its_thaw(rt: HostRuntime) -> Result<(), Fail> {
    let cfg = machine(rt.alloc())?;
    let recent = dirty(false, 0);
    let frozen = dirty(true, 0);
    let thawed = shared(State::Present1, false, 1);
    let remote = decision(Action::MapRemote, Removed::Nothing, &frozen, 0);
    let thaw = decision(Action::Thaw, Removed::All, &thawed, 0);
    let cases = [
        at(1, Cause::Write, &recent, None, &remote),
        at(2, Cause::Read, &frozen, None, &remote),
        at(0, Cause::Thaw, &frozen, None, &thaw),
    ];
    decides(&rt, &cfg, &Platinum { t1: 10, t2: 64 }, cases.as_slice());
    Ok(())
}
