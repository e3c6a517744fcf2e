//! Runs of small machines, whose items were worked out by hand from the rules of the protocol.
ghost use Rattle.std.specs.Prelude.{◌≡◌, ◌<◌, ◌∷◌, [], IfOk, IsTrue, None};
ghost use Rattle.plat_base.specs.Machine.{is_machine, program_seen, programs_seen};
ghost use Rattle.plat_base.specs.Canon.{is_short};
ghost use Rattle.plat_base.specs.Seen.{machine};
ghost use Rattle.plat_base.specs.declared.policies.PolicyKind.TheVariants as policy;
ghost use Rattle.plat_coarse_tests.specs.CoarseTried.{labelled, spin_label, trio_guests, tried};

use plat_base::{
    Access, Action, Applied, Cause, Change, Config, Copies, Dir, End, Ended, Frame, Grant,
    GuestText, Init, Instr, Item, Kind, Label, List, Message, Moment, Name, OutOfMemory, Policy,
    PolicyKind, Removed, Right, State, Switch,
};
use plat_coarse::{Coarse, Turned, most_turns};
use plat_samples::{AtMost, Sizes, entry, listed, one_guest, small, three_guests, two_guests};
use std::alloc::Global;
use std::test::Fail;

// ---- machines

fn spin_label(alloc: Global, spin: Option<u32>) -> Result<List<Label>, OutOfMemory>
    ensures { IfOk result (λ labels. labels.items ≡ spin_label spin) }
{
    let mut labels = List::with_room(alloc, 1)?;
    if let Some(at) = spin {
        labels.push(Label {
            name: Name::new(b"spin"),
            at,
        });
    }
    Ok(labels)
}

fn labelled(alloc: Global, code: &[Instr], spin: Option<u32>) -> Result<GuestText, OutOfMemory>
    ensures { IfOk result (λ text. program_seen text ≡ labelled code.now spin) }
{
    Ok(GuestText {
        space: 0,
        code: listed(alloc, code)?,
        labels: spin_label(alloc, spin)?,
    })
}

fn config(
    alloc: Global,
    nodes: u32,
    frames: u32,
    policy: PolicyKind,
    start: u32,
    guests: List<GuestText>,
) -> Result<Config, OutOfMemory>
    requires limits { IsTrue (is_machine (tried nodes frames policy start (programs_seen guests.items))) }
    requires short { IsTrue (is_short (tried nodes frames policy start (programs_seen guests.items))) }
    ensures { IfOk result (λ cfg. machine cfg
        ≡ tried nodes frames policy start (programs_seen guests.items)) }
{
    let init = Init {
        page: 0,
        word: 0,
        value: start,
    };
    let sizes = Sizes {
        nodes,
        frames,
        pages: 2,
        budget: 100,
    };
    let entries = [entry(0, 0), entry(1, 1)];
    small(alloc, sizes, policy, &entries, &[init], guests)
}

// One node, with so many frames.
fn alone(alloc: Global, frames: u32, code: &[Instr]) -> Result<Coarse, OutOfMemory>
    requires limits { IsTrue (is_machine (tried 1 frames policy.Place 0 (labelled code.now None ∷ []))) }
    requires short { IsTrue (is_short (tried 1 frames policy.Place 0 (labelled code.now None ∷ []))) }
    ensures { IfOk result (λ coarse. coarse.machine.nodes ≡ 1) }
{
    let guests = one_guest(alloc, labelled(alloc, code, None)?)?;
    let cfg = config(alloc, 1, frames, PolicyKind::Place, 0, guests)?;
    Coarse::new(alloc, cfg)
}

// Two nodes of four frames each.
fn pair(
    alloc: Global,
    policy: PolicyKind,
    start: u32,
    spin: Option<u32>,
    first: &[Instr],
    second: &[Instr],
) -> Result<Coarse, OutOfMemory>
    requires limits { IsTrue (is_machine
        (tried 2 4 policy start (labelled first.now spin ∷ labelled second.now None ∷ []))) }
    requires short { IsTrue (is_short
        (tried 2 4 policy start (labelled first.now spin ∷ labelled second.now None ∷ []))) }
{
    let first = labelled(alloc, first, spin)?;
    let second = labelled(alloc, second, None)?;
    let guests = two_guests(alloc, first, second)?;
    let cfg = config(alloc, 2, 4, policy, start, guests)?;
    Coarse::new(alloc, cfg)
}

// Three nodes of four frames each, whose text says that pages stay, under another policy.
fn trio(
    alloc: Global,
    given: AtMost,
    first: &[Instr],
    others: &[Instr],
) -> Result<Coarse<AtMost>, OutOfMemory>
    requires limits { IsTrue (is_machine (tried 3 4 policy.Place 9 (trio_guests first.now others.now))) }
    requires short { IsTrue (is_short (tried 3 4 policy.Place 9 (trio_guests first.now others.now))) }
{
    let first = labelled(alloc, first, None)?;
    let second = labelled(alloc, others, None)?;
    let third = labelled(alloc, others, None)?;
    let guests = three_guests(alloc, first, second, third)?;
    let cfg = config(alloc, 3, 4, PolicyKind::Place, 9, guests)?;
    Coarse::under(alloc, cfg, given)
}

// The turns of these processors in this order; one that has ended is passed over.
fn run<P: Policy>(coarse: &mut Coarse<P>, order: &[u32])
    ensures { coarse.new.machine ≡ coarse.old.machine }
{
    for q in order {
        if *q < coarse.config().nodes && coarse.live(*q) {
            coarse.turn(*q);
        }
    }
}

// A worked run: turns in this order, and what they come to behind the items that were made before.
#[derive(Clone, Copy)]
struct Worked<'a> {
    order: &'a [u32],
    before: &'a [Item],
    items: &'a [Item],
    ends: &'a [Ended],
}

// Whether a run comes to what was worked out.
fn comes_to<P: Policy>(coarse: &mut Coarse<P>, worked: &Worked<'_>) -> bool {
    run(coarse, worked.order);
    coarse.history().strip_prefix(worked.before) == Some(worked.items)
        && coarse.ends() == worked.ends
}

// Whether a run on two nodes of four frames each, whose guests have no label, comes to what was worked out.
fn pair_comes_to(
    alloc: Global,
    policy: PolicyKind,
    start: u32,
    first: &[Instr],
    second: &[Instr],
    worked: &Worked<'_>,
) -> Result<bool, OutOfMemory>
    requires limits { IsTrue (is_machine
        (tried 2 4 policy start (labelled first.now None ∷ labelled second.now None ∷ []))) }
    requires short { IsTrue (is_short
        (tried 2 4 policy start (labelled first.now None ∷ labelled second.now None ∷ []))) }
{
    let mut coarse = pair(alloc, policy, start, None, first, second)?;
    Ok(comes_to(&mut coarse, worked))
}

// Whether a run on one node hands out these items and ends.
fn hands_out(coarse: Coarse, items: &[Item], ends: &[Ended]) -> bool {
    let finished = coarse.finish();
    finished.cfg.nodes == 1
        && finished.items.as_slice() == items
        && finished.ends.as_slice() == ends
}

// ---- instructions

const LOAD: Instr = Instr::Load {
    d: 1,
    k: 0,
    i: None,
};

const LOAD_NEXT_PAGE: Instr = Instr::Load {
    d: 1,
    k: 4,
    i: None,
};

const STORE: Instr = Instr::Store {
    s: 1,
    k: 0,
    i: None,
};

const CLEAR: Instr = Instr::Store {
    s: 0,
    k: 0,
    i: None,
};

// ---- directories of page 0, all of whose copies are frames of number 0

fn frame(module: u32) -> Frame
    ensures { result ≡ record { «module» = «module»; number = 0 } }
{
    Frame { module, number: 0 }
}

fn empty() -> Dir {
    Dir {
        state: State::Empty,
        frozen: false,
        copies: Copies::none(),
    }
}

fn one_copy(state: State, node: u32) -> Dir
    requires { node < 8 }
{
    Dir {
        state,
        frozen: false,
        copies: Copies::none().with(frame(node)),
    }
}

fn two_copies() -> Dir {
    Dir {
        state: State::PresentPlus,
        frozen: false,
        copies: Copies::none().with(frame(0)).with(frame(1)),
    }
}

fn frozen() -> Dir {
    Dir {
        frozen: true,
        ..one_copy(State::Modified, 1)
    }
}

// ---- items, all of word 0 of page 0 and of entry 0

fn grant(module: u32, right: Right) -> Option<Grant> {
    Some(Grant {
        entry: 0,
        frame: frame(module),
        right,
    })
}

fn changed(
    actor: u32,
    seq: u32,
    time: u32,
    how: (Cause, Action, Removed),
    before: Dir,
    after: Dir,
    granted: Option<Grant>,
) -> Item {
    let (cause, action, removed) = how;
    Item::Change(Change {
        actor,
        page: 0,
        seq,
        time,
        cause,
        action,
        removed,
        before,
        after,
        granted,
    })
}

// The fill of a page on the actor's node.
fn filled(actor: u32, time: u32, right: Right) -> Item
    requires { actor < 8 }
{
    let (cause, state) = match right {
        Right::Read => (Cause::Read, State::Present1),
        Right::Write => (Cause::Write, State::Modified),
    };
    let how = (cause, Action::Fill, Removed::Nothing);
    let granted = grant(actor, right);
    changed(
        actor,
        0,
        time,
        how,
        empty(),
        one_copy(state, actor),
        granted,
    )
}

// The page migrates to the actor's node.
fn migrated(actor: u32, seq: u32, time: u32, before: Dir) -> Item
    requires { actor < 8 }
{
    let how = (Cause::Write, Action::Migrate, Removed::All);
    let after = one_copy(State::Modified, actor);
    changed(
        actor,
        seq,
        time,
        how,
        before,
        after,
        grant(actor, Right::Write),
    )
}

// The page gets a second copy, on the actor's node.
fn copied(actor: u32, seq: u32, time: u32, removed: Removed, before: Dir) -> Item {
    let how = (Cause::Read, Action::Replicate, removed);
    let granted = grant(actor, Right::Read);
    changed(actor, seq, time, how, before, two_copies(), granted)
}

// Processor 0 maps the page, which is on node 1, from afar, and freezes it.
fn froze(time: u32) -> Item {
    let how = (Cause::Write, Action::MapRemote, Removed::Nothing);
    let before = one_copy(State::Modified, 1);
    changed(0, 2, time, how, before, frozen(), grant(1, Right::Write))
}

// The actor maps the page's copy on node 0 from afar; its copies stay as they are.
fn mapped(actor: u32, seq: u32, time: u32, before: Dir, after: Dir) -> Item {
    let how = (Cause::Read, Action::MapRemote, Removed::Nothing);
    changed(actor, seq, time, how, before, after, grant(0, Right::Read))
}

// Processor 0 keeps its copy of two, to write it.
fn collapsed(seq: u32, time: u32) -> Item {
    let how = (Cause::Write, Action::Collapse, Removed::All);
    let after = one_copy(State::Modified, 0);
    changed(
        0,
        seq,
        time,
        how,
        two_copies(),
        after,
        grant(0, Right::Write),
    )
}

// The daemon thaws the page, whose copy is on node 1.
fn thawed(seq: u32, time: u32) -> Item {
    let how = (Cause::Thaw, Action::Thaw, Removed::All);
    let after = one_copy(State::Present1, 1);
    changed(2, seq, time, how, frozen(), after, None)
}

fn loaded(actor: u32, value: u32, version: u32, module: u32, grant: u32) -> Item {
    accessed(actor, Kind::Load, (value, value), version, module, grant)
}

fn stored(actor: u32, old: u32, new: u32, version: u32, module: u32, grant: u32) -> Item {
    accessed(actor, Kind::Store, (old, new), version, module, grant)
}

fn accessed(
    actor: u32,
    kind: Kind,
    values: (u32, u32),
    version: u32,
    module: u32,
    grant: u32,
) -> Item {
    Item::Access(Access {
        actor,
        kind,
        space: 0,
        addr: 0,
        page: 0,
        word: 0,
        old: values.0,
        new: values.1,
        version,
        frame: frame(module),
        grant,
    })
}

fn applied(actor: u32, message: Message, moment: Moment) -> Item {
    Item::Applied(Applied {
        actor,
        entry: 0,
        message,
        moment,
    })
}

fn switched(actor: u32, space: u32) -> Item {
    Item::Switch(Switch { actor, space })
}

fn halted(turns: u32) -> Ended {
    ended(End::Halted, turns)
}

fn ended(end: End, turns: u32) -> Ended {
    Ended { end, turns }
}

// Processor 0 stores 0, and then processor 1 does: at tick 2 the page migrates.
fn moved() -> [Item; 5] {
    [
        filled(0, 1, Right::Write),
        stored(0, 0, 0, 1, 0, 0),
        applied(0, Message::Invalidate, Moment::Interrupt),
        migrated(1, 1, 2, one_copy(State::Modified, 0)),
        stored(1, 0, 0, 2, 1, 1),
    ]
}

// ---- tests

#[test]
fn one_processor_fills_a_page_and_ends(rt: HostRuntime) -> Result<(), Fail> {
    let code = [
        Instr::Set { d: 1, n: 5 },
        STORE,
        LOAD,
        Instr::Print(1),
        Instr::Halt,
    ];
    let mut coarse = alone(rt.alloc(), 1, &code)?;
    let fresh = most_turns(coarse.config()) == 100 && coarse.history().is_empty();
    run(&mut coarse, &[0, 0, 0]);
    assert!(rt; fresh && coarse.live(0));
    assert_eq!(rt; coarse.turn(0), Turned::Ran);
    assert!(rt; coarse.live(0));
    assert_eq!(rt; coarse.turn(0), Turned::Ended(End::Halted));
    assert!(rt; !coarse.live(0));
    let items = [
        filled(0, 2, Right::Write),
        stored(0, 0, 5, 1, 0, 0),
        loaded(0, 5, 1, 0, 0),
    ];
    assert!(rt; hands_out(coarse, &items, &[halted(5)]));
    Ok(())
}

#[test]
fn an_empty_page_wants_a_frame(rt: HostRuntime) -> Result<(), Fail> {
    let code = [LOAD, LOAD_NEXT_PAGE, Instr::Halt];
    let mut coarse = alone(rt.alloc(), 1, &code)?;
    let items = [filled(0, 1, Right::Read), loaded(0, 0, 0, 0, 0)];
    let worked = Worked {
        order: &[0, 0],
        before: &[],
        items: &items,
        ends: &[ended(End::NoFrames, 2)],
    };
    assert!(rt; comes_to(&mut coarse, &worked));
    Ok(())
}

#[test]
fn a_page_stays_and_is_read_from_afar(rt: HostRuntime) -> Result<(), Fail> {
    let reads = [LOAD, Instr::Halt];
    let prints = [LOAD, Instr::Print(1), Instr::Halt];
    let items = [
        filled(0, 1, Right::Read),
        loaded(0, 9, 0, 0, 0),
        mapped(
            1,
            1,
            3,
            one_copy(State::Present1, 0),
            one_copy(State::Present1, 0),
        ),
        loaded(1, 9, 0, 0, 1),
    ];
    let worked = Worked {
        order: &[0, 0, 1, 1, 1],
        before: &[],
        items: &items,
        ends: &[halted(2), halted(3)],
    };
    let agrees = pair_comes_to(rt.alloc(), PolicyKind::Place, 9, &reads, &prints, &worked)?;
    assert!(rt; agrees);
    Ok(())
}

#[test]
fn the_given_policy_is_asked(rt: HostRuntime) -> Result<(), Fail> {
    let writes = [LOAD, CLEAR, Instr::Halt];
    let reads = [LOAD, Instr::Halt];
    let mut coarse = trio(rt.alloc(), AtMost { copies: 2 }, &writes, &reads)?;
    let items = [
        filled(0, 1, Right::Read),
        loaded(0, 9, 0, 0, 0),
        copied(1, 1, 2, Removed::Nothing, one_copy(State::Present1, 0)),
        loaded(1, 9, 0, 1, 1),
        mapped(2, 2, 3, two_copies(), two_copies()),
        loaded(2, 9, 0, 0, 2),
        applied(1, Message::Invalidate, Moment::Interrupt),
        applied(2, Message::Invalidate, Moment::Interrupt),
        collapsed(3, 4),
        stored(0, 9, 0, 1, 0, 3),
    ];
    let worked = Worked {
        order: &[0, 1, 2, 0],
        before: &[],
        items: &items,
        ends: &[ended(End::Cut, 2), ended(End::Cut, 1), ended(End::Cut, 1)],
    };
    assert!(rt; comes_to(&mut coarse, &worked));
    Ok(())
}

#[test]
fn translations_are_shot_down(rt: HostRuntime) -> Result<(), Fail> {
    let seven = Instr::Set { d: 1, n: 7 };
    let eight = Instr::Set { d: 1, n: 8 };
    let writes = [seven, STORE, eight, STORE, Instr::Halt];
    let reads = [LOAD, Instr::Print(1), Instr::Halt];
    let items = [
        filled(0, 2, Right::Write),
        stored(0, 0, 7, 1, 0, 0),
        applied(0, Message::Restrict, Moment::Interrupt),
        copied(1, 1, 3, Removed::Writes, one_copy(State::Modified, 0)),
        loaded(1, 7, 1, 1, 1),
        applied(1, Message::Invalidate, Moment::Interrupt),
        collapsed(2, 5),
        stored(0, 7, 8, 2, 0, 2),
    ];
    let worked = Worked {
        order: &[0, 0, 1, 0, 0, 1, 1, 0],
        before: &[],
        items: &items,
        ends: &[halted(5), halted(3)],
    };
    let agrees = pair_comes_to(
        rt.alloc(),
        PolicyKind::Replicate,
        0,
        &writes,
        &reads,
        &worked,
    )?;
    assert!(rt; agrees);
    Ok(())
}

#[test]
fn what_waits_is_applied_at_the_switch(rt: HostRuntime) -> Result<(), Fail> {
    let writes = [Instr::Set { d: 1, n: 4 }, STORE, Instr::Halt];
    let reads = [
        LOAD,
        Instr::Switch(1),
        Instr::Switch(0),
        LOAD,
        Instr::Print(1),
        Instr::Halt,
    ];
    let items = [
        filled(1, 1, Right::Read),
        loaded(1, 0, 0, 1, 0),
        switched(1, 1),
        migrated(0, 1, 4, one_copy(State::Present1, 1)),
        stored(0, 0, 4, 1, 0, 1),
        switched(1, 0),
        applied(1, Message::Invalidate, Moment::Activation),
        applied(0, Message::Restrict, Moment::Interrupt),
        copied(1, 2, 6, Removed::Writes, one_copy(State::Modified, 0)),
        loaded(1, 4, 1, 1, 2),
    ];
    let worked = Worked {
        order: &[1, 1, 0, 0, 1, 1, 1],
        before: &[],
        items: &items,
        ends: &[ended(End::Cut, 2), ended(End::Cut, 5)],
    };
    let agrees = pair_comes_to(
        rt.alloc(),
        PolicyKind::Replicate,
        0,
        &writes,
        &reads,
        &worked,
    )?;
    assert!(rt; agrees);
    Ok(())
}

#[test]
fn a_frozen_page_stays(rt: HostRuntime) -> Result<(), Fail> {
    let policy = PolicyKind::Platinum { t1: 10, t2: 64 };
    let thrice = [CLEAR, CLEAR, CLEAR, Instr::Halt];
    let twice = [CLEAR, CLEAR, Instr::Halt];
    let stays = [
        froze(3),
        stored(0, 0, 0, 3, 1, 2),
        stored(1, 0, 0, 4, 1, 1),
        stored(0, 0, 0, 5, 1, 2),
    ];
    let worked = Worked {
        order: &[0, 1, 0, 1, 0, 1, 0],
        before: &moved(),
        items: &stays,
        ends: &[halted(4), halted(3)],
    };
    let agrees = pair_comes_to(rt.alloc(), policy, 0, &thrice, &twice, &worked)?;
    assert!(rt; agrees);
    Ok(())
}

// Whether a run with a window of three ticks, after the invalidation of tick 2, comes to these items and ends.
fn windowed(
    alloc: Global,
    order: &[u32],
    items: &[Item],
    ends: &[Ended],
) -> Result<bool, OutOfMemory> {
    let policy = PolicyKind::Platinum { t1: 3, t2: 64 };
    let one = Instr::Set { d: 1, n: 1 };
    let twice = [CLEAR, CLEAR, Instr::Halt];
    let once = [CLEAR, one, one, Instr::Halt];
    let worked = Worked {
        order,
        before: &moved(),
        items,
        ends,
    };
    pair_comes_to(alloc, policy, 0, &twice, &once, &worked)
}

#[test]
fn the_window_has_an_edge(rt: HostRuntime) -> Result<(), Fail> {
    let freezes = [froze(4), stored(0, 0, 0, 3, 1, 2)];
    let ends = [ended(End::Cut, 2), ended(End::Cut, 2)];
    assert!(rt; windowed(rt.alloc(), &[0, 1, 1, 0], &freezes, &ends)?);
    let moves = [
        applied(1, Message::Invalidate, Moment::Interrupt),
        migrated(0, 2, 5, one_copy(State::Modified, 1)),
        stored(0, 0, 0, 3, 0, 2),
    ];
    let ends = [ended(End::Cut, 2), ended(End::Cut, 3)];
    assert!(rt; windowed(rt.alloc(), &[0, 1, 1, 1, 0], &moves, &ends)?);
    Ok(())
}

#[test]
fn a_thawed_page_may_be_copied(rt: HostRuntime) -> Result<(), Fail> {
    let policy = PolicyKind::Platinum { t1: 10, t2: 64 };
    let waits = [
        CLEAR,
        CLEAR,
        Instr::Set { d: 1, n: 1 },
        Instr::Set { d: 2, n: 30 },
        Instr::Add { d: 3, a: 3, b: 1 },
        Instr::Less {
            a: 3,
            b: 2,
            label: 0,
        },
        LOAD,
        Instr::Print(1),
        Instr::Halt,
    ];
    let once = [CLEAR, Instr::Halt];
    let mut coarse = pair(rt.alloc(), policy, 0, Some(4), &waits, &once)?;
    for _round in 0..67 {
        run(&mut coarse, &[0, 1]);
    }
    let thaws = [
        froze(3),
        stored(0, 0, 0, 3, 1, 2),
        applied(0, Message::Invalidate, Moment::Interrupt),
        thawed(3, 64),
        copied(0, 4, 67, Removed::Nothing, one_copy(State::Present1, 1)),
        loaded(0, 0, 3, 0, 4),
    ];
    let worked = Worked {
        order: &[],
        before: &moved(),
        items: &thaws,
        ends: &[halted(67), halted(2)],
    };
    assert!(rt; comes_to(&mut coarse, &worked));
    Ok(())
}
