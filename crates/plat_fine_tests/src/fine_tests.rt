//! Runs event by event, whose words, items and ends were worked out from the rules of single operations.
ghost use Rattle.std.specs.Prelude.{◌≡◌, ◌<◌, ◌∷◌, [], IsTrue};
ghost use Rattle.plat_base.specs.Canon.{is_short};
ghost use Rattle.plat_base.specs.Machine.{is_machine};
ghost use Rattle.plat_samples.specs.Samples.{guest, two_nodes};

use plat_base::{
    Access, Action, Applied, Cause, Change, Copies, Dir, End, Ended, Frame, Grant, Instr, Item,
    Kind, Message, Moment, OutOfMemory, PolicyKind, Removed, Right, State, Switch,
};
use plat_fine::*;
use plat_samples::{guest, two_nodes};
use std::alloc::Global;
use std::test::Fail;

// ---- machines

/// The run of two guests of such code, before its first event.
fn run(
    alloc: Global,
    policy: PolicyKind,
    start: u32,
    first: &[Instr],
    second: &[Instr],
) -> Result<Fine, OutOfMemory>
    requires limits { let guests = guest first.now [] ∷ guest second.now [] ∷ []
        in IsTrue (is_machine (two_nodes policy 100 start guests)) }
    requires short { let guests = guest first.now [] ∷ guest second.now [] ∷ []
        in IsTrue (is_short (two_nodes policy 100 start guests)) }
{
    let first = guest(alloc, first)?;
    let second = guest(alloc, second)?;
    let cfg = two_nodes(alloc, policy, 100, start, first, second)?;
    Fine::new(alloc, cfg)
}

const LOAD: Instr = Instr::Load {
    d: 1,
    k: 0,
    i: None,
};

const STORE: Instr = Instr::Store {
    s: 0,
    k: 0,
    i: None,
};

// ---- events

/// Events of these actors, and whether none of them had ended when it came.
fn events(fine: &mut Fine, actors: &[u32]) -> bool {
    for actor in actors {
        if !fine.live(*actor) {
            return false;
        }
        fine.event(*actor);
    }
    true
}

/// So many rounds of events of these actors, and whether none of them had ended when it came.
fn rounds(fine: &mut Fine, count: u32, actors: &[u32]) -> bool {
    for _ in 0..count {
        if !events(fine, actors) {
            return false;
        }
    }
    true
}

/// Whether the words begin so, and the others are 0.
fn begin(words: &[u64], first: &[u64]) -> bool {
    match words.strip_prefix(first) {
        Some(rest) => rest.iter().all(|word| *word == 0),
        None => false,
    }
}

/// Whether a run is over, with these first words, these items, and these ends.
fn is_over(fine: &Fine, words: &[u64], items: &[Item], ends: &[Ended]) -> bool {
    let live = fine.live(0) || fine.live(1) || fine.live(2);
    !live && begin(fine.words(), words) && fine.history() == items && fine.ends() == ends
}

/// Whether a run hands out these items and ends.
fn hands_out(fine: Fine, items: &[Item], ends: &[Ended]) -> bool {
    let finished = fine.finish();
    finished.items.as_slice() == items && finished.ends.as_slice() == ends
}

// ---- items of page 0, all of whose copies are frames of number 0

fn frame(module: u32) -> Frame
    ensures { result ≡ record { «module» = «module»; number = 0 } }
{
    Frame { module, number: 0 }
}

fn empty() -> Dir {
    Dir {
        state: State::Empty,
        frozen: false,
        copies: Copies::none(),
    }
}

fn one_copy(state: State, module: u32) -> Dir
    requires { «module» < 8 }
{
    Dir {
        state,
        frozen: false,
        copies: Copies::none().with(frame(module)),
    }
}

fn grant(module: u32, right: Right) -> Option<Grant> {
    Some(Grant {
        entry: 0,
        frame: frame(module),
        right,
    })
}

/// The load of the 9 that word 0 starts with.
fn loaded(actor: u32, grant: u32) -> Item {
    Item::Access(Access {
        actor,
        kind: Kind::Load,
        space: 0,
        addr: 0,
        page: 0,
        word: 0,
        old: 9,
        new: 9,
        version: 0,
        frame: frame(1),
        grant,
    })
}

/// A store of 0 to word 0, which is 0.
fn stored(actor: u32, version: u32, grant: u32) -> Item {
    Item::Access(Access {
        actor,
        kind: Kind::Store,
        space: 0,
        addr: 0,
        page: 0,
        word: 0,
        old: 0,
        new: 0,
        version,
        frame: frame(actor),
        grant,
    })
}

/// The first copy of the page.
fn filled(actor: u32, time: u32, cause: Cause, right: Right, after: Dir) -> Item {
    Item::Change(Change {
        actor,
        page: 0,
        seq: 0,
        time,
        cause,
        action: Action::Fill,
        removed: Removed::Nothing,
        before: empty(),
        after,
        granted: grant(actor, right),
    })
}

/// The second processor reads the page, and the first one maps its copy from afar.
fn shared() -> [Item; 4] {
    [
        filled(1, 2, Cause::Read, Right::Read, one_copy(State::Present1, 1)),
        loaded(1, 0),
        Item::Change(Change {
            actor: 0,
            page: 0,
            seq: 1,
            time: 1,
            cause: Cause::Read,
            action: Action::MapRemote,
            removed: Removed::Nothing,
            before: one_copy(State::Present1, 1),
            after: one_copy(State::Present1, 1),
            granted: grant(1, Right::Read),
        }),
        loaded(0, 1),
    ]
}

/// The first processor writes the page, which moves to the second one then.
fn moved() -> [Item; 8] {
    [
        filled(
            0,
            1,
            Cause::Write,
            Right::Write,
            one_copy(State::Modified, 0),
        ),
        stored(0, 1, 0),
        stored(0, 2, 0),
        stored(0, 3, 0),
        Item::Applied(Applied {
            actor: 0,
            entry: 0,
            message: Message::Invalidate,
            moment: Moment::Interrupt,
        }),
        Item::Change(Change {
            actor: 1,
            page: 0,
            seq: 1,
            time: 2,
            cause: Cause::Write,
            action: Action::Migrate,
            removed: Removed::All,
            before: one_copy(State::Modified, 0),
            after: one_copy(State::Modified, 1),
            granted: grant(1, Right::Write),
        }),
        stored(1, 4, 1),
        stored(1, 5, 1),
    ]
}

fn halted(turns: u32) -> Ended {
    Ended {
        end: End::Halted,
        turns,
    }
}

// ---- runs

#[test]
fn two_guests_switch_and_end(rt: HostRuntime) -> Result<(), Fail> {
    let code = [Instr::Switch(3)];
    let mut fine = run(rt.alloc(), PolicyKind::Place, 0, &code, &code)?;
    assert!(rt; rounds(&mut fine, 3, &[0]) && rounds(&mut fine, 6, &[1]));
    let halfway = [3, 2, 4, 0, 0, 0, 0, 0, 0, 15, 15];
    assert!(rt; fine.config().nodes == 2 && begin(fine.words(), &halfway));
    assert!(rt; rounds(&mut fine, 4, &[0]) && rounds(&mut fine, 1, &[1]));
    let words = [4, 0, 0, 0, 0, 0, 0, 0, 0, 15, 15];
    let items = [
        Item::Switch(Switch { actor: 0, space: 3 }),
        Item::Switch(Switch { actor: 1, space: 3 }),
    ];
    assert!(rt; is_over(&fine, &words, &items, &[halted(2), halted(2)]));
    assert!(rt; hands_out(fine, &items, &[halted(2), halted(2)]));
    Ok(())
}

/// The actors of a run in which both processors fault on the page at once.
const AT_ONCE: [u32; 42] = [
    0, 0, 1, 1, 1, 0, 1, 0, 1, 0, 1, 0, 1, 0, 1, 0, 1, 0, 1, 0, 1, 0, 1, 0, 1, 0, 1, 0, 1, 0, 1, 0,
    1, 0, 1, 0, 1, 0, 1, 0, 0, 0,
];

#[test]
fn one_fills_and_one_waits(rt: HostRuntime) -> Result<(), Fail> {
    let first = [LOAD, Instr::Halt];
    let second = [LOAD, Instr::Print(1), Instr::Halt];
    let mut fine = run(rt.alloc(), PolicyKind::Place, 9, &first, &second)?;
    assert!(rt; events(&mut fine, &AT_ONCE));
    let words = [
        5, 0, 0, 0, 0, 0, 513, 8589934592, 3, 15, 14, 0, 0, 0, 0, 0, 0, 0, 0, 0, 0, 0, 0, 0, 0, 0,
        0, 9,
    ];
    assert!(rt; is_over(&fine, &words, &shared(), &[halted(2), halted(3)]));
    Ok(())
}

/// A word of value 0 that was written three times.
const THIRD: u64 = 12884901888;

/// A word of value 0 that was written five times.
const FIFTH: u64 = 21474836480;

#[test]
fn a_page_moves_beside_the_daemon(rt: HostRuntime) -> Result<(), Fail> {
    let first = [STORE, STORE, STORE, Instr::Halt];
    let second = [STORE, STORE, Instr::Halt];
    let policy = PolicyKind::Platinum { t1: 10, t2: 64 };
    let mut fine = run(rt.alloc(), policy, 0, &first, &second)?;
    let made = rounds(&mut fine, 28, &[0, 1, 2])
        && events(&mut fine, &[0])
        && rounds(&mut fine, 21, &[1, 2]);
    assert!(rt; made);
    let words = [
        7, 0, 0, 0, 0, 0, 515, 8589934595, 2, 15, 14, THIRD, 0, 0, 0, 0, 0, 0, 0, 0, 0, 0, 0, 0, 0,
        0, 0, FIFTH,
    ];
    assert!(rt; is_over(&fine, &words, &moved(), &[halted(4), halted(3)]));
    Ok(())
}
