//! Followers of small guests, whose turns were counted by hand.
ghost use Rattle.std.specs.Prelude.{◌≡◌, ◌∷◌, [], IfOk, IsTrue, length};
ghost use Rattle.plat_base.specs.Canon.{is_short};
ghost use Rattle.plat_base.specs.Machine.{is_machine, program_seen};
ghost use Rattle.plat_base.specs.Seen.{machine};
ghost use Rattle.plat_follow.specs.Followed.{AllStand, Stands};
ghost use Rattle.plat_coarse_tests.specs.FollowTried.{labelled, tried};

use plat_base::{
    Access, Applied, Config, End, Ended, Frame, GuestText, Instr, Item, Kind, Label, List, Message,
    Moment, Name, OutOfMemory, PolicyKind, Switch,
};
use plat_follow::{Follower, Followers, Wanted, WantedAccess};
use plat_samples::{Sizes, entry, listed, small, two_guests};
use std::alloc::Global;
use std::test::Fail;

// A guest with a label at a position.
fn labelled(alloc: Global, code: &[Instr], at: u32) -> Result<GuestText, OutOfMemory>
    ensures { IfOk result (λ text. program_seen text ≡ labelled code.now at) }
{
    let mut labels = List::with_room(alloc, 1)?;
    labels.push(Label {
        name: Name::new(b"on"),
        at,
    });
    Ok(GuestText {
        space: 0,
        code: listed(alloc, code)?,
        labels,
    })
}

// A machine of two guests, each with a label at a position.
fn config(
    alloc: Global,
    first: &[Instr],
    a: u32,
    second: &[Instr],
    b: u32,
) -> Result<Config, OutOfMemory>
    requires limits { let guests = labelled first.now a ∷ labelled second.now b ∷ []
        in IsTrue (is_machine (tried guests)) }
    requires short { let guests = labelled first.now a ∷ labelled second.now b ∷ []
        in IsTrue (is_short (tried guests)) }
    ensures { let guests = labelled first.now a ∷ labelled second.now b ∷ []
        in IfOk result (λ cfg. machine cfg ≡ tried guests) }
{
    let sizes = Sizes {
        nodes: 2,
        frames: 1,
        pages: 2,
        budget: 10,
    };
    let entries = [entry(0, 0), entry(1, 1)];
    let first = labelled(alloc, first, a)?;
    let second = labelled(alloc, second, b)?;
    let guests = two_guests(alloc, first, second)?;
    small(alloc, sizes, PolicyKind::Place, &entries, &[], guests)
}

// It stores 5 and adds 5 to the next word. It traps where that was 0, and else halts.
const STORES: [Instr; 7] = [
    Instr::Set { d: 1, n: 5 },
    Instr::Store {
        s: 1,
        k: 4,
        i: None,
    },
    Instr::Print(1),
    Instr::Fadd {
        d: 2,
        s: 1,
        k: 5,
        i: None,
    },
    Instr::Zero { a: 2, label: 0 },
    Instr::Halt,
    Instr::Load {
        d: 3,
        k: 9,
        i: None,
    },
];

// It switches once, and never ends.
const TURNS: [Instr; 2] = [Instr::Switch(3), Instr::Jump { label: 0 }];

const STORE: WantedAccess = WantedAccess {
    kind: Kind::Store,
    space: 0,
    addr: 4,
    entry: 1,
    page: 1,
    word: 0,
    operand: 5,
};

const ADD: WantedAccess = WantedAccess {
    kind: Kind::Add,
    space: 0,
    addr: 5,
    entry: 1,
    page: 1,
    word: 1,
    operand: 5,
};

// The access by processor 0 that found a value.
fn access(wanted: WantedAccess, old: u32, new: u32) -> Access {
    Access {
        actor: 0,
        kind: wanted.kind,
        space: wanted.space,
        addr: wanted.addr,
        page: wanted.page,
        word: wanted.word,
        old,
        new,
        version: 1,
        frame: Frame {
            module: 1,
            number: 0,
        },
        grant: 2,
    }
}

// Where an end of each kind is right among these numbers of turns: bit t for t turns.
fn fitting(follower: &Follower, cfg: &Config, end: End, lacks_right: bool) -> u32
    requires { Stands (machine cfg.now) follower.now }
{
    let mut found = 0;
    for turns in 0..12 {
        if follower.ends_so(cfg, Ended { end, turns }, lacks_right) {
            found |= 1 << turns;
        }
    }
    found
}

// Whether its store is next, and it may have ended before it so, and not otherwise.
fn stores_next(follower: &Follower, cfg: &Config) -> bool
    requires { Stands (machine cfg.now) follower.now }
{
    follower.next() == Some(Wanted::Access(STORE))
        && fitting(follower, cfg, End::Cut, false) == 0b111
        && fitting(follower, cfg, End::NoFrames, true) == 0b100
        && fitting(follower, cfg, End::NoFrames, false) == 0
}

// Whether its addition is next, and it may have ended before it so, and not otherwise.
fn adds_next(follower: &Follower, cfg: &Config) -> bool
    requires { Stands (machine cfg.now) follower.now }
{
    follower.next() == Some(Wanted::Access(ADD))
        && fitting(follower, cfg, End::Cut, true) == 0b1_1100
        && fitting(follower, cfg, End::NoFrames, true) == 0b1_0000
        && fitting(follower, cfg, End::Halted, true) == 0
}

// Whether it may have ended so behind its last operation, and not otherwise.
fn halts_next(follower: &Follower, cfg: &Config) -> bool
    requires { Stands (machine cfg.now) follower.now }
{
    fitting(follower, cfg, End::Cut, false) == 0b111_0000
        && fitting(follower, cfg, End::Halted, false) == 0b100_0000
        && fitting(follower, cfg, End::Trapped, false) == 0
}

#[test]
fn a_guest_stands_at_its_operations(rt: HostRuntime) -> Result<(), Fail> {
    let alloc = rt.alloc();
    let cfg = config(alloc, &STORES, 6, &TURNS, 1)?;
    let mut follower = Follower::new(&cfg, 0);
    assert!(rt; follower.next().is_some() && stores_next(&follower, &cfg));
    follower.made(&cfg, 9);
    assert!(rt; follower.next().is_some() && adds_next(&follower, &cfg));
    follower.made(&cfg, 7);
    assert!(rt; follower.next().is_none() && halts_next(&follower, &cfg));
    Ok(())
}

// Whether processor 0 wants the store, and processor 1 the switch to space 3.
fn both_want(followers: &Followers, stored: &Access, added: &Access) -> bool
    requires { length followers.now ≡ 2 }
{
    let Some(first) = followers.next(0) else {
        return false;
    };
    let Some(second) = followers.next(1) else {
        return false;
    };
    let other = first.is_access(&access(STORE, 9, 9)) || first.is_access(added);
    first.is_access(stored)
        && !other
        && !first.is_switch(0)
        && second.is_switch(3)
        && !second.is_switch(0)
}

fn follow(followers: &mut Followers, cfg: &Config, items: &[Item])
    requires { AllStand (machine cfg.now) followers.old }
    ensures { AllStand (machine cfg.now) followers.new }
{
    for item in items {
        followers.add(cfg, item);
    }
}

// Whether processor 0 may have trapped, and processor 1 have been cut off or spent, but neither otherwise.
fn ended_so(followers: &Followers, cfg: &Config) -> bool
    requires stand { AllStand (machine cfg.now) followers.now }
    requires two { cfg.now.nodes ≡ 2 }
{
    let six = |end| Ended { end, turns: 6 };
    let spent = Ended {
        end: End::Spent,
        turns: 10,
    };
    followers.next(0).is_none()
        && followers.next(1).is_none()
        && followers.ends_so(cfg, 0, six(End::Trapped), false)
        && !followers.ends_so(cfg, 0, six(End::Halted), false)
        && followers.ends_so(cfg, 1, six(End::Cut), false)
        && followers.ends_so(cfg, 1, spent, false)
        && !followers.ends_so(cfg, 0, spent, false)
}

#[test]
fn all_guests_are_followed(rt: HostRuntime) -> Result<(), Fail> {
    let alloc = rt.alloc();
    let cfg = config(alloc, &STORES, 6, &TURNS, 1)?;
    let mut followers = Followers::new(alloc, &cfg)?;
    let stored = access(STORE, 9, 5);
    let added = access(ADD, 0, 5);
    assert!(rt; both_want(&followers, &stored, &added));
    let items = [
        Item::Access(stored),
        Item::Applied(Applied {
            actor: 1,
            entry: 0,
            message: Message::Restrict,
            moment: Moment::Interrupt,
        }),
        Item::Switch(Switch { actor: 1, space: 3 }),
        Item::Access(added),
    ];
    follow(&mut followers, &cfg, &items);
    assert!(rt; ended_so(&followers, &cfg));
    Ok(())
}
