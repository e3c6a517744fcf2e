//! Canonical texts that were written by hand.
ghost use Rattle.std.specs.Prelude.{◌≡◌, ◌∷◌, [], IfOk, IsTrue};
ghost use Rattle.plat_base.specs.Machine.{is_machine, listed, turns_of, programs_seen};
ghost use Rattle.plat_base.specs.Canon.{is_short};
ghost use Rattle.plat_base.specs.Labels.{is_label_name};
ghost use Rattle.plat_base.specs.Seen.{machine};
ghost use Rattle.plat_text_tests.specs.PrintTried.{tried, three_labels};

use plat_base::{
    Config, Distance, Entries, Entry, GuestText, Init, Instr, Label, List, Name, OutOfMemory, Plan,
    PolicyKind,
};
use plat_io::{QuietSink, WriteFault};
use plat_machine::print_machine;
use plat_samples::listed;
use std::alloc::Global;
use std::test::Fail;

fn label(name: &[u8], at: u32) -> Label
    requires { IsTrue (is_label_name name.now) }
    ensures { result ≡ record { name = name.now; at = at } }
{
    Label {
        name: Name::new(name),
        at,
    }
}

fn labelled(alloc: Global, a: u32, b: u32, c: u32) -> Result<List<Label>, OutOfMemory>
    ensures { IfOk result (λ labels. labels.items ≡ three_labels a b c) }
{
    let mut labels = List::with_room(alloc, 3)?;
    labels.push(label(b"a", a));
    labels.push(label(b"b_2", b));
    labels.push(label(b"c", c));
    Ok(labels)
}

/// One guest, without labels.
fn one_guest(alloc: Global, space: u32, code: &[Instr]) -> Result<List<GuestText>, OutOfMemory>
    ensures { IfOk result (λ guests. programs_seen guests.items
        ≡ record { space = space; code = code.now; labels = [] } ∷ []) }
{
    let mut guests = List::with_room(alloc, 1)?;
    guests.push(GuestText {
        space,
        code: listed(alloc, code)?,
        labels: List::new(alloc),
    });
    Ok(guests)
}

/// A guest with labels a, b_2 and c at these positions, and one without instructions.
fn two_guests(
    alloc: Global,
    code: &[Instr],
    a: u32,
    b: u32,
    c: u32,
) -> Result<List<GuestText>, OutOfMemory>
    ensures { IfOk result (λ guests. programs_seen guests.items
        ≡ record { space = 0; code = code.now; labels = three_labels a b c }
        ∷ record { space = 7; code = []; labels = [] } ∷ []) }
{
    let mut guests = List::with_room(alloc, 2)?;
    guests.push(GuestText {
        space: 0,
        code: listed(alloc, code)?,
        labels: labelled(alloc, a, b, c)?,
    });
    guests.push(GuestText {
        space: 7,
        code: List::new(alloc),
        labels: List::new(alloc),
    });
    Ok(guests)
}

fn list_plan(alloc: Global, actors: &[u32]) -> Result<Plan, OutOfMemory>
    ensures { IfOk result (λ plan. turns_of plan ≡ listed actors.now) }
{
    Ok(Plan::Listed(listed(alloc, actors)?))
}

/// A machine with one frame on each module, one page of four words, and a budget of 10.
fn config(
    alloc: Global,
    nodes: u32,
    policy: PolicyKind,
    schedule: Plan,
    distances: &[Distance],
    entries: &[Entry],
    inits: &[Init],
    guests: List<GuestText>,
) -> Result<Config, OutOfMemory>
    requires limits { IsTrue (is_machine
        (tried nodes policy (turns_of schedule) distances.now entries.now inits.now
        (programs_seen guests.items))) }
    requires short { IsTrue (is_short
        (tried nodes policy (turns_of schedule) distances.now entries.now inits.now
        (programs_seen guests.items))) }
    ensures { IfOk result (λ cfg. machine cfg
        ≡ tried nodes policy (turns_of schedule) distances.now entries.now inits.now
        (programs_seen guests.items)) }
{
    let entries = listed(alloc, entries)?;
    let entries = Entries::new(alloc, entries)?;
    Ok(Config {
        nodes,
        frames: 1,
        words: 4,
        pages: 1,
        policy,
        budget: 10,
        schedule,
        distances: listed(alloc, distances)?,
        entries,
        inits: listed(alloc, inits)?,
        guests,
    })
}

const FIRST_ENTRY: Entry = Entry {
    space: 0,
    vpage: 0,
    page: 0,
};

fn smallest(alloc: Global) -> Result<Config, OutOfMemory> {
    let code = [
        Instr::Set { d: 1, n: 5 },
        Instr::Store {
            s: 1,
            k: 0,
            i: None,
        },
        Instr::Load {
            d: 2,
            k: 0,
            i: None,
        },
        Instr::Print(2),
        Instr::Halt,
    ];
    let guests = one_guest(alloc, 0, &code)?;
    config(
        alloc,
        1,
        PolicyKind::Place,
        Plan::Robin,
        &[],
        &[FIRST_ENTRY],
        &[],
        guests,
    )
}

pub const SMALLEST: &[u8] = b"platinum 1
nodes 1
frames 1
words 4
pages 1
policy place
budget 10
schedule robin
map 0 0 0
guest 0
set r1 5
store r1 0
load r2 0
print r2
halt
end
";

/// Whether this is the canonical text of a machine.
pub fn prints(alloc: Global, cfg: &Config, text: &[u8]) -> Result<bool, Fail> {
    let mut sink = QuietSink::new(alloc, 1000)?;
    print_machine(cfg, &mut sink)?;
    Ok(sink.bytes() == text)
}

/// Whether a machine is printed so far, where the sink takes no more bytes than these.
fn breaks_off(alloc: Global, cfg: &Config, text: &[u8]) -> Result<bool, Fail> {
    let mut sink = QuietSink::new(alloc, text.len())?;
    let fails = print_machine(cfg, &mut sink) == Err(WriteFault);
    Ok(fails && sink.bytes() == text)
}

#[test]
fn smallest_machine(rt: HostRuntime) -> Result<(), Fail> {
    assert!(rt; prints(rt.alloc(), &smallest(rt.alloc())?, SMALLEST)?);
    Ok(())
}

/// Each instruction, with labels a and b_2 before the second one, and c at the end.
const EACH: [Instr; 19] = [
    Instr::Set {
        d: 1,
        n: 4_294_967_295,
    },
    Instr::Move { d: 2, a: 1 },
    Instr::Add { d: 3, a: 1, b: 2 },
    Instr::Sub { d: 4, a: 2, b: 3 },
    Instr::Mul { d: 5, a: 3, b: 4 },
    Instr::And { d: 6, a: 4, b: 5 },
    Instr::Shr { d: 7, a: 5, b: 6 },
    Instr::Load {
        d: 8,
        k: 10,
        i: None,
    },
    Instr::Load {
        d: 8,
        k: 11,
        i: Some(15),
    },
    Instr::Store {
        s: 9,
        k: 12,
        i: None,
    },
    Instr::Store {
        s: 9,
        k: 13,
        i: Some(14),
    },
    Instr::Fadd {
        d: 10,
        s: 11,
        k: 14,
        i: None,
    },
    Instr::Fadd {
        d: 10,
        s: 11,
        k: 15,
        i: Some(12),
    },
    Instr::Switch(7),
    Instr::Print(12),
    Instr::Jump { label: 1 },
    Instr::Zero { a: 13, label: 0 },
    Instr::Less {
        a: 14,
        b: 15,
        label: 2,
    },
    Instr::Halt,
];

fn with_each_line(alloc: Global) -> Result<Config, OutOfMemory> {
    let plan = list_plan(alloc, &[1, 0, 2])?;
    let guests = two_guests(alloc, &EACH, 1, 1, 19)?;
    config(
        alloc,
        2,
        PolicyKind::Platinum { t1: 5, t2: 64 },
        plan,
        &[Distance { a: 1, b: 0, d: 3 }, Distance { a: 0, b: 1, d: 4 }],
        &[FIRST_ENTRY],
        &[Init {
            page: 0,
            word: 3,
            value: 9,
        }],
        guests,
    )
}

pub const EACH_LINE: &[u8] = b"platinum 1
nodes 2
frames 1
words 4
pages 1
policy platinum 5 64
budget 10
schedule list 1 0 2
distance 1 0 3
distance 0 1 4
map 0 0 0
init 0 3 9
guest 0
set r1 4294967295
label a
label b_2
move r2 r1
add r3 r1 r2
sub r4 r2 r3
mul r5 r3 r4
and r6 r4 r5
shr r7 r5 r6
load r8 10
load r8 11 r15
store r9 12
store r9 13 r14
fadd r10 r11 14
fadd r10 r11 15 r12
switch 7
print r12
jump b_2
zero r13 a
less r14 r15 c
halt
label c
guest 7
end
";

#[test]
fn each_line(rt: HostRuntime) -> Result<(), Fail> {
    assert!(rt; prints(rt.alloc(), &with_each_line(rt.alloc())?, EACH_LINE)?);
    Ok(())
}

#[test]
fn random_replicas(rt: HostRuntime) -> Result<(), Fail> {
    let alloc = rt.alloc();
    let guests = one_guest(alloc, 1, &[])?;
    let plan = Plan::Random {
        a: 7,
        b: 4_294_967_295,
    };
    let cfg = config(alloc, 1, PolicyKind::Replicate, plan, &[], &[], &[], guests)?;
    let text = b"platinum 1
nodes 1
frames 1
words 4
pages 1
policy replicate
budget 10
schedule random 7 4294967295
guest 1
end
";
    assert!(rt; prints(alloc, &cfg, text)?);
    Ok(())
}

#[test]
fn full_sink(rt: HostRuntime) -> Result<(), Fail> {
    assert!(rt; breaks_off(rt.alloc(), &smallest(rt.alloc())?, b"platinum 1\nnode")?);
    Ok(())
}
