//! Runs of small guests, whose values were worked out by hand.
ghost use Rattle.std.specs.Prelude.{◌≡◌, IfOk, IsTrue};
ghost use Rattle.plat_base.specs.Machine.{is_machine};
ghost use Rattle.plat_base.specs.Canon.{is_short};
ghost use Rattle.plat_base.specs.Labels.{is_label_name};
ghost use Rattle.plat_base.specs.Seen.{machine};
ghost use Rattle.plat_low_tests.specs.GuestTried.{three_labels, tried};

use plat_base::{
    Config, Entry, GuestText, Instr, Kind, Label, List, Name, OutOfMemory, PolicyKind, Want,
};
use plat_guest::Guest;
use plat_samples::{Sizes, listed, one_guest, small};
use std::alloc::{AllocError, Global};
use std::test::Fail;

fn label(name: &[u8], at: u32) -> Label
    requires { IsTrue (is_label_name name.now) }
    ensures { result ≡ record { name = name.now; at = at } }
{
    Label {
        name: Name::new(name),
        at,
    }
}

fn labelled(alloc: Global, a: u32, b: u32, c: u32) -> Result<List<Label>, OutOfMemory>
    ensures { IfOk result (λ list. list.items ≡ three_labels a b c) }
{
    let mut labels = List::with_room(alloc, 3)?;
    labels.push(label(b"a", a));
    labels.push(label(b"b", b));
    labels.push(label(b"c", c));
    Ok(labels)
}

const ENTRIES: [Entry; 2] = [
    Entry {
        space: 0,
        vpage: 0,
        page: 0,
    },
    Entry {
        space: 1,
        vpage: 0,
        page: 0,
    },
];

// A machine with one node, whose guest's labels a, b and c stand at these positions.
fn small_config(
    alloc: Global,
    code: &[Instr],
    a: u32,
    b: u32,
    c: u32,
) -> Result<Config, OutOfMemory>
    requires limits { IsTrue (is_machine (tried code.now a b c)) }
    requires short { IsTrue (is_short (tried code.now a b c)) }
    ensures { IfOk result (λ cfg. machine cfg ≡ tried code.now a b c) }
{
    let sizes = Sizes {
        nodes: 1,
        frames: 1,
        pages: 1,
        budget: 100,
    };
    let text = GuestText {
        space: 0,
        code: listed(alloc, code)?,
        labels: labelled(alloc, a, b, c)?,
    };
    let guests = one_guest(alloc, text)?;
    small(alloc, sizes, PolicyKind::Place, &ENTRIES, &[], guests)
}

// Every instruction once at least; each jump that is taken goes over a halt.
const EACH: [Instr; 35] = [
    Instr::Set { d: 1, n: 7 },
    Instr::Set {
        d: 2,
        n: 4_294_967_295,
    },
    Instr::Move { d: 3, a: 2 },
    Instr::Print(3),
    Instr::Add { d: 4, a: 1, b: 2 },
    Instr::Print(4),
    Instr::Sub { d: 5, a: 4, b: 1 },
    Instr::Print(5),
    Instr::Mul { d: 6, a: 5, b: 2 },
    Instr::Print(6),
    Instr::Set { d: 7, n: 12 },
    Instr::And { d: 8, a: 7, b: 1 },
    Instr::Print(8),
    Instr::Set { d: 9, n: 33 },
    Instr::Shr { d: 10, a: 7, b: 9 },
    Instr::Print(10),
    Instr::Store {
        s: 7,
        k: 2,
        i: None,
    },
    Instr::Load {
        d: 11,
        k: 3,
        i: Some(2),
    },
    Instr::Print(11),
    Instr::Switch(1),
    Instr::Fadd {
        d: 1,
        s: 1,
        k: 1,
        i: Some(6),
    },
    Instr::Print(1),
    Instr::Load {
        d: 12,
        k: 2,
        i: None,
    },
    Instr::Print(12),
    Instr::Zero { a: 0, label: 0 },
    Instr::Halt,
    Instr::Less {
        a: 4,
        b: 4,
        label: 0,
    },
    Instr::Less {
        a: 4,
        b: 7,
        label: 1,
    },
    Instr::Halt,
    Instr::Zero { a: 1, label: 0 },
    Instr::Jump { label: 2 },
    Instr::Halt,
    Instr::Set { d: 15, n: 77 },
    Instr::Print(15),
    Instr::Halt,
];

// What a guest's turn gives it; memory and prints change as the turn says.
fn answer(want: Want, memory: &mut [u32], prints: &mut Vec<u32>) -> Result<u32, AllocError> {
    match want {
        Want::Access {
            kind,
            addr,
            operand,
            ..
        } => Ok(access(memory, kind, addr, operand)),
        Want::Print(value) => {
            prints.push(value)?;
            Ok(0)
        }
        _ => Ok(0),
    }
}

fn access(memory: &mut [u32], kind: Kind, addr: u32, operand: u32) -> u32 {
    match memory.get_mut(addr as usize) {
        Some(word) => {
            let old = *word;
            match kind {
                Kind::Load => {}
                Kind::Store => *word = operand,
                Kind::Add => *word = old.wrapping_add(operand),
            }
            old
        }
        None => 0,
    }
}

// What the guest printed, and its last want.
fn run(alloc: Global, cfg: &Config) -> Result<(Vec<u32>, Want), AllocError>
    requires { cfg.now.nodes ≡ 1 }
{
    let mut memory = [0; 4];
    let mut prints = Vec::new(alloc);
    let mut guest = Guest::new(cfg, 0);
    for _ in 0..100 {
        let want = guest.next(cfg);
        if want == Want::Halted || want == Want::Trap {
            return Ok((prints, want));
        }
        let value = answer(want, &mut memory, &mut prints)?;
        guest.after(cfg, value);
    }
    Ok((prints, Want::Local))
}

// Whether the guest prints these, and wants this at last.
fn runs_to(alloc: Global, cfg: &Config, prints: &[u32], want: Want) -> Result<bool, AllocError>
    requires { cfg.now.nodes ≡ 1 }
{
    let (printed, last) = run(alloc, cfg)?;
    Ok(printed.as_slice() == prints && last == want)
}

#[test]
fn executes_each_instruction(rt: HostRuntime) -> Result<(), Fail> {
    let alloc = rt.alloc();
    let cfg = small_config(alloc, &EACH, 26, 29, 32)?;
    let prints = [4_294_967_295, 6, 4_294_967_295, 1, 4, 6, 12, 12, 19, 77];
    assert!(rt; runs_to(alloc, &cfg, &prints, Want::Halted)?);
    Ok(())
}

#[test]
fn traps_without_an_entry(rt: HostRuntime) -> Result<(), Fail> {
    let alloc = rt.alloc();
    let code = [
        Instr::Store {
            s: 0,
            k: 3,
            i: None,
        },
        Instr::Print(0),
        Instr::Store {
            s: 0,
            k: 4,
            i: None,
        },
        Instr::Halt,
    ];
    let cfg = small_config(alloc, &code, 0, 0, 0)?;
    assert!(rt; runs_to(alloc, &cfg, &[0], Want::Trap)?);
    assert!(rt; cfg.entry_at(1, 0) == Some(1) && cfg.entry_at(1, 1).is_none());
    Ok(())
}

#[test]
fn halts_past_its_last_instruction(rt: HostRuntime) -> Result<(), Fail> {
    let alloc = rt.alloc();
    let cfg = small_config(alloc, &[Instr::Switch(2)], 1, 1, 1)?;
    let mut guest = Guest::new(&cfg, 0);
    let want = guest.next(&cfg);
    assert!(rt; want != Want::Halted && want != Want::Trap);
    assert!(rt; guest.space() == 0 && want == Want::Switch(2));
    guest.after(&cfg, 0);
    assert!(rt; guest.space() == 2 && guest.next(&cfg) == Want::Halted);
    Ok(())
}
