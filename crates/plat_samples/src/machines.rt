//! Machines of a few nodes, whose pages have four words.
ghost use Rattle.std.specs.Prelude.{◌≡◌, ◌∷◌, [], IfOk, IsTrue, false, replicate};
ghost use Rattle.plat_base.specs.Canon.{is_short};
ghost use Rattle.plat_base.specs.Machine.{is_machine, program_seen, programs_seen};
ghost use Rattle.plat_base.specs.Rules.{has_daemon};
ghost use Rattle.plat_base.specs.Seen.{machine};
ghost use Rattle.plat_samples.specs.Samples.{adding, adding_guest, entry, idle, sharing, small, two_nodes};

use crate::guests::{idle_guests, listed, reading, two_guests, writing};
use plat_base::{
    Config, Entries, Entry, GuestText, Init, Instr, Label, List, Name, OutOfMemory, Plan,
    PolicyKind,
};
use std::alloc::Global;

/// How large a machine is: its nodes, the frames of each, its pages and its budget of turns.
#[derive(Clone, Copy)]
pub struct Sizes {
    pub nodes: u32,
    pub frames: u32,
    pub pages: u32,
    pub budget: u32,
}

/// An entry of space 0.
pub fn entry(vpage: u32, page: u32) -> Entry
    ensures { result ≡ entry vpage page }
{
    Entry {
        space: 0,
        vpage,
        page,
    }
}

/// A machine that runs round robin, and whose nodes are equally far from each other.
pub fn small(
    alloc: Global,
    sizes: Sizes,
    policy: PolicyKind,
    entries: &[Entry],
    inits: &[Init],
    guests: List<GuestText>,
) -> Result<Config, OutOfMemory>
    requires limits { let guests = programs_seen guests.items
        in IsTrue (is_machine (small sizes policy entries.now inits.now guests)) }
    requires short { let guests = programs_seen guests.items
        in IsTrue (is_short (small sizes policy entries.now inits.now guests)) }
    ensures { let guests = programs_seen guests.items
        in IfOk result (λ cfg. machine cfg ≡ small sizes policy entries.now inits.now guests) }
{
    let distances = List::new(alloc);
    let entries = listed(alloc, entries)?;
    let entries = Entries::new(alloc, entries)?;
    let inits = listed(alloc, inits)?;
    Ok(Config {
        nodes: sizes.nodes,
        frames: sizes.frames,
        words: 4,
        pages: sizes.pages,
        policy,
        budget: sizes.budget,
        schedule: Plan::Robin,
        distances,
        entries,
        inits,
        guests,
    })
}

/// Such a machine whose guests have no instructions.
pub fn idle_nodes(
    alloc: Global,
    sizes: Sizes,
    policy: PolicyKind,
    entries: &[Entry],
    inits: &[Init],
) -> Result<Config, OutOfMemory>
    requires limits { let guests = replicate sizes.nodes idle
        in IsTrue (is_machine (small sizes policy entries.now inits.now guests)) }
    requires short { let guests = replicate sizes.nodes idle
        in IsTrue (is_short (small sizes policy entries.now inits.now guests)) }
    ensures { let guests = replicate sizes.nodes idle
        in IfOk result (λ cfg. machine cfg ≡ small sizes policy entries.now inits.now guests) }
{
    let guests = idle_guests(alloc, sizes.nodes)?;
    small(alloc, sizes, policy, entries, inits, guests)
}

/// Two guests on two nodes, whose virtual page 0 of space 0 leads to the one page. Its word 0 starts as `start`.
pub fn two_nodes(
    alloc: Global,
    policy: PolicyKind,
    budget: u32,
    start: u32,
    first: GuestText,
    second: GuestText,
) -> Result<Config, OutOfMemory>
    requires limits { let guests = program_seen first ∷ program_seen second ∷ []
        in IsTrue (is_machine (two_nodes policy budget start guests)) }
    requires short { let guests = program_seen first ∷ program_seen second ∷ []
        in IsTrue (is_short (two_nodes policy budget start guests)) }
    ensures { let guests = program_seen first ∷ program_seen second ∷ []
        in IfOk result (λ cfg. machine cfg ≡ two_nodes policy budget start guests) }
{
    let sizes = Sizes {
        nodes: 2,
        frames: 4,
        pages: 1,
        budget,
    };
    let init = Init {
        page: 0,
        word: 0,
        value: start,
    };
    let guests = two_guests(alloc, first, second)?;
    small(alloc, sizes, policy, &[entry(0, 0)], &[init], guests)
}

/// One guest writes the one page and one reads it, under a policy that freezes no page.
pub fn sharing(alloc: Global, policy: PolicyKind) -> Result<Config, OutOfMemory>
    requires { has_daemon policy ≡ false }
    ensures { IfOk result (λ cfg. machine cfg ≡ sharing policy) }
{
    let sizes = Sizes {
        nodes: 2,
        frames: 4,
        pages: 1,
        budget: 100,
    };
    let writer = writing(alloc)?;
    let reader = reading(alloc)?;
    let guests = two_guests(alloc, writer, reader)?;
    small(alloc, sizes, policy, &[entry(0, 0)], &[], guests)
}

// It adds 1 to word 0 a hundred times, and prints what it found.
const ADDS: [Instr; 7] = [
    Instr::Set { d: 1, n: 1 },
    Instr::Set { d: 2, n: 100 },
    Instr::Fadd {
        d: 4,
        s: 1,
        k: 0,
        i: None,
    },
    Instr::Print(4),
    Instr::Add { d: 3, a: 3, b: 1 },
    Instr::Less {
        a: 3,
        b: 2,
        label: 0,
    },
    Instr::Halt,
];

/// The guest that adds.
fn adding_guest(alloc: Global) -> Result<GuestText, OutOfMemory>
    ensures { IfOk result (λ text. program_seen text ≡ adding_guest) }
{
    let mut labels = List::with_room(alloc, 1)?;
    labels.push(Label {
        name: Name::new(b"again"),
        at: 2,
    });
    Ok(GuestText {
        space: 0,
        code: listed(alloc, &ADDS)?,
        labels,
    })
}

/// Both guests add 1 to word 0 a hundred times, under the policy `place` and within a budget of 1,000 turns. Each takes 403.
pub fn adding(alloc: Global) -> Result<Config, OutOfMemory>
    ensures { IfOk result (λ cfg. machine cfg ≡ adding) }
{
    let first = adding_guest(alloc)?;
    let second = adding_guest(alloc)?;
    two_nodes(alloc, PolicyKind::Place, 1000, 0, first, second)
}
