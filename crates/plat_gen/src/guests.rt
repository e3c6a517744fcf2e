//! The guest of a generated machine.
ghost use Rattle.std.specs.Prelude.{◌≡◌, ◌∷◌, [], IfOk, IsTrue, ◌<◌};
ghost use Rattle.plat_base.specs.Machine.{program_seen};
ghost use Rattle.plat_gen.specs.Generated.{seed, guest, guest_code, loop};

use crate::lists::listed;
use plat_base::{GuestText, Instr, Label, List, Name, OutOfMemory};
use std::alloc::Global;

/// The number that guest `q` of the `n`-th machine starts from.
pub fn seed(n: u32, q: u32) -> u32
    requires { q < 8 }
    ensures { result ≡ seed n q }
{
    n.wrapping_add(7919 * q)
}

/// The instructions of a guest that starts from `x`. The loop, from position 7 on, goes on to the next number of a linear
/// congruential sequence, adds 1 to the word that its upper bits name, and adds 1 to the shared word, 4,000 times.
fn code(alloc: Global, x: u32) -> Result<List<Instr>, OutOfMemory>
    ensures { IfOk result (λ code. code.items ≡ guest_code x) }
{
    let code = [
        Instr::Set { d: 0, n: x },
        Instr::Set { d: 1, n: 1 },
        Instr::Set { d: 2, n: 4000 },
        Instr::Set { d: 3, n: 1_664_525 },
        Instr::Set {
            d: 4,
            n: 1_013_904_223,
        },
        Instr::Set { d: 5, n: 511 },
        Instr::Set { d: 6, n: 16 },
        Instr::Mul { d: 0, a: 0, b: 3 },
        Instr::Add { d: 0, a: 0, b: 4 },
        Instr::Shr { d: 7, a: 0, b: 6 },
        Instr::And { d: 7, a: 7, b: 5 },
        Instr::Load {
            d: 8,
            k: 0,
            i: Some(7),
        },
        Instr::Add { d: 8, a: 8, b: 1 },
        Instr::Store {
            s: 8,
            k: 0,
            i: Some(7),
        },
        Instr::Fadd {
            d: 9,
            s: 1,
            k: 512,
            i: None,
        },
        Instr::Add { d: 10, a: 10, b: 1 },
        Instr::Less {
            a: 10,
            b: 2,
            label: 0,
        },
        Instr::Halt,
    ];
    listed(alloc, &code)
}

/// The labels of a guest: `loop`, before the instruction at position 7.
fn labels(alloc: Global) -> Result<List<Label>, OutOfMemory>
    ensures { IfOk result (λ labels. labels.items ≡ loop ∷ []) }
{
    let mut labels = List::with_room(alloc, 1)?;
    labels.push(Label {
        name: Name::new(b"loop"),
        at: 7,
    });
    Ok(labels)
}

/// The guest that starts from `x`.
pub fn guest(alloc: Global, x: u32) -> Result<GuestText, OutOfMemory>
    ensures { IfOk result (λ text. program_seen text ≡ guest x) }
{
    Ok(GuestText {
        space: 0,
        code: code(alloc, x)?,
        labels: labels(alloc)?,
    })
}
