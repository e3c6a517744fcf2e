//! Guests, and lists of them.
ghost use Rattle.std.specs.Prelude.{◌≡◌, ◌∷◌, [], IfOk, replicate};
ghost use Rattle.plat_base.specs.Machine.{program_seen, programs_seen};
ghost use Rattle.plat_samples.specs.Samples.{guest, idle, reading, writing};

use plat_base::{GuestText, Instr, List, OutOfMemory};
use std::alloc::Global;

/// A list of these items, with no room for more.
pub fn listed<T: Copy>(alloc: Global, items: &[T]) -> Result<List<T>, OutOfMemory>
    ensures { IfOk result (λ list. list.items ≡ items.now) }
{
    let mut list = List::with_room(alloc, items.len())?;
    for item in items {
        list.push(*item);
    }
    Ok(list)
}

/// A guest without labels, which starts in space 0.
pub fn guest(alloc: Global, code: &[Instr]) -> Result<GuestText, OutOfMemory>
    ensures { IfOk result (λ text. program_seen text ≡ guest code.now []) }
{
    Ok(GuestText {
        space: 0,
        code: listed(alloc, code)?,
        labels: List::new(alloc),
    })
}

/// A guest without instructions.
pub fn idle(alloc: Global) -> GuestText
    ensures { program_seen result ≡ idle }
{
    GuestText {
        space: 0,
        code: List::new(alloc),
        labels: List::new(alloc),
    }
}

/// So many guests without instructions.
pub fn idle_guests(alloc: Global, count: u32) -> Result<List<GuestText>, OutOfMemory>
    ensures { IfOk result (λ list. programs_seen list.items ≡ replicate count idle) }
{
    let mut list = List::with_room(alloc, count as usize)?;
    for _ in 0..count {
        list.push(idle(alloc));
    }
    Ok(list)
}

/// The list of one guest.
pub fn one_guest(alloc: Global, first: GuestText) -> Result<List<GuestText>, OutOfMemory>
    ensures { IfOk result (λ list. programs_seen list.items ≡ program_seen first ∷ []) }
{
    let mut list = List::with_room(alloc, 1)?;
    list.push(first);
    Ok(list)
}

/// The list of two guests.
pub fn two_guests(
    alloc: Global,
    first: GuestText,
    second: GuestText,
) -> Result<List<GuestText>, OutOfMemory>
    ensures { IfOk result (λ list. programs_seen list.items
        ≡ program_seen first ∷ program_seen second ∷ []) }
{
    let mut list = List::with_room(alloc, 2)?;
    list.push(first);
    list.push(second);
    Ok(list)
}

/// The list of three guests.
pub fn three_guests(
    alloc: Global,
    first: GuestText,
    second: GuestText,
    third: GuestText,
) -> Result<List<GuestText>, OutOfMemory>
    ensures { IfOk result (λ list. programs_seen list.items
        ≡ program_seen first ∷ program_seen second ∷ program_seen third ∷ []) }
{
    let mut list = List::with_room(alloc, 3)?;
    list.push(first);
    list.push(second);
    list.push(third);
    Ok(list)
}

const STORE: Instr = Instr::Store {
    s: 1,
    k: 0,
    i: None,
};

/// It stores 7 and then 8 at address 0.
pub fn writing(alloc: Global) -> Result<GuestText, OutOfMemory>
    ensures { IfOk result (λ text. program_seen text ≡ writing) }
{
    guest(
        alloc,
        &[
            Instr::Set { d: 1, n: 7 },
            STORE,
            Instr::Set { d: 1, n: 8 },
            STORE,
            Instr::Halt,
        ],
    )
}

/// It loads from address 0, and prints what it found.
pub fn reading(alloc: Global) -> Result<GuestText, OutOfMemory>
    ensures { IfOk result (λ text. program_seen text ≡ reading) }
{
    let load = Instr::Load {
        d: 2,
        k: 0,
        i: None,
    };
    guest(alloc, &[load, Instr::Print(2), Instr::Halt])
}
