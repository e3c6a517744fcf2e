//! The generated machines.
ghost use Rattle.std.specs.Prelude.{◌≡◌, IfOk, map};
ghost use Rattle.plat_base.specs.Machine.{programs_seen};
ghost use Rattle.plat_base.specs.Pages.{numbers};
ghost use Rattle.plat_base.specs.Seen.{machine};
ghost use Rattle.plat_gen.specs.Generated.{generated, guest, same_page, seed as seed_of};

use crate::guests::{guest, seed};
use plat_base::{Config, Entries, Entry, GuestText, List, OutOfMemory, Plan, PolicyKind};
use std::alloc::Global;

/// One entry for each page, at the virtual page of its own number.
fn entries(alloc: Global) -> Result<Entries, OutOfMemory>
    ensures { IfOk result (λ entries. entries.items ≡ map same_page (numbers 33)) }
{
    let mut entries = List::with_room(alloc, 33)?;
    for i in 0..33 {
        entries.push(Entry {
            space: 0,
            vpage: i,
            page: i,
        });
    }
    Entries::new(alloc, entries)
}

/// The guests of the `n`-th machine, one for each node.
fn guests(alloc: Global, n: u32) -> Result<List<GuestText>, OutOfMemory>
    ensures { IfOk result (λ guests. programs_seen guests.items
        ≡ map (λ q. guest (seed_of n q)) (numbers 8)) }
{
    let mut guests = List::with_room(alloc, 8)?;
    for q in 0..8 {
        guests.push(guest(alloc, seed(n, q))?);
    }
    Ok(guests)
}

/// The `n`-th generated machine: 8 nodes, pages of 16 words, and guests of 40,008 turns each. `docs/FORMATS.md` has its
/// text.
pub fn generate(alloc: Global, n: u32) -> Result<Config, OutOfMemory>
    ensures { IfOk result (λ cfg. machine cfg ≡ generated n) }
{
    Ok(Config {
        nodes: 8,
        frames: 40,
        words: 16,
        pages: 33,
        policy: PolicyKind::Platinum { t1: 200, t2: 1000 },
        budget: 41_000,
        schedule: Plan::Robin,
        distances: List::new(alloc),
        entries: entries(alloc)?,
        inits: List::new(alloc),
        guests: guests(alloc, n)?,
    })
}
