//! Each public function once, on values that are easy to check by hand.
ghost use Rattle.std.specs.Prelude.{◌≡◌, ◌∷◌, [], IfOk};
ghost use Rattle.plat_base.specs.Rooms.{journal_rooms};
ghost use Rattle.plat_base.specs.Seen.{machine};

use plat_base::*;
use std::alloc::Global;
use std::test::Fail;

/// A frame of the module of `node`.
fn frame(node: u32, number: u32) -> Frame
    ensures module { result.module ≡ node }
    ensures number { result.number ≡ number }
{
    Frame {
        module: node,
        number,
    }
}

/// An entry of a space.
fn entry(space: u32, vpage: u32, page: u32) -> Entry {
    Entry { space, vpage, page }
}

/// No entries.
fn no_entries(alloc: Global) -> Result<Entries, OutOfMemory>
    ensures { IfOk result (λ entries. entries.items ≡ []) }
{
    Entries::new(alloc, List::new(alloc))
}

/// A machine of one node and one page, whose guest has no instruction.
fn small(alloc: Global) -> Result<Config, OutOfMemory>
    ensures { IfOk result (λ cfg. journal_rooms (machine cfg) ≡ 256 ∷ 1 ∷ []) }
{
    let mut guests = List::with_room(alloc, 1)?;
    guests.push(GuestText {
        space: 0,
        code: List::new(alloc),
        labels: List::new(alloc),
    });
    let entries = no_entries(alloc)?;
    Ok(Config {
        nodes: 1,
        frames: 1,
        words: 4,
        pages: 1,
        policy: PolicyKind::Platinum { t1: 3, t2: 64 },
        budget: 64,
        schedule: Plan::Robin,
        distances: List::new(alloc),
        entries,
        inits: List::new(alloc),
        guests,
    })
}

#[test]
fn list_keeps_items(rt: HostRuntime) -> Result<(), Fail> {
    let mut list = List::with_room(rt.alloc(), 1)?;
    let empty = list.is_empty();
    list.push(7);
    list.reserve(1)?;
    list.push(8);
    assert!(rt; empty && list.as_slice() == [7, 8].as_slice() && list.len() == 2);
    Ok(())
}

#[test]
fn copies_have_one_frame_a_module(rt: HostRuntime) {
    let low = frame(2, 63);
    let high = frame(5, 0);
    let copies = Copies::none().with(frame(5, 9)).with(low).with(high);
    assert_eq!(rt; copies.count(), 2);
    assert_eq!(rt; copies.on(2), Some(low));
    assert_eq!(rt; copies.on(5), Some(high));
    assert_eq!(rt; copies.on(4), None);
    assert!(rt; copies.without(5) == Copies::none().with(low));
}

#[test]
fn name_has_its_bytes(rt: HostRuntime) {
    let name = Name::new(b"again_2");
    assert_eq!(rt; name.bytes(), b"again_2".as_slice());
}

#[test]
fn verdicts_follow_the_window(rt: HostRuntime) {
    let platinum = PolicyKind::Platinum { t1: 3, t2: 64 };
    for (kind, frozen, last, now, want) in [
        (platinum, true, None, 9, Verdict::Stay),
        (platinum, false, Some(2), 4, Verdict::Freeze),
        (platinum, false, Some(2), 5, Verdict::Move),
        (platinum, false, None, 1, Verdict::Move),
        (PolicyKind::Place, false, None, 1, Verdict::Stay),
        (PolicyKind::Replicate, false, Some(2), 2, Verdict::Move),
    ] {
        let dir = Dir {
            state: State::Present1,
            frozen,
            copies: Copies::none().with(frame(0, 0)),
        };
        assert_eq!(rt; kind.verdict(&dir, last, now), want, "{kind:?} at {now}");
    }
}

/// Whether the daemon's list is kept beside that of the processor.
fn keep_one(alloc: Global) -> Result<bool, OutOfMemory> {
    let cfg = small(alloc)?;
    let mut journals = Journals::new(alloc, &cfg)?;
    let mut journal = List::with_room(alloc, 1)?;
    journal.push(Item::Switch(Switch { actor: 1, space: 0 }));
    journals.put(1, journal);
    Ok(journals.of(0).is_empty() && journals.of(1).len() == 1)
}

#[test]
fn journals_keep_each_actors_list(rt: HostRuntime) -> Result<(), Fail> {
    assert!(rt; keep_one(rt.alloc())?);
    Ok(())
}

/// Whether entries (1, 63, 5), (0, 2, 5) and (1, 0, 4) are found.
fn are_found(entries: &Entries) -> bool {
    entries.len() == 3
        && entries.find(1, 63) == Some(0)
        && entries.find(0, 63).is_none()
        && entries.find(8, 0).is_none()
        && entries.of_page(5) == [0, 1].as_slice()
        && entries.of_page(63).is_empty()
        && entries.of_space(1) == [0, 2].as_slice()
}

#[test]
fn entries_are_found_by_place_page_and_space(rt: HostRuntime) -> Result<(), Fail> {
    let alloc = rt.alloc();
    let mut list = List::with_room(alloc, 3)?;
    list.push(entry(1, 63, 5));
    list.push(entry(0, 2, 5));
    list.push(entry(1, 0, 4));
    assert!(rt; are_found(&Entries::new(alloc, list)?));
    Ok(())
}
