//! The journals of a worked run: a page is replicated and then written.
ghost use Rattle.std.specs.Prelude.{◌≡◌, IfOk};
ghost use Rattle.plat_base.specs.Rooms.{journal_rooms};
ghost use Rattle.plat_base.specs.Seen.{machine};
ghost use Rattle.plat_merge_laws.specs.Worked.{journals, one_entry, reader_journal, shootdown, turns, writer_journal};

use plat_base::{
    Config, Entries, Item, Journals, Kind, List, Message, OutOfMemory, Plan, PolicyKind,
};
use plat_merge::{Room, merge};
use plat_samples::{
    access, collapsed, copied, entry, filled, interrupt, listed, reading, two_guests, writing,
};
use std::alloc::Global;
use std::test::Fail;

// ---- the machine

fn entries(alloc: Global) -> Result<Entries, OutOfMemory>
    ensures { IfOk result (λ entries. entries.items ≡ one_entry) }
{
    Entries::new(alloc, listed(alloc, &[entry(0, 0)])?)
}

fn schedule(alloc: Global) -> Result<List<u32>, OutOfMemory>
    ensures { IfOk result (λ list. list.items ≡ turns) }
{
    listed(alloc, &[0, 0, 1, 0, 0, 1, 1, 0])
}

fn two_nodes(alloc: Global) -> Result<Config, OutOfMemory>
    ensures { IfOk result (λ cfg. machine cfg ≡ shootdown) }
{
    let writer = writing(alloc)?;
    let reader = reading(alloc)?;
    let guests = two_guests(alloc, writer, reader)?;
    Ok(Config {
        nodes: 2,
        frames: 4,
        words: 4,
        pages: 1,
        policy: PolicyKind::Replicate,
        budget: 100,
        schedule: Plan::Listed(schedule(alloc)?),
        distances: List::new(alloc),
        entries: entries(alloc)?,
        inits: List::new(alloc),
        guests,
    })
}

// ---- its journals

// Of the processor that writes: items 0, 1, 2, 6 and 7 of the history.
fn of_writer() -> [Item; 5]
    ensures { result ≡ writer_journal }
{
    [
        Item::Change(filled()),
        Item::Access(access(0, Kind::Store, 0, 7, 1, 0)),
        interrupt(0, Message::Restrict),
        Item::Change(collapsed()),
        Item::Access(access(0, Kind::Store, 7, 8, 2, 2)),
    ]
}

// Of the processor that reads: items 3, 4 and 5.
fn of_reader() -> [Item; 3]
    ensures { result ≡ reader_journal }
{
    [
        Item::Change(copied()),
        Item::Access(access(1, Kind::Load, 7, 7, 1, 1)),
        interrupt(1, Message::Invalidate),
    ]
}

fn of_both(alloc: Global, cfg: &Config) -> Result<Journals, OutOfMemory>
    requires { machine cfg.now ≡ shootdown }
    ensures rooms { IfOk result (λ it. it.rooms ≡ journal_rooms (machine cfg.now)) }
    ensures lists { IfOk result (λ it. it.lists ≡ journals) }
{
    let mut both = Journals::new(alloc, cfg)?;
    both.put(0, listed(alloc, &of_writer())?);
    both.put(1, listed(alloc, &of_reader())?);
    Ok(both)
}

/// Whether the journals of both merge to these items.
fn merge_to(alloc: Global, cfg: &Config, items: &[Item]) -> Result<bool, OutOfMemory>
    requires { machine cfg.now ≡ shootdown }
{
    let room = Room::new(alloc, cfg)?;
    let journals = of_both(alloc, cfg)?;
    let merged = merge(cfg, &journals, room);
    Ok(merged.as_slice() == items)
}

#[test]
fn what_nothing_waits_for_stands_last(rt: HostRuntime) -> Result<(), Fail> {
    let cfg = two_nodes(rt.alloc())?;
    let [fill, store, restrict, collapse, last] = of_writer();
    let [copy, load, invalidate] = of_reader();
    let items = [
        fill, store, restrict, copy, load, collapse, last, invalidate,
    ];
    assert!(rt; merge_to(rt.alloc(), &cfg, &items)?);
    Ok(())
}
