//! The run of a machine on threads, and its output.
ghost use Rattle.std.specs.Prelude.{◌≡◌, ◌≤◌, ◌⊎◌, [], length, IfOk};
ghost use Rattle.plat_base.specs.Seen.{machine};
ghost use Rattle.plat_base.specs.declared.limits.TheConstants.{MOST_ITEMS};
ghost use Rattle.plat_flat.specs.FlatSeen.{IsFlatOf};
ghost use Rattle.plat_merge.specs.RoomSeen.{IsRoomFor};
ghost use Rattle.plat_cmd.specs.Works.{HasThreaded, IsThreadRun};
ghost use Rattle.plat_cmd.specs.Steps.{HasStopped};
ghost use Rattle.plat_cmd.specs.declared.outcomes.Stop.TheVariants as stops;
ghost use Rattle.plat_cmd.specs.declared.words.Output.TheVariants as outputs;

use crate::outcomes::{Outcome, status_after, status_of, without_run};
use plat_base::{Config, Item, List, OutOfMemory, Status};
use plat_history::print_items;
use plat_io::Sink;
use plat_merge::{Room, merge};
use plat_report::{Tally, report};
use plat_table::{Closed, Gate};
use plat_threads::{Ready, run_threads};
use std::alloc::Global;
use std::sync::Wait;
use std::thread::Threads;

/// A machine before its run on threads, and the room for merging what they do.
struct Prepared<'g, G: Gate> {
    ready: Ready<'g, G>,
    room: Room,
}

/// A run on threads that is over, and its history.
#[derive(Drop)]
struct Threaded {
    closed: Closed,
    items: List<Item>,
    ghost few: { length items.items ≤ MOST_ITEMS },
}

/// Takes all memory that a run on threads and the merge of its journals use.
fn prepare<G: Gate>(alloc: Global, cfg: Config, gate: &G) -> Result<Prepared<'_, G>, OutOfMemory>
    ensures machine { IfOk result (λ it. it.ready ≡ machine cfg) }
    ensures room { IfOk result (λ it. IsRoomFor (machine cfg) it.room) }
{
    let room = Room::new(alloc, &cfg)?;
    let ready = Ready::new(alloc, cfg, gate)?;
    Ok(Prepared { ready, room })
}

/// The history of a run: what its actors did, merged.
fn history(closed: &Closed, room: Room) -> List<Item>
    requires room { IsRoomFor closed.now.machine room }
    ensures run { IsThreadRun closed.now.machine closed.now result.items }
    ensures few { length result.items ≤ MOST_ITEMS }
{
    let cfg = closed.cfg();
    let journals = closed.journals();
    let _first = journals.of(0);
    merge(cfg, journals, room)
}

/// Makes the run, and its history.
fn thread<R: Threads + Wait + Sync, G: Gate + Sync>(rt: &R, prepared: Prepared<'_, G>) -> Threaded
    requires room { IsRoomFor prepared.ready prepared.room }
    ensures { IsThreadRun prepared.entry.ready result.closed result.items.items }
{
    let Prepared { ready, room } = prepared;
    let closed = run_threads(rt, ready);
    let items = history(&closed, room);
    Threaded { closed, items }
}

/// Writes the report of a run.
fn reported<K: Sink>(threaded: Threaded, tally: Tally, sink: &mut K) -> Outcome
    requires run { IsThreadRun threaded.closed.machine threaded.closed threaded.items.items }
    requires tally { IsFlatOf threaded.closed.machine [] tally }
    ensures { HasThreaded outputs.Report K.Sink threaded.closed.machine sink.old sink.new
        result.status result.kept.items result.ran }
{
    let Threaded { closed, items, .. } = threaded;
    let written = report(tally, closed.cfg(), items.as_slice(), closed.ends(), sink);
    let complete = status_of(closed.ends(), false);
    Outcome {
        status: status_after(complete, written),
        kept: items,
        ran: Some(closed),
    }
}

/// Writes the history text of a run.
fn traced<K: Sink>(threaded: Threaded, sink: &mut K) -> Outcome
    requires run { IsThreadRun threaded.closed.machine threaded.closed threaded.items.items }
    ensures { HasThreaded outputs.Trace K.Sink threaded.closed.machine sink.old sink.new
        result.status result.kept.items result.ran }
{
    let Threaded { closed, items, .. } = threaded;
    let written = print_items(closed.cfg(), items.as_slice(), closed.ends(), sink);
    let complete = status_of(closed.ends(), false);
    Outcome {
        status: status_after(complete, written),
        kept: items,
        ran: Some(closed),
    }
}

/// Makes the run of a machine on threads and writes its report. All memory is taken before the first thread.
pub fn run_reported<R: Threads + Wait + Sync, K: Sink, G: Gate + Sync>(
    rt: &R,
    alloc: Global,
    cfg: Config,
    sink: &mut K,
    gate: &G,
) -> Outcome
    ensures { HasThreaded outputs.Report K.Sink (machine cfg) sink.old sink.new
        result.status result.kept.items result.ran
        ⊎ HasStopped stops.OutOfMemory sink.old sink.new result }
{
    let Ok(tally) = Tally::new(alloc, &cfg) else {
        return without_run(alloc, Status::OutOfMemory);
    };
    let Ok(prepared) = prepare(alloc, cfg, gate) else {
        return without_run(alloc, Status::OutOfMemory);
    };
    reported(thread(rt, prepared), tally, sink)
}

/// Makes the run of a machine on threads and writes its history text. All memory is taken before the first thread.
pub fn run_traced<R: Threads + Wait + Sync, K: Sink, G: Gate + Sync>(
    rt: &R,
    alloc: Global,
    cfg: Config,
    sink: &mut K,
    gate: &G,
) -> Outcome
    ensures { HasThreaded outputs.Trace K.Sink (machine cfg) sink.old sink.new
        result.status result.kept.items result.ran
        ⊎ HasStopped stops.OutOfMemory sink.old sink.new result }
{
    let Ok(prepared) = prepare(alloc, cfg, gate) else {
        return without_run(alloc, Status::OutOfMemory);
    };
    traced(thread(rt, prepared), sink)
}
