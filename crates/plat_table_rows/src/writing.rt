//! What a run leaves, as text.
use crate::runs::Ran;
use plat_base::{Item, List, PolicyKind};
use plat_history::print_items;
use plat_io::MemorySink;
use plat_table::Closed;
use std::alloc::Global;
use std::io;

/// The items of all actors, those of each after those of the actors before it.
#[tactic(auto, using(crate::proofs::RunLemmas::has_room_of_processor, crate::proofs::RunLemmas::has_room_of_daemon))]
fn items_of(alloc: Global, closed: &Closed) -> io::Result<Vec<Item>> {
    let mut items = Vec::new(alloc);
    for actor in 0..closed.cfg().nodes {
        items.extend_from_slice(closed.journals().of(actor))?;
    }
    if let PolicyKind::Platinum { .. } = closed.cfg().policy {
        items.extend_from_slice(closed.journals().of(closed.cfg().nodes))?;
    }
    Ok(items)
}

/// The lines of items and of ends, out of the text of a history.
fn lines_of(alloc: Global, closed: &Closed) -> io::Result<String> {
    let items = items_of(alloc, closed)?;
    let Ok(mut sink) = MemorySink::new(alloc, 100_000, List::new(alloc)) else {
        return Err(io::ErrorKind::OutOfMemory.into());
    };
    if print_items(closed.cfg(), items.as_slice(), closed.ends(), &mut sink).is_err() {
        return Err(io::ErrorKind::OutOfMemory.into());
    }
    let Ok(text) = std::str::from_utf8(sink.bytes()) else {
        return Err(io::ErrorKind::InvalidData.into());
    };
    let Some((_, lines)) = text.split_once("\nitems ") else {
        return Err(io::ErrorKind::InvalidData.into());
    };
    Ok(String::from_str(alloc, lines)?)
}

/// Writes a run.
pub fn write_run(rt: &HostRuntime, ran: &Ran) -> io::Result<()> {
    if !ran.as_listed {
        println!(rt; "other operations than those listed")?;
    }
    print!(rt; "words")?;
    for word in ran.closed.words() {
        print!(rt; " {word}")?;
    }
    print!(rt; "\n{}", lines_of(rt.alloc(), &ran.closed)?)
}
