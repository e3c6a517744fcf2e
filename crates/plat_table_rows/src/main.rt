//! Runs by single operations, as data. Standard input has machines, and after each the actors of its operations in order. One
//! rider makes them on a board, and what the run leaves is written: the words, the items of each actor, and the ends. No other
//! crate stands on this one.
#![tactic(auto)]

mod listings;
mod runs;
mod writing;

use listings::Listing;
use runs::run;
use std::io;
use std::io::Read;
use std::sync::Wait;
use writing::write_run;

/// Makes the run of a listing, and writes what it leaves.
fn make_run<R: Wait>(rt: &HostRuntime, wait: &R, text: &str) -> io::Result<()> {
    let Listing { cfg, name, actors } = Listing::read(rt.alloc(), text)?;
    println!(rt; "{name}")?;
    let Ok(ran) = run(wait, rt.alloc(), cfg, actors) else {
        return Err(io::ErrorKind::OutOfMemory.into());
    };
    write_run(rt, &ran)
}

fn main(rt: HostRuntime) -> io::Result<()> {
    let mut text = String::new(rt.alloc());
    rt.reader().read_to_string(&mut text)?;
    for listing in text.as_str().split("\n\n") {
        make_run(&rt, &rt, listing)?;
    }
    Ok(())
}
