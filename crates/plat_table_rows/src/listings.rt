//! Listings of runs.
use plat_base::{Config, TextFault};
use plat_machine::parse;
use std::alloc::Global;
use std::io;

/// What one run is: its name, the machine, and a digit for the actor of each operation.
#[derive(Drop)]
pub struct Listing<'a> {
    pub name: &'a str,
    pub cfg: Config,
    pub actors: &'a str,
}

impl<'a> Listing<'a> {
    /// Reads a machine text whose first line is a comment, the name, and after it a line with the actors.
    pub fn read(alloc: Global, text: &'a str) -> io::Result<Listing<'a>> {
        let Some((machine, actors)) = text.split_once("actors ") else {
            return Err(io::ErrorKind::InvalidData.into());
        };
        let Some((name, _)) = machine.split_once('\n') else {
            return Err(io::ErrorKind::InvalidData.into());
        };
        match parse(alloc, machine.as_bytes()) {
            Ok(cfg) => Ok(Listing {
                name,
                cfg,
                actors: actors.trim_end(),
            }),
            Err(TextFault::Refused(_)) => Err(io::ErrorKind::InvalidData.into()),
            Err(TextFault::OutOfMemory) => Err(io::ErrorKind::OutOfMemory.into()),
        }
    }
}
