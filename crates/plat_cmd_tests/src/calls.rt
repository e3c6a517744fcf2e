//! Each call of a command once, and what it comes to. A test that makes such a call itself is proved over all that the call
//! makes and drops, which takes most of a minute; one that asks here takes a second or two.
use plat_base::{Grant, Item, List, OutOfMemory, Status};
use plat_cmd::{Grain, Outcome, Output, check, platinum, print_generated, replay, sim};
use plat_io::{MemorySink, MemorySource};
use plat_table::FreeGate;
use std::alloc::Global;
use std::sync::Wait;
use std::thread::Threads;

/// A call of `plat_cmd`.
#[derive(Clone, Copy, Debug)]
pub enum Call<'a> {
    Words(&'a [&'a str]),
    Sim(Grain, Output),
    Check,
    Replay,
    Gen(u32),
}

/// What a call is given: its text, the numbers of a read and of a write that fail, and the room of its sink.
#[derive(Clone, Copy, Debug)]
pub struct Given<'a> {
    pub text: &'a [u8],
    pub read: u32,
    pub write: u32,
    pub room: usize,
}

/// What a call has to come to: its status, how many items it keeps, and the bytes that it writes.
#[derive(Clone, Copy, Debug)]
pub struct Wanted<'a> {
    pub status: Status,
    pub kept: usize,
    pub written: &'a [u8],
}

/// The number of a call that no command comes to.
const NEVER: u32 = 1_000_000;

/// A text, where no read and no write fails.
pub fn of(text: &[u8]) -> Given<'_> {
    Given {
        text,
        read: NEVER,
        write: NEVER,
        room: 20_000,
    }
}

fn failing(alloc: Global, call: u32) -> Result<List<u32>, OutOfMemory> {
    let mut fails = List::with_room(alloc, 1)?;
    fails.push(call);
    Ok(fails)
}

/// The source and the sink of a call.
fn in_memory(alloc: Global, given: Given<'_>) -> Result<(MemorySource, MemorySink), OutOfMemory> {
    let source = MemorySource::new(alloc, given.text, failing(alloc, given.read)?)?;
    let sink = MemorySink::new(alloc, given.room, failing(alloc, given.write)?)?;
    Ok((source, sink))
}

fn made<R: Threads + Wait + Sync>(
    rt: &R,
    alloc: Global,
    call: Call<'_>,
    source: &mut MemorySource,
    sink: &mut MemorySink,
) -> Outcome {
    match call {
        Call::Words(words) => platinum(rt, alloc, words, source, sink, &FreeGate),
        Call::Sim(grain, output) => sim(alloc, grain, output, source, sink),
        Call::Check => check(alloc, source, sink),
        Call::Replay => replay(alloc, source, sink),
        Call::Gen(number) => print_generated(alloc, number, sink),
    }
}

/// Whether a call comes to what it should.
pub fn answers<R: Threads + Wait + Sync>(
    rt: &R,
    alloc: Global,
    call: Call<'_>,
    given: Given<'_>,
    wanted: Wanted<'_>,
) -> Result<bool, OutOfMemory> {
    let (mut source, mut sink) = in_memory(alloc, given)?;
    let outcome = made(rt, alloc, call, &mut source, &mut sink);
    Ok(
        outcome.status == wanted.status
            && outcome.kept.len() == wanted.kept
            && sink.bytes() == wanted.written,
    )
}

/// The status of a call, how many items it keeps, and whether threads ran.
pub fn ended<R: Threads + Wait + Sync>(
    rt: &R,
    alloc: Global,
    call: Call<'_>,
    text: &[u8],
) -> Result<(Status, usize, bool), OutOfMemory> {
    let (mut source, mut sink) = in_memory(alloc, of(text))?;
    let outcome = made(rt, alloc, call, &mut source, &mut sink);
    Ok((outcome.status, outcome.kept.len(), outcome.ran.is_some()))
}

/// What the change granted that a call kept at a place; None where no change stands there, or it granted nothing.
pub fn change_kept<R: Threads + Wait + Sync>(
    rt: &R,
    alloc: Global,
    call: Call<'_>,
    text: &[u8],
    at: usize,
) -> Result<Option<Grant>, OutOfMemory> {
    let (mut source, mut sink) = in_memory(alloc, of(text))?;
    let outcome = made(rt, alloc, call, &mut source, &mut sink);
    Ok(match outcome.kept.as_slice().get(at) {
        Some(Item::Change(change)) => change.granted,
        _ => None,
    })
}

/// The bytes that a call writes; none where its status is not Done.
pub fn written<R: Threads + Wait + Sync>(
    rt: &R,
    alloc: Global,
    call: Call<'_>,
    text: &[u8],
) -> Result<Vec<u8>, OutOfMemory> {
    let (mut source, mut sink) = in_memory(alloc, of(text))?;
    let outcome = made(rt, alloc, call, &mut source, &mut sink);
    let mut bytes = Vec::new(alloc);
    if outcome.status == Status::Done && bytes.extend_from_slice(sink.bytes()).is_err() {
        return Err(OutOfMemory);
    }
    Ok(bytes)
}

/// Whether words are bad words: nothing is read of the text then, and nothing is written.
pub fn are_bad<R: Threads + Wait + Sync>(
    rt: &R,
    alloc: Global,
    words: &[&str],
    text: &[u8],
) -> Result<bool, OutOfMemory> {
    let (mut source, mut sink) = in_memory(alloc, of(text))?;
    let outcome = made(rt, alloc, Call::Words(words), &mut source, &mut sink);
    Ok(
        outcome.status == Status::BadWords
            && source.left() == text
            && sink.bytes() == b"".as_slice(),
    )
}
