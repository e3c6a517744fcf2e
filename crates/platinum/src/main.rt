//! The program `platinum`.
#![tactic(auto)]

use plat_base::Status;
use plat_cmd::platinum;
use plat_io::{StdSink, StdSource};
use plat_program::{fault_of, number_of, status_after, status_of_words};
use plat_table::FreeGate;
use std::io::{BufWriter, Write};
use std::process::ExitCode;
use std::sync::Wait;
use std::thread::Threads;
use std::{env, io};

/// Makes the command that the words name. Its threads are made with the handle `threads`.
fn status_of<R: Threads + Wait + Sync>(rt: &HostRuntime, threads: &R) -> Status {
    let args = match env::args(rt) {
        Ok(args) => args,
        Err(error) => return status_of_words(error.kind()),
    };
    let Ok(texts) = args.skip(1).collect::<Vec<String>>(rt.alloc()) else {
        return Status::OutOfMemory;
    };
    let Ok(words) = texts
        .iter()
        .map(|text| text.as_str())
        .collect::<Vec<&str>>(rt.alloc())
    else {
        return Status::OutOfMemory;
    };
    let Ok(mut writer) = BufWriter::new(rt.alloc(), io::writer(rt)) else {
        return Status::OutOfMemory;
    };
    let mut source = StdSource::new(rt.reader());
    let mut sink = StdSink::new(&mut writer);
    let outcome = platinum(
        threads,
        rt.alloc(),
        words.as_slice(),
        &mut source,
        &mut sink,
        &FreeGate,
    );
    let status = outcome.status;
    status_after(status, writer.flush())
}

fn main(rt: HostRuntime) -> ExitCode {
    let status = status_of(&rt, &rt);
    if let Some(fault) = fault_of(status) {
        let _ = eprintln!(rt; "platinum: {fault}");
    }
    ExitCode::from(number_of(status))
}
