//! The laboratory: the coarse run of the machine text on standard input, under the policy of `policy.rt`. It writes the report, or
//! with the word `trace` the history text.
#![tactic(auto)]

mod policy;

use plat_base::Status;
use plat_cmd::{Output, sim_under};
use plat_io::{StdSink, StdSource};
use plat_program::{fault_of, number_of, status_after, status_of_words};
use plat_proposal::Proposed;
use policy::POLICY;
use std::io::{BufWriter, Write};
use std::process::ExitCode;
use std::{env, io};

/// What the words ask for: nothing but the report, or `trace`.
fn output_of(words: &[String]) -> Option<Output> {
    match words {
        [] => Some(Output::Report),
        [word] if word.as_str() == "trace" => Some(Output::Trace),
        _ => None,
    }
}

/// Makes the run under the policy.
fn status_of(rt: &HostRuntime) -> Status {
    let args = match env::args(rt) {
        Ok(args) => args,
        Err(error) => return status_of_words(error.kind()),
    };
    let Ok(words) = args.skip(1).collect::<Vec<String>>(rt.alloc()) else {
        return Status::OutOfMemory;
    };
    let Some(output) = output_of(words.as_slice()) else {
        return Status::BadWords;
    };
    let Ok(mut writer) = BufWriter::new(rt.alloc(), io::writer(rt)) else {
        return Status::OutOfMemory;
    };
    let policy = Proposed { proposal: POLICY };
    let mut source = StdSource::new(rt.reader());
    let mut sink = StdSink::new(&mut writer);
    let outcome = sim_under(rt.alloc(), policy, output, &mut source, &mut sink);
    let status = outcome.status;
    status_after(status, writer.flush())
}

fn main(rt: HostRuntime) -> ExitCode {
    let status = status_of(&rt);
    if let Some(fault) = fault_of(status) {
        let _ = eprintln!(rt; "platinum_lab: {fault}");
    }
    ExitCode::from(number_of(status))
}
