//! Runs on threads.
use crate::calls::{Call, Wanted, answers, ended, of, written};
use crate::command_tests::{REPORT, SMALLEST};
use plat_base::Status;
use std::alloc::Global;
use std::test::Fail;

#[test]
fn run_reports_the_smallest_run(rt: HostRuntime) -> Result<(), Fail> {
    let call = Call::Words(&["run"]);
    let wanted = Wanted {
        status: Status::Done,
        kept: 3,
        written: REPORT,
    };
    assert!(rt; answers(&rt, rt.alloc(), call, of(SMALLEST), wanted)?);
    assert_eq!(rt;
        ended(&rt, rt.alloc(), call, SMALLEST)?,
        (Status::Done, 3, true)
    );
    Ok(())
}

#[test]
fn one_thread_makes_the_history_of_one_processor(rt: HostRuntime) -> Result<(), Fail> {
    let coarse = Call::Words(&["sim", "coarse", "trace"]);
    let simulated = written(&rt, rt.alloc(), coarse, SMALLEST)?;
    let wanted = Wanted {
        status: Status::Done,
        kept: 3,
        written: simulated.as_slice(),
    };
    let threaded = Call::Words(&["run", "trace"]);
    assert!(rt; answers(&rt, rt.alloc(), threaded, of(SMALLEST), wanted)?);
    Ok(())
}

// Four guests add 1 to one word, a hundred times each, and print what they found.
const HEADER: &[u8] = b"platinum 1
nodes 4
frames 4
words 4
pages 1
policy replicate
budget 1000
schedule robin
map 0 0 0
";

const GUEST: &[u8] = b"guest 0
set r1 1
set r2 100
label again
fadd r4 r1 0
print r4
add r3 r3 r1
less r3 r2 again
halt
";

/// The text of the machine whose guests add.
fn adding(alloc: Global) -> Result<Vec<u8>, Fail> {
    let mut text = Vec::new(alloc);
    text.extend_from_slice(HEADER)?;
    for _ in 0..4 {
        text.extend_from_slice(GUEST)?;
    }
    text.extend_from_slice(b"end\n")?;
    Ok(text)
}

/// How many lines of a report end so.
fn lines_with(report: &str, ending: &str) -> usize {
    report.lines().filter(|line| line.ends_with(ending)).count()
}

/// The numbers of the lines that begin so.
fn numbers(alloc: Global, report: &str, beginning: &str) -> Result<Vec<u32>, Fail> {
    let mut found = Vec::new(alloc);
    for line in report.lines() {
        if let Some(number) = line.strip_prefix(beginning) {
            found.push(number.parse::<u32>()?)?;
        }
    }
    Ok(found)
}

#[test]
fn four_hundred_additions_find_each_number_once(rt: HostRuntime) -> Result<(), Fail> {
    let text = adding(rt.alloc())?;
    let bytes = written(&rt, rt.alloc(), Call::Words(&["run"]), text.as_slice())?;
    let report = std::str::from_utf8(bytes.as_slice())?;
    assert_eq!(rt; lines_with(report, " halted 403"), 4);
    assert_eq!(rt; lines_with(report, "word 0 0 400"), 1);
    let mut all = Vec::new(rt.alloc());
    for beginning in ["print 0 ", "print 1 ", "print 2 ", "print 3 "] {
        let printed = numbers(rt.alloc(), report, beginning)?;
        assert_eq!(rt; printed.len(), 100);
        let mut last: Option<u32> = None;
        for number in printed.as_slice() {
            assert!(rt; last < Some(*number));
            last = Some(*number);
        }
        all.extend_from_slice(printed.as_slice())?;
    }
    for number in 0..400 {
        assert!(rt; all.as_slice().contains(&number));
    }
    Ok(())
}
