//! Whole commands over sources and sinks in memory.
use crate::calls::{Call, Given, Wanted, answers, are_bad, ended, of, written};
use plat_base::{Refused, Status, Why};
use plat_cmd::{Command, Grain, Output, WordsFault, read_words};
use std::test::Fail;

pub const SMALLEST: &[u8] = b"platinum 1
nodes 1
frames 1
words 4
pages 1
policy place
budget 10
schedule robin
map 0 0 0
guest 0
set r1 5
store r1 0
load r2 0
print r2
halt
end
";

pub const REPORT: &[u8] = b"platinum report 1
processor 0 halted 5
print 0 5
word 0 0 5
access 0 loads 1 stores 1 adds 0 local 2 remote 0
atc 0 hits 1 misses 1
changes fill 1 maplocal 0 mapremote 0 replicate 0 migrate 0 collapse 0 thaw 0 freezes 0
applied interrupt 0 activation 0
items 3
";

const FOR_EVER: &[u8] = b"platinum 1
nodes 1
frames 4
words 4
pages 1
policy place
budget 3
schedule robin
map 0 0 0
guest 0
label a
jump a
end
";

const JUST_ENOUGH: &[u8] = b"platinum 1
nodes 1
frames 4
words 4
pages 1
policy place
budget 3
schedule robin
map 0 0 0
guest 0
set r1 1
set r1 1
halt
end
";

const TRAPS: &[u8] = b"platinum 1
nodes 1
frames 4
words 4
pages 1
policy place
budget 3
schedule robin
map 0 0 0
guest 0
load r1 4
end
";

const STARVES: &[u8] = b"platinum 1
nodes 1
frames 1
words 4
pages 2
policy place
budget 100
schedule robin
map 0 0 0
map 0 1 1
guest 0
load r1 0
load r1 4
halt
end
";

const COARSE: Call<'static> = Call::Sim(Grain::Coarse, Output::Report);

#[test]
fn sim_reports_the_smallest_run(rt: HostRuntime) -> Result<(), Fail> {
    let wanted = Wanted {
        status: Status::Done,
        kept: 3,
        written: REPORT,
    };
    for grain in ["coarse", "fine"] {
        let call = Call::Words(&["sim", grain]);
        assert!(rt; answers(&rt, rt.alloc(), call, of(SMALLEST), wanted)?);
    }
    Ok(())
}

#[test]
fn check_writes_the_canonical_text(rt: HostRuntime) -> Result<(), Fail> {
    let wanted = Wanted {
        status: Status::Done,
        kept: 0,
        written: SMALLEST,
    };
    assert!(rt; answers(&rt, rt.alloc(), Call::Check, of(SMALLEST), wanted)?);
    Ok(())
}

#[test]
fn the_status_follows_from_the_ends(rt: HostRuntime) -> Result<(), Fail> {
    let runs: [(&[u8], Status, usize); 4] = [
        (FOR_EVER, Status::Spent, 0),
        (JUST_ENOUGH, Status::Done, 0),
        (TRAPS, Status::Done, 0),
        (STARVES, Status::NoFrames, 2),
    ];
    for (text, status, items) in runs {
        let wanted = (status, items, false);
        assert_eq!(rt; ended(&rt, rt.alloc(), COARSE, text)?, wanted);
    }
    Ok(())
}

#[test]
fn a_text_is_refused_with_its_first_fault(rt: HostRuntime) -> Result<(), Fail> {
    let texts: [(&[u8], u32, u32, Why); 3] = [
        (b"", 1, 1, Why::Missing),
        (b"platinum 1\nnodes 9\n", 2, 7, Why::OutOfRange),
        (b"platinum 1\nnodes 1", 2, 8, Why::Unended),
    ];
    for (text, line, column, why) in texts {
        let refused = Status::Refused(Refused { line, column, why });
        let wanted = (refused, 0, false);
        assert_eq!(rt; ended(&rt, rt.alloc(), COARSE, text)?, wanted);
    }
    Ok(())
}

#[test]
fn a_text_may_be_too_long(rt: HostRuntime) -> Result<(), Fail> {
    let text = vec![in rt.alloc(); b' '; 1_048_577]?;
    let refused = Refused {
        line: 0,
        column: 0,
        why: Why::TooLong,
    };
    let wanted = (Status::Refused(refused), 0, false);
    assert_eq!(rt; ended(&rt, rt.alloc(), COARSE, text.as_slice())?, wanted);
    Ok(())
}

#[test]
fn a_read_that_fails_in_mid_stream_is_a_read_fault(rt: HostRuntime) -> Result<(), Fail> {
    let wanted = Wanted {
        status: Status::ReadFault,
        kept: 0,
        written: b"",
    };
    for read in 1..3 {
        let given = Given {
            read,
            ..of(SMALLEST)
        };
        assert!(rt; answers(&rt, rt.alloc(), Call::Check, given, wanted)?);
    }
    Ok(())
}

#[test]
fn a_write_that_fails_in_mid_stream_is_a_write_fault(rt: HostRuntime) -> Result<(), Fail> {
    let given = Given {
        write: 6,
        ..of(SMALLEST)
    };
    let wanted = Wanted {
        status: Status::WriteFault,
        kept: 3,
        written: b"platinum report 1",
    };
    let call = Call::Words(&["sim", "coarse"]);
    assert!(rt; answers(&rt, rt.alloc(), call, given, wanted)?);
    Ok(())
}

#[test]
fn a_full_sink_is_a_write_fault(rt: HostRuntime) -> Result<(), Fail> {
    let given = Given {
        room: 15,
        ..of(SMALLEST)
    };
    let wanted = Wanted {
        status: Status::WriteFault,
        kept: 0,
        written: b"platinum 1\nnode",
    };
    assert!(rt; answers(&rt, rt.alloc(), Call::Check, given, wanted)?);
    Ok(())
}

#[test]
fn other_words_are_bad_words(rt: HostRuntime) -> Result<(), Fail> {
    let none: [&str; 0] = [];
    let lists: [&[&str]; 13] = [
        &["sim", "medium"],
        &["sim"],
        &["run", "fast"],
        &["run", "coarse"],
        &["run", "trace", "now"],
        &["gen", "-1"],
        &["gen", "007"],
        &["gen", "4294967296"],
        &["big", ""],
        &["check", "help"],
        &["sim", "coarse", "now", "then"],
        &["--help"],
        none.as_slice(),
    ];
    for words in lists {
        assert!(rt; are_bad(&rt, rt.alloc(), words, SMALLEST)?);
    }
    Ok(())
}

#[test]
fn words_name_commands(rt: HostRuntime) -> Result<(), Fail> {
    let report = Command::Sim {
        grain: Grain::Coarse,
        output: Output::Report,
    };
    let trace = Command::Sim {
        grain: Grain::Fine,
        output: Output::Trace,
    };
    let lists: [(&[&str], Command); 7] = [
        (&["check"], Command::Check),
        (&["sim", "coarse"], report),
        (&["sim", "fine", "trace"], trace),
        (&["run"], Command::Run(Output::Report)),
        (&["run", "trace"], Command::Run(Output::Trace)),
        (&["gen", "7"], Command::Gen(7)),
        (&["big", "4294967295"], Command::Big(4_294_967_295)),
    ];
    for (words, command) in lists {
        let read: Result<Command, WordsFault> = Ok(command);
        assert_eq!(rt; read_words(rt.alloc(), words), read);
    }
    Ok(())
}

#[test]
fn a_generated_text_is_read_as_the_generated_machine(rt: HostRuntime) -> Result<(), Fail> {
    let text = written(&rt, rt.alloc(), Call::Gen(7), b"")?;
    let wanted = Wanted {
        status: Status::Done,
        kept: 0,
        written: text.as_slice(),
    };
    assert!(rt; answers(&rt, rt.alloc(), Call::Check, of(text.as_slice()), wanted)?);
    Ok(())
}
