//! The history text of a small run, its replay, and replays of histories that break a rule.
use crate::calls::{Call, Given, Wanted, answers, ended, of};
use plat_base::{Bad, Refused, Rule, Status, Why};
use plat_cmd::{Grain, Output};
use plat_text::lines;
use std::alloc::{AllocError, Global};
use std::test::Fail;

/// A page is filled, copied to a second node for a read, and collapses again for a write.
const MACHINE: &[u8] = b"platinum 1
nodes 2
frames 4
words 4
pages 1
policy replicate
budget 100
schedule list 0 0 1 0 0 1 1 0
map 0 0 0
guest 0
set r1 7
store r1 0
set r1 8
store r1 0
halt
guest 0
load r2 0
print r2
halt
end
";

pub const HISTORY: &[u8] = b"history 1
platinum 1
nodes 2
frames 4
words 4
pages 1
policy replicate
budget 100
schedule list 0 0 1 0 0 1 1 0
map 0 0 0
guest 0
set r1 7
store r1 0
set r1 8
store r1 0
halt
guest 0
load r2 0
print r2
halt
end
items 8
change 0 0 0 2 write fill none empty modified:0.0 0.0.0.w
access 0 store 0 0 0 0 0 7 1 0 0 0
applied 0 0 restrict interrupt
change 1 0 1 3 read replicate writes modified:0.0 present+:0.0,1.0 0.1.0.r
access 1 load 0 0 0 0 7 7 1 1 0 1
applied 1 0 invalidate interrupt
change 0 0 2 5 write collapse all present+:0.0,1.0 modified:0.0 0.0.0.w
access 0 store 0 0 0 0 7 8 2 0 0 2
ends
processor 0 halted 5
processor 1 halted 3
end
";

const REPORT: &[u8] = b"platinum report 1
processor 0 halted 5
processor 1 halted 3
print 1 7
word 0 0 8
access 0 loads 0 stores 2 adds 0 local 2 remote 0
atc 0 hits 0 misses 2
access 1 loads 1 stores 0 adds 0 local 1 remote 0
atc 1 hits 0 misses 1
changes fill 1 maplocal 0 mapremote 0 replicate 1 migrate 0 collapse 1 thaw 0 freezes 0
applied interrupt 2 activation 0
items 8
";

/// A history text with these bytes in place of its lines from one number to another.
fn with_lines(
    alloc: Global,
    history: &[u8],
    from: u32,
    to: u32,
    bytes: &[u8],
) -> Result<Vec<u8>, AllocError> {
    let mut text = Vec::new(alloc);
    if history.len() >= 4_294_967_295 {
        return Ok(text);
    }
    for line in lines(history) {
        if line.number == from {
            text.extend_from_slice(bytes)?;
        }
        if line.number < from || to < line.number {
            text.extend_from_slice(line.bytes)?;
            text.push(b'\n')?;
        }
    }
    Ok(text)
}

#[test]
fn sim_writes_the_history_text(rt: HostRuntime) -> Result<(), Fail> {
    let call = Call::Sim(Grain::Coarse, Output::Trace);
    let wanted = Wanted {
        status: Status::Done,
        kept: 8,
        written: HISTORY,
    };
    assert!(rt; answers(&rt, rt.alloc(), call, of(MACHINE), wanted)?);
    Ok(())
}

#[test]
fn replay_reports_a_good_history(rt: HostRuntime) -> Result<(), Fail> {
    let wanted = Wanted {
        status: Status::Done,
        kept: 8,
        written: REPORT,
    };
    assert!(rt; answers(&rt, rt.alloc(), Call::Replay, of(HISTORY), wanted)?);
    Ok(())
}

/// Lines of the history from one number to another, what stands in their place, and the item and the rule that break.
const DAMAGES: [(u32, u32, &[u8], u32, Rule); 7] = [
    // a load from another address
    (
        27,
        27,
        b"access 1 load 0 1 0 0 7 7 1 1 0 1\n",
        4,
        Rule::Order,
    ),
    // a load of a value that was never stored
    (
        27,
        27,
        b"access 1 load 0 0 0 0 6 6 1 1 0 1\n",
        4,
        Rule::Legal,
    ),
    // a store that does not count the one before
    (
        30,
        30,
        b"access 0 store 0 0 0 0 7 8 1 0 0 2\n",
        7,
        Rule::Legal,
    ),
    // the load moved behind the change that removed its translation
    (
        27,
        29,
        b"applied 1 0 invalidate interrupt
change 0 0 2 5 write collapse all present+:0.0,1.0 modified:0.0 0.0.0.w
access 1 load 0 0 0 0 7 7 1 1 0 1
",
        6,
        Rule::Grant,
    ),
    // a change of another directory than the page's
    (
        26,
        26,
        b"change 1 0 1 3 read replicate writes present+:0.0,1.0 present+:0.0,1.0 0.1.0.r\n",
        3,
        Rule::Chain,
    ),
    // a message that is applied twice
    (
        22,
        28,
        b"items 9
change 0 0 0 2 write fill none empty modified:0.0 0.0.0.w
access 0 store 0 0 0 0 0 7 1 0 0 0
applied 0 0 restrict interrupt
change 1 0 1 3 read replicate writes modified:0.0 present+:0.0,1.0 0.1.0.r
access 1 load 0 0 0 0 7 7 1 1 0 1
applied 1 0 invalidate interrupt
applied 1 0 invalidate interrupt
",
        6,
        Rule::Held,
    ),
    // a processor that halts a turn too early
    (33, 33, b"processor 1 halted 2\n", 8, Rule::Ends),
];

#[test]
fn replay_names_the_first_bad_item(rt: HostRuntime) -> Result<(), Fail> {
    for (from, to, bytes, item, rule) in DAMAGES {
        let text = with_lines(rt.alloc(), HISTORY, from, to, bytes)?;
        let wanted = Wanted {
            status: Status::HistoryBad(Bad { item, rule }),
            kept: 0,
            written: b"",
        };
        assert!(rt; answers(&rt, rt.alloc(), Call::Replay, of(text.as_slice()), wanted)?);
    }
    Ok(())
}

/// A guest that never ends.
const FOR_EVER: &[u8] = b"history 1
platinum 1
nodes 1
frames 4
words 4
pages 1
policy place
budget 3
schedule robin
map 0 0 0
guest 0
label a
jump a
end
items 0
ends
processor 0 spent 3
end
";

#[test]
fn the_status_follows_from_the_ends_that_were_read(rt: HostRuntime) -> Result<(), Fail> {
    let ends: [(&[u8], Status); 3] = [
        (b"processor 0 spent 3\n", Status::Spent),
        (b"processor 0 cut 2\n", Status::Done),
        (
            b"processor 0 spent 2\n",
            Status::HistoryBad(Bad {
                item: 0,
                rule: Rule::Ends,
            }),
        ),
    ];
    for (line, status) in ends {
        let text = with_lines(rt.alloc(), FOR_EVER, 17, 17, line)?;
        let came = ended(&rt, rt.alloc(), Call::Replay, text.as_slice())?;
        assert_eq!(rt; came, (status, 0, false));
    }
    Ok(())
}

#[test]
fn a_damaged_history_text_is_refused(rt: HostRuntime) -> Result<(), Fail> {
    let text = with_lines(rt.alloc(), HISTORY, 22, 22, b"items 9\n")?;
    let refused = Refused {
        line: 31,
        column: 1,
        why: Why::Expected,
    };
    let wanted = Wanted {
        status: Status::Refused(refused),
        kept: 0,
        written: b"",
    };
    assert!(rt; answers(&rt, rt.alloc(), Call::Replay, of(text.as_slice()), wanted)?);
    Ok(())
}

#[test]
fn a_read_or_a_write_that_fails_in_mid_stream(rt: HostRuntime) -> Result<(), Fail> {
    let call = Call::Words(&["replay"]);
    let read = Given {
        read: 1,
        ..of(HISTORY)
    };
    let unread = Wanted {
        status: Status::ReadFault,
        kept: 0,
        written: b"",
    };
    assert!(rt; answers(&rt, rt.alloc(), call, read, unread)?);
    let write = Given {
        write: 6,
        ..of(HISTORY)
    };
    let cut = Wanted {
        status: Status::WriteFault,
        kept: 8,
        written: b"platinum report 1",
    };
    assert!(rt; answers(&rt, rt.alloc(), call, write, cut)?);
    Ok(())
}
