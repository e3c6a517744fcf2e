//! Small runs under the policies and schedules, with their whole reports.
use crate::calls::{Call, Wanted, answers, change_kept, of};
use plat_base::{Frame, Grant, Right, Status};
use plat_cmd::{Grain, Output};
use std::test::Fail;

// A page with three copies is written.
const SHOOTDOWN: &[u8] = b"platinum 1
nodes 4
frames 4
words 4
pages 1
policy replicate
budget 100
schedule list 0 1 2 3 3
map 0 0 0
guest 0
load r1 0
halt
guest 0
load r1 0
halt
guest 0
load r1 0
halt
guest 0
set r1 6
store r1 0
halt
end
";

const SHOOTDOWN_REPORT: &[u8] = b"platinum report 1
processor 0 halted 2
processor 1 halted 2
processor 2 halted 2
processor 3 halted 3
word 0 0 6
access 0 loads 1 stores 0 adds 0 local 1 remote 0
atc 0 hits 0 misses 1
access 1 loads 1 stores 0 adds 0 local 1 remote 0
atc 1 hits 0 misses 1
access 2 loads 1 stores 0 adds 0 local 1 remote 0
atc 2 hits 0 misses 1
access 3 loads 0 stores 1 adds 0 local 1 remote 0
atc 3 hits 0 misses 1
changes fill 1 maplocal 0 mapremote 0 replicate 2 migrate 1 collapse 0 thaw 0 freezes 0
applied interrupt 3 activation 0
items 11
";

// A page with two entries is written by one of them.
const ALIASES: &[u8] = b"platinum 1
nodes 2
frames 4
words 4
pages 1
policy replicate
budget 100
schedule list 0 0 1 0 0 0 0 0
map 0 0 0
map 0 1 0
guest 0
load r1 0
load r2 4
set r3 9
store r3 0
load r4 4
print r4
halt
guest 0
load r1 0
halt
end
";

const ALIASES_REPORT: &[u8] = b"platinum report 1
processor 0 halted 7
print 0 9
processor 1 halted 2
word 0 0 9
access 0 loads 3 stores 1 adds 0 local 4 remote 0
atc 0 hits 0 misses 4
access 1 loads 1 stores 0 adds 0 local 1 remote 0
atc 1 hits 0 misses 1
changes fill 1 maplocal 2 mapremote 0 replicate 1 migrate 0 collapse 1 thaw 0 freezes 0
applied interrupt 1 activation 0
items 11
";

// Two processors store and then load, one after the other.
const BUFFERS_APART: &[u8] = b"platinum 1
nodes 2
frames 4
words 4
pages 2
policy replicate
budget 100
schedule list 0 0 0 0 0 0 0 0 0 0 0 0 0 0 0 0 0 0 0 0 0 0 0 0 0 0 0 0 0 0 0 0 0 0 0 0 0 0 0 0 0 0 0 0 0 0 0 0 0 0 0 0 0 0 0 0 0 0 0 0 0 0 0 0
map 0 0 0
map 0 1 1
guest 0
set r1 1
store r1 0
load r2 4
print r2
halt
guest 0
set r1 1
store r1 4
load r2 0
print r2
halt
end
";

const BUFFERS_APART_REPORT: &[u8] = b"platinum report 1
processor 0 halted 5
print 0 0
processor 1 halted 5
print 1 1
word 0 0 1
word 1 0 1
access 0 loads 1 stores 1 adds 0 local 2 remote 0
atc 0 hits 0 misses 2
access 1 loads 1 stores 1 adds 0 local 2 remote 0
atc 1 hits 0 misses 2
changes fill 2 maplocal 0 mapremote 0 replicate 1 migrate 1 collapse 0 thaw 0 freezes 0
applied interrupt 0 activation 0
items 8
";

// The same by turns.
const BUFFERS_BY_TURNS: &[u8] = b"platinum 1
nodes 2
frames 4
words 4
pages 2
policy replicate
budget 100
schedule robin
map 0 0 0
map 0 1 1
guest 0
set r1 1
store r1 0
load r2 4
print r2
halt
guest 0
set r1 1
store r1 4
load r2 0
print r2
halt
end
";

const BUFFERS_BY_TURNS_REPORT: &[u8] = b"platinum report 1
processor 0 halted 5
print 0 1
processor 1 halted 5
print 1 1
word 0 0 1
word 1 0 1
access 0 loads 1 stores 1 adds 0 local 2 remote 0
atc 0 hits 0 misses 2
access 1 loads 1 stores 1 adds 0 local 2 remote 0
atc 1 hits 0 misses 2
changes fill 2 maplocal 0 mapremote 0 replicate 2 migrate 0 collapse 0 thaw 0 freezes 0
applied interrupt 2 activation 0
items 10
";

// Two processors add to one word, in an order of random words.
const RANDOM: &[u8] = b"platinum 1
nodes 2
frames 4
words 4
pages 1
policy place
budget 100
schedule random 42 54
map 0 0 0
guest 0
set r1 1
fadd r2 r1 0
print r2
halt
guest 0
set r1 1
fadd r2 r1 0
print r2
halt
end
";

const RANDOM_REPORT: &[u8] = b"platinum report 1
processor 0 halted 4
print 0 1
processor 1 halted 4
print 1 0
word 0 0 2
access 0 loads 0 stores 0 adds 1 local 0 remote 1
atc 0 hits 0 misses 1
access 1 loads 0 stores 0 adds 1 local 1 remote 0
atc 1 hits 0 misses 1
changes fill 1 maplocal 0 mapremote 1 replicate 0 migrate 0 collapse 0 thaw 0 freezes 0
applied interrupt 0 activation 0
items 4
";

// A page with three copies is written from a fourth node, which has no frame.
const NO_FRAME_THERE: &[u8] = b"platinum 1
nodes 4
frames 1
words 4
pages 2
policy replicate
budget 100
schedule list 3 0 1 2 3 3
map 0 0 0
map 0 1 1
guest 0
load r1 0
halt
guest 0
load r1 0
halt
guest 0
load r1 0
halt
guest 0
load r1 4
set r1 6
store r1 0
halt
end
";

// The same, where the third node is nearer than the first two.
const THIRD_IS_NEARER: &[u8] = b"platinum 1
nodes 4
frames 1
words 4
pages 2
policy replicate
budget 100
schedule list 3 0 1 2 3 3
distance 3 0 5
distance 3 1 5
map 0 0 0
map 0 1 1
guest 0
load r1 0
halt
guest 0
load r1 0
halt
guest 0
load r1 0
halt
guest 0
load r1 4
set r1 6
store r1 0
halt
end
";

#[test]
fn reports_of_small_runs(rt: HostRuntime) -> Result<(), Fail> {
    let runs: [(Grain, &[u8], usize, &[u8]); 6] = [
        (Grain::Coarse, SHOOTDOWN, 11, SHOOTDOWN_REPORT),
        (Grain::Coarse, ALIASES, 11, ALIASES_REPORT),
        (Grain::Coarse, BUFFERS_APART, 8, BUFFERS_APART_REPORT),
        (Grain::Fine, BUFFERS_APART, 8, BUFFERS_APART_REPORT),
        (Grain::Coarse, BUFFERS_BY_TURNS, 10, BUFFERS_BY_TURNS_REPORT),
        (Grain::Coarse, RANDOM, 4, RANDOM_REPORT),
    ];
    for (grain, text, kept, written) in runs {
        let wanted = Wanted {
            status: Status::Done,
            kept,
            written,
        };
        let call = Call::Sim(grain, Output::Report);
        assert!(rt; answers(&rt, rt.alloc(), call, of(text), wanted)?);
    }
    Ok(())
}

#[test]
fn a_collapse_keeps_the_nearest_copy(rt: HostRuntime) -> Result<(), Fail> {
    let call = Call::Sim(Grain::Coarse, Output::Report);
    for (text, module) in [(NO_FRAME_THERE, 0), (THIRD_IS_NEARER, 2)] {
        let granted = Grant {
            entry: 0,
            frame: Frame { module, number: 0 },
            right: Right::Write,
        };
        // the collapse is the twelfth item of both runs
        assert_eq!(rt;
            change_kept(&rt, rt.alloc(), call, text, 11)?,
            Some(granted)
        );
    }
    Ok(())
}
