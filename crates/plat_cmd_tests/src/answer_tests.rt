//! What is asked of small histories: races and costs.
use crate::calls::{Call, Wanted, answers, of};
use crate::replay_tests::HISTORY;
use plat_base::Status;
use std::test::Fail;

/// The fetch-and-adds to word 1 order what stands around them.
const ORDERED: &[u8] = b"history 1
platinum 1
nodes 2
frames 4
words 4
pages 1
policy place
budget 100
schedule list 0 0 0 1 1
map 0 0 0
guest 0
set r1 7
store r1 0
fadd r2 r1 1
halt
guest 0
fadd r2 r0 1
load r3 0
halt
end
items 6
change 0 0 0 2 write fill none empty modified:0.0 0.0.0.w
access 0 store 0 0 0 0 0 7 1 0 0 0
access 0 add 0 1 0 1 0 7 1 0 0 0
change 1 0 1 4 write mapremote none modified:0.0 modified:0.0 0.0.0.w
access 1 add 0 1 0 1 7 7 2 0 0 1
access 1 load 0 0 0 0 7 7 1 0 0 1
ends
processor 0 halted 4
processor 1 halted 3
end
";

#[test]
fn race_and_cost_answer(rt: HostRuntime) -> Result<(), Fail> {
    let asked: [(&str, &[u8], &[u8]); 3] = [
        ("race", HISTORY, b"platinum race 1\npair 1 4\n"),
        ("race", ORDERED, b"platinum race 1\nnone\n"),
        (
            "cost",
            HISTORY,
            b"platinum cost 1
page 0 accesses 3 actual 4 least 1 moves 0
from 1 at 0
total actual 4 least 1
",
        ),
    ];
    for (word, text, written) in asked {
        let wanted = Wanted {
            status: Status::Done,
            kept: 0,
            written,
        };
        assert!(rt; answers(&rt, rt.alloc(), Call::Words(&[word]), of(text), wanted)?);
    }
    Ok(())
}
