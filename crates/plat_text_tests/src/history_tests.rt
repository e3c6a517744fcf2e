//! Histories that are read and printed, and the first faults of damaged texts. All places were worked out by hand.
use plat_base::{
    Access, Applied, End, Ended, Frame, Item, Kind, Message, Moment, Refused, Switch, TextFault,
    Why,
};
use plat_history::{History, print_items, read_history};
use plat_io::QuietSink;
use plat_text::lines;
use std::alloc::{AllocError, Global};
use std::test::Fail;

/// A page is filled, copied to a second node for a read, and collapses again for a write.
const SHOOTDOWN: &[u8] = b"history 1
platinum 1
nodes 2
frames 4
words 4
pages 1
policy replicate
budget 100
schedule list 0 0 1 0 0 1 1 0
map 0 0 0
guest 0
set r1 7
store r1 0
set r1 8
store r1 0
halt
guest 0
load r2 0
print r2
halt
end
items 8
change 0 0 0 2 write fill none empty modified:0.0 0.0.0.w
access 0 store 0 0 0 0 0 7 1 0 0 0
applied 0 0 restrict interrupt
change 1 0 1 3 read replicate writes modified:0.0 present+:0.0,1.0 0.1.0.r
access 1 load 0 0 0 0 7 7 1 1 0 1
applied 1 0 invalidate interrupt
change 0 0 2 5 write collapse all present+:0.0,1.0 modified:0.0 0.0.0.w
access 0 store 0 0 0 0 7 8 2 0 0 2
ends
processor 0 halted 5
processor 1 halted 3
end
";

/// Words that a text can tell though no run gives them: directories that no page can have, the largest numbers.
const EACH_WORD: &[u8] = b"history 1
platinum 1
nodes 3
frames 4
words 4
pages 2
policy platinum 200 1000
budget 10
schedule robin
map 0 0 1
guest 0
halt
guest 0
halt
guest 0
halt
end
items 8
change 3 1 4294967295 4294967295 thaw thaw all empty* empty:0.0 none
change 0 0 0 0 read maplocal none present1 present+*:0.3,1.2,2.0 0.2.3.r
change 0 0 0 0 write mapremote none modified:0.0,1.0 present1*:2.3 0.0.0.w
change 0 0 0 0 write migrate writes modified modified* none
access 2 add 7 4294967295 1 3 4294967295 4294967295 4294967295 2 3 4294967295
applied 1 0 restrict activation
applied 1 0 invalidate interrupt
switch 0 7
ends
processor 0 trapped 65536
processor 1 noframes 0
processor 2 cut 10
end
";

/// The bytes that are printed of a history, in a sink of this size.
fn printed(alloc: Global, history: &History, size: usize) -> Option<QuietSink> {
    let mut sink = QuietSink::new(alloc, size).ok()?;
    let items = history.items.as_slice();
    let ends = history.ends.as_slice();
    let _full = print_items(&history.cfg, items, ends, &mut sink);
    Some(sink)
}

#[test]
fn read_and_printed(rt: HostRuntime) {
    for text in [SHOOTDOWN, EACH_WORD] {
        match read_history(rt.alloc(), text) {
            Ok(history) => match printed(rt.alloc(), &history, 4096) {
                Some(sink) => assert_eq!(rt; sink.bytes(), text),
                None => panic!(rt; "no memory"),
            },
            Err(_) => panic!(rt; "the text is refused"),
        }
    }
}

/// A sink that is full in the middle of a line holds the text up to there.
#[test]
fn printing_fails(rt: HostRuntime) {
    match read_history(rt.alloc(), SHOOTDOWN) {
        Ok(history) => match printed(rt.alloc(), &history, 300) {
            Some(sink) => assert_eq!(rt; sink.bytes(), &SHOOTDOWN[..300]),
            None => panic!(rt; "no memory"),
        },
        Err(_) => panic!(rt; "the text is refused"),
    }
}

#[test]
fn items_and_ends(rt: HostRuntime) {
    match read_history(rt.alloc(), EACH_WORD) {
        Ok(history) => {
            let items = history.items.as_slice();
            assert_eq!(rt; items.len(), 8);
            assert!(rt; &items[4..] == ITEMS.as_slice());
            assert!(rt; history.ends.as_slice() == ENDS.as_slice());
            assert_eq!(rt; history.cfg.nodes, 3);
        }
        Err(_) => panic!(rt; "the text is refused"),
    }
}

/// The last items of `EACH_WORD`.
const ITEMS: [Item; 4] = [
    Item::Access(Access {
        actor: 2,
        kind: Kind::Add,
        space: 7,
        addr: 4_294_967_295,
        page: 1,
        word: 3,
        old: 4_294_967_295,
        new: 4_294_967_295,
        version: 4_294_967_295,
        frame: Frame {
            module: 2,
            number: 3,
        },
        grant: 4_294_967_295,
    }),
    Item::Applied(Applied {
        actor: 1,
        entry: 0,
        message: Message::Restrict,
        moment: Moment::Activation,
    }),
    Item::Applied(Applied {
        actor: 1,
        entry: 0,
        message: Message::Invalidate,
        moment: Moment::Interrupt,
    }),
    Item::Switch(Switch { actor: 0, space: 7 }),
];

const ENDS: [Ended; 3] = [
    Ended {
        end: End::Trapped,
        turns: 65_536,
    },
    Ended {
        end: End::NoFrames,
        turns: 0,
    },
    Ended {
        end: End::Cut,
        turns: 10,
    },
];

/// The text of the shootdown with these bytes in place of one of its lines.
fn with_line(alloc: Global, number: u32, line: &[u8]) -> Result<Vec<u8>, AllocError> {
    let mut text = Vec::new(alloc);
    for found in lines(SHOOTDOWN) {
        if found.number == number {
            text.extend_from_slice(line)?;
        } else {
            text.extend_from_slice(found.bytes)?;
            text.push(b'\n')?;
        }
    }
    Ok(text)
}

fn refused(line: u32, column: u32, why: Why) -> Option<TextFault> {
    Some(TextFault::Refused(Refused { line, column, why }))
}

/// A line of the shootdown by its number, what stands in its place, and the fault.
const DAMAGES: [(u32, &[u8], u32, u32, Why); 10] = [
    // one item more than a history can have; one more and one fewer than it has
    (22, b"items 2621441\n", 22, 7, Why::OutOfRange),
    (22, b"items 9\n", 31, 1, Why::Expected),
    (22, b"items 7\n", 30, 1, Why::Expected),
    // an access by a node that is not there, and a change by one that is neither there nor the daemon
    (
        27,
        b"access 2 load 0 0 0 0 7 7 1 1 0 1\n",
        27,
        8,
        Why::OutOfRange,
    ),
    (
        23,
        b"change 3 0 0 2 write fill none empty modified:0.0 0.0.0.w\n",
        23,
        8,
        Why::OutOfRange,
    ),
    // copies on modules that fall, and on one module twice
    (
        29,
        b"change 0 0 2 5 write collapse all present+:1.0,0.0 modified:0.0 0.0.0.w\n",
        29,
        35,
        Why::Expected,
    ),
    (
        29,
        b"change 0 0 2 5 write collapse all present+:0.0,0.1 modified:0.0 0.0.0.w\n",
        29,
        35,
        Why::Expected,
    ),
    // more turns than any budget; the other node; no such end
    (33, b"processor 1 halted 70000\n", 33, 20, Why::OutOfRange),
    (33, b"processor 0 halted 3\n", 33, 11, Why::Expected),
    (33, b"processor 1 stopped 3\n", 33, 13, Why::Expected),
];

#[test]
fn damaged_lines(rt: HostRuntime) -> Result<(), Fail> {
    for (number, bytes, line, column, why) in DAMAGES {
        let text = with_line(rt.alloc(), number, bytes)?;
        assert_eq!(rt;
            read_history(rt.alloc(), &text).err(),
            refused(line, column, why)
        );
    }
    Ok(())
}

/// The same, for words that are put together, and for the order in which faults are looked for.
const WORDS: [(u32, &[u8], u32, u32, Why); 12] = [
    (1, b"history 2\n", 1, 9, Why::Expected),
    (1, b"platinum 1\n", 1, 1, Why::Expected),
    (21, b"end of it\n", 21, 5, Why::Extra),
    (
        23,
        b"change 0 0 0 2 write fill none empty: modified:0.0 0.0.0.w\n",
        23,
        32,
        Why::Expected,
    ),
    (
        23,
        b"change 0 0 0 2 write fill none empty modified:0.4 0.0.0.w\n",
        23,
        38,
        Why::Expected,
    ),
    (
        23,
        b"change 0 0 0 2 write fill none empty modified:0.0 0.0.0.x\n",
        23,
        51,
        Why::Expected,
    ),
    (
        23,
        b"change 0 0 0 2 write fill none empty modified:0.0 1.0.0.w\n",
        23,
        51,
        Why::Expected,
    ),
    (
        23,
        b"change 0 0 0 2 write fill none **empty modified:0.0 none 1\n",
        23,
        32,
        Why::Expected,
    ),
    (
        25,
        b"applied 0 1 restrict interrupt\n",
        25,
        11,
        Why::OutOfRange,
    ),
    (
        25,
        b"applied 0 0 restrict # at the interrupt\n",
        25,
        40,
        Why::Missing,
    ),
    (31, b"ends 2\n", 31, 6, Why::Extra),
    (34, b"end\n# nothing more\n end\n", 36, 2, Why::Extra),
];

#[test]
fn damaged_words(rt: HostRuntime) -> Result<(), Fail> {
    for (number, bytes, line, column, why) in WORDS {
        let text = with_line(rt.alloc(), number, bytes)?;
        assert_eq!(rt;
            read_history(rt.alloc(), &text).err(),
            refused(line, column, why)
        );
    }
    Ok(())
}
