//! Lines, words, numbers and rows that were worked out by hand.
use plat_base::{Refused, Why};
use plat_text::{Rows, lines, read_u32, words};

#[test]
fn numbers(rt: HostRuntime) {
    let table = [
        (b"0".as_slice(), Ok(0)),
        (b"7", Ok(7)),
        (b"10", Ok(10)),
        (b"4294967295", Ok(4_294_967_295)),
        (b"4294967296", Err(Why::TooLarge)),
        (b"99999999999999999999999999", Err(Why::TooLarge)),
        (b"", Err(Why::NotNumber)),
        (b"00", Err(Why::NotNumber)),
        (b"07", Err(Why::NotNumber)),
        (b"-1", Err(Why::NotNumber)),
        (b"+1", Err(Why::NotNumber)),
        (b"1a", Err(Why::NotNumber)),
        (b"0x1", Err(Why::NotNumber)),
    ];
    for (word, want) in table {
        assert_eq!(rt; read_u32(word), want);
    }
}

#[test]
fn three_lines(rt: HostRuntime) {
    let mut found = lines(b"ab\n\ncd e");
    let table = [
        (1, b"ab".as_slice(), true),
        (2, b"", true),
        (3, b"cd e", false),
    ];
    for (number, bytes, ended) in table {
        match found.next() {
            Some(line) => {
                assert_eq!(rt; line.number, number);
                assert_eq!(rt; line.bytes, bytes);
                assert_eq!(rt; line.ended, ended);
            }
            None => panic!(rt; "a line is missing"),
        }
    }
    assert!(rt; found.next().is_none());
    assert!(rt; lines(b"").next().is_none());
    let mut empty = lines(b"\n");
    assert!(rt; empty.next().is_some());
    assert!(rt; empty.next().is_none());
}

#[test]
fn three_words(rt: HostRuntime) {
    let mut found = words(b"  ab   c\td x#y z");
    let table = [(3, b"ab".as_slice()), (8, b"c\td"), (12, b"x")];
    for (column, bytes) in table {
        match found.next() {
            Some(word) => {
                assert_eq!(rt; word.column, column);
                assert_eq!(rt; word.bytes, bytes);
            }
            None => panic!(rt; "a word is missing"),
        }
    }
    assert!(rt; found.next().is_none());
    assert!(rt; words(b"   ").is_empty());
    assert!(rt; words(b"# a").is_empty());
}

/// The faults that end the rows of a text with the row `x  12` before them.
#[test]
fn rows_and_faults(rt: HostRuntime) {
    let table = [
        (b"# c\n x  12 # d\n\n".as_slice(), 4, 1, Why::Missing),
        (b"# c\n x  12 # d\n # \xff\n", 4, 1, Why::Missing),
        (b"# c\n x  12 # d\n y \x7f\n", 3, 4, Why::BadByte),
        (b"# c\n x  12 # d\n\n y", 4, 3, Why::Unended),
        (b"# c\n x  12 # d\n#", 3, 2, Why::Unended),
    ];
    for (text, line, column, why) in table {
        let mut rows = Rows::new(1, text);
        match rows.next_row() {
            Ok(mut row) => {
                assert_eq!(rt; row.line(), 2);
                assert!(rt; row.key(b"x").is_ok());
                assert_eq!(rt; row.number(12, 12), Ok(12));
                assert!(rt; row.finish().is_ok());
                assert_eq!(rt;
                    row.any_number(),
                    Err(Refused {
                        line: 2,
                        column: 11,
                        why: Why::Missing
                    })
                );
            }
            Err(_) => panic!(rt; "the row is missing"),
        }
        match rows.next_row() {
            Ok(_) => panic!(rt; "one row too many"),
            Err(fault) => assert_eq!(rt; fault, Refused { line, column, why }),
        }
    }
}
