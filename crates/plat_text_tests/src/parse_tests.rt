//! Machine texts that are read, and the first faults of damaged ones. All places were worked out by hand.
use crate::print_tests::{EACH_LINE, SMALLEST, prints};
use plat_base::{Refused, TextFault, Why};
use plat_machine::{parse, parse_from};
use plat_text::lines;
use std::alloc::{AllocError, Global};
use std::test::Fail;

/// The smallest text with these bytes in place of one of its lines.
fn with_line(alloc: Global, number: u32, line: &[u8]) -> Result<Vec<u8>, AllocError> {
    let mut text = Vec::new(alloc);
    for found in lines(SMALLEST) {
        if found.number == number {
            text.extend_from_slice(line)?;
        } else {
            text.extend_from_slice(found.bytes)?;
            text.push(b'\n')?;
        }
    }
    Ok(text)
}

fn refused(line: u32, column: u32, why: Why) -> Option<TextFault> {
    Some(TextFault::Refused(Refused { line, column, why }))
}

/// A line of the smallest text by its number, what stands in its place, and the fault.
const DAMAGES: [(u32, &[u8], u32, u32, Why); 8] = [
    (7, b"budget 4294967296\n", 7, 8, Why::TooLarge),
    (4, b"words 5\n", 4, 7, Why::PageWords),
    (2, b"nodes 9\n", 2, 7, Why::OutOfRange),
    (9, b"map 0 0 64\n", 9, 9, Why::OutOfRange),
    (15, b"jump nowhere\n", 15, 6, Why::UnknownLabel),
    (16, b"en", 16, 3, Why::Unended),
    (16, b"", 16, 1, Why::Missing),
    (14, b"print r16\n", 14, 7, Why::BadRegister),
];

#[test]
fn damaged_lines(rt: HostRuntime) -> Result<(), Fail> {
    for (number, bytes, line, column, why) in DAMAGES {
        let text = with_line(rt.alloc(), number, bytes)?;
        assert_eq!(rt; parse(rt.alloc(), &text).err(), refused(line, column, why));
    }
    Ok(())
}

/// The same, for the other reasons, and for the order in which faults are looked for.
const REASONS: [(u32, &[u8], u32, u32, Why); 17] = [
    (1, b"platinum 2\n", 1, 10, Why::Expected),
    (3, b"frame 1\n", 3, 1, Why::Expected),
    (2, b"nodes  # two\n", 2, 13, Why::Missing),
    (2, b"nodes 01\n", 2, 7, Why::NotNumber),
    (4, b"words 4294967295\n", 4, 7, Why::PageWords),
    (5, b"pages 1 # \xff\n\nx\xff\n", 7, 2, Why::BadByte),
    (6, b"policy\tbest\n", 6, 7, Why::BadByte),
    (6, b"policy best x\n", 6, 8, Why::UnknownPolicy),
    (8, b"schedule fair\n", 8, 10, Why::UnknownSchedule),
    (9, b"distance 0 0 x\n", 9, 12, Why::SelfDistance),
    (9, b"map 0 0 0\nmap 0 0 0\n", 10, 5, Why::Duplicate),
    (9, b"map 0 0 0\nmap 0 0 0 1\n", 10, 11, Why::Extra),
    (11, b"map 0 0 0\n", 11, 1, Why::UnknownInstruction),
    (15, b"label a\nlabel a\n", 16, 7, Why::Duplicate),
    (15, b"jump 1\n", 15, 6, Why::BadLabel),
    (15, b"jump a\nguest x\n", 15, 6, Why::UnknownLabel),
    (16, b"end\n# a comment\n end\n", 18, 2, Why::Extra),
];

#[test]
fn each_reason(rt: HostRuntime) -> Result<(), Fail> {
    for (number, bytes, line, column, why) in REASONS {
        let text = with_line(rt.alloc(), number, bytes)?;
        assert_eq!(rt; parse(rt.alloc(), &text).err(), refused(line, column, why));
    }
    Ok(())
}

/// The empty text is the first of them.
#[test]
fn proper_prefixes(rt: HostRuntime) {
    let mut line = 1;
    let mut column = 1;
    for end in 0..SMALLEST.len() {
        let why = if column == 1 {
            Why::Missing
        } else {
            Why::Unended
        };
        assert_eq!(rt;
            parse(rt.alloc(), &SMALLEST[..end]).err(),
            refused(line, column, why)
        );
        if SMALLEST[end] == b'\n' {
            line += 1;
            column = 1;
        } else {
            column += 1;
        }
    }
}

/// Texts without words, by their length.
const LONG: [(usize, u32, u32, Why); 2] = [
    (1_048_576, 1_048_577, 1, Why::Missing),
    (1_048_577, 0, 0, Why::TooLong),
];

#[test]
fn the_longest_texts(rt: HostRuntime) -> Result<(), Fail> {
    for (size, line, column, why) in LONG {
        let text = vec![in rt.alloc(); b'\n'; size]?;
        assert_eq!(rt; parse(rt.alloc(), &text).err(), refused(line, column, why));
    }
    Ok(())
}

/// The machine of `EACH_LINE`, with more spaces, comments and lines without words.
const LOOSE: &[u8] = b"# any byte but a line feed may stand here: \x00 \t \r \x7f \xff

  platinum    1# a comment may begin inside a word
nodes   2 # two
      # no words
 frames  1
words 4#
   pages     1
policy   platinum  5     64   # window and period

budget  10
 schedule  list  1   0 2 # the number of nodes stands for the daemon
distance 1  0   3
  distance  0 1 4#one way
map   0 0  0
 init 0   3 9 # #
guest   0  # the first guest
  set  r1  4294967295
label   a # two labels of one position
 label  b_2#
   move r2   r1
add   r3 r1  r2
 sub  r4 r2 r3 #
mul r5  r3   r4

and   r6 r4 r5# r7
  shr r7  r5 r6
load  r8   10
  load r8  11   r15
store   r9 12 # r10
 store  r9 13  r14
fadd r10   r11  14
  fadd  r10 r11  15  r12
switch   7
  print  r12 #
jump   b_2
 zero  r13   a
   less   r14  r15   c
  halt # and the end of the guest
 label   c
   guest  7

 end  # of the machine
# of the text
";

#[test]
fn loose_text(rt: HostRuntime) -> Result<(), Fail> {
    assert!(rt; prints(rt.alloc(), &parse(rt.alloc(), LOOSE)?, EACH_LINE)?);
    Ok(())
}

/// A machine text in front of other lines.
const LONGER: &[u8] = b"platinum 1
nodes 1
frames 1
words 4
pages 1
policy replicate
budget 10
schedule random 7 42
guest 1
end
items 0";

const FRONT: &[u8] = b"platinum 1
nodes 1
frames 1
words 4
pages 1
policy replicate
budget 10
schedule random 7 42
guest 1
end
";

#[test]
fn text_inside_a_longer_one(rt: HostRuntime) -> Result<(), Fail> {
    let (cfg, next) = parse_from(rt.alloc(), LONGER, 3)?;
    assert!(rt; next == 13 && prints(rt.alloc(), &cfg, FRONT)?);
    Ok(())
}

#[test]
fn fault_inside_a_longer_text(rt: HostRuntime) {
    let text = b"platinum 1\nnodes 9\n".as_slice();
    assert_eq!(rt;
        parse_from(rt.alloc(), text, 3).err(),
        refused(4, 7, Why::OutOfRange)
    );
}
