//! The next line of a text that has words.
ghost use Rattle.std.specs.Prelude.{◌≡◌, ◌+◌, ◌≤◌, ◌<◌, ◌^◌, ◌==◌, ℕ, length, position};
ghost use Rattle.plat_grammar.specs.Lines.{words_of, uncommented};
ghost use Rattle.plat_grammar.specs.Forms.{Reads, is_bad, row_of, rest_of};
ghost use Rattle.plat_text.specs.Shown.{line_text, row_for, with_ahead};

use crate::cuts::{before_comment, words};
use crate::feeds::{Line, Lines};
use plat_base::{Refused, Why};

/// What comes next of a text: a line with words, the end, with the number that a further line would have, or the first
/// line that is not ended or has a bad byte.
#[derive(Clone, Copy, Debug)]
pub enum Ahead<'a> {
    Next(Line<'a>),
    Finished(u32),
    Broken(Refused),
}

fn bad_byte_in(bytes: &[u8]) -> Option<usize>
    ensures { result ≡ position is_bad bytes.now }
{
    bytes.iter().position(|b| *b < b' ' || *b > b'~')
}

/// Refuses a line that is not ended, and then one with a bad byte before its comment.
fn checked(line: Line<'_>) -> Result<(), Refused>
    ensures { Reads (λ _. row_for line.entry) result (row_of (line_text line.entry)) }
{
    if !line.ended {
        return Err(Refused {
            line: line.number,
            column: line.bytes.len() as u32 + 1,
            why: Why::Unended,
        });
    }
    match bad_byte_in(before_comment(line.bytes)) {
        None => Ok(()),
        Some(at) => Err(Refused {
            line: line.number,
            column: at as u32 + 1,
            why: Why::BadByte,
        }),
    }
}

/// Passes over lines without words.
pub fn scan<'a>(lines: &mut Lines<'a>, next: u32) -> (Ahead<'a>, u32)
    ensures { with_ahead result.0 (rest_of result.1 lines.new) ≡ rest_of next lines.old }
{
    let mut next = next;
    while let Some(line) = lines.next() {
        if let Err(fault) = checked(line) {
            return (Ahead::Broken(fault), next);
        }
        next = line.number + 1;
        if !words(line.bytes).is_empty() {
            return (Ahead::Next(line), next);
        }
    }
    (Ahead::Finished(next), next)
}
