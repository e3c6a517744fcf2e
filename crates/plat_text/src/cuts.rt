//! Where a text falls into lines, and a line into words.
ghost use Rattle.std.specs.Prelude.{◌≡◌, ◌<◌, length, position, ◌==◌};
ghost use Rattle.plat_grammar.specs.Lines.{lines_of, words_of, uncommented, is_hash};

use crate::feeds::Lines;
use crate::tokens::Words;

/// The lines of a text. The last is not ended where bytes stand after the last line feed.
pub fn lines(bytes: &[u8]) -> Lines<'_>
    requires { length bytes.now < 4294967295 }
    ensures { result ≡ lines_of 1 bytes.now }
{
    Lines::new(1, bytes)
}

fn hash_in(line: &[u8]) -> Option<usize>
    ensures { result ≡ position is_hash line.now }
{
    line.iter().position(|b| *b == b'#')
}

/// The part of a line before its comment, which a `#` begins.
pub fn before_comment(line: &[u8]) -> &[u8]
    ensures { result.now ≡ uncommented line.now }
{
    match hash_in(line) {
        Some(at) => &line[..at],
        None => line,
    }
}

/// The words of a line, before its comment. Spaces alone part them.
pub fn words(line: &[u8]) -> Words<'_>
    requires { length line.now < 4294967295 }
    ensures { result ≡ words_of line.now }
{
    Words::new(1, before_comment(line))
}
