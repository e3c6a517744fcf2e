//! Iterators over the words of a line.
ghost use Rattle.std.specs.Prelude.{◌≡◌, ◌+◌, ◌<◌, ◌^◌, ◌==◌, length, position, IsTrue, option_map, slice_get, not};
ghost use Rattle.std.specs.Iterator.{YieldsFirstBy, item_count};
ghost use Rattle.plat_grammar.specs.Lines.{is_space};

use std::marker::Model;

/// A word of a line: the column of its first byte, counted from 1, and its bytes.
#[derive(Clone, Copy, Debug)]
pub struct Token<'a> {
    pub column: u32,
    pub bytes: &'a [u8],
}

/// The words of a line that are still to come.
#[derive(Debug, Drop)]
pub struct Words<'a> {
    column: u32,
    rest: &'a [u8],
}

impl<'a> Model for Words<'a> {
    ghost use Rattle.std.specs.Prelude.{List, ◌+◌, ◌<◌, ◌^◌, length};
    ghost use Rattle.plat_grammar.specs.Lines.{Word, words_at};

    ghost Value = { List Word };

    ghost view = { λ s. words_at s.column s.rest.now };

    ghost invariant = { λ s. s.column + length s.rest.now < 2 ^ 32 };
}

fn space_in(bytes: &[u8]) -> Option<usize>
    ensures { result ≡ position is_space bytes.now }
{
    bytes.iter().position(|b| *b == b' ')
}

fn word_in(bytes: &[u8]) -> Option<usize>
    ensures { result ≡ position (λ b. not (is_space b)) bytes.now }
{
    bytes.iter().position(|b| *b != b' ')
}

impl<'a> Words<'a> {
    ghost use Rattle.plat_grammar.specs.Lines.{words_at};
    ghost use Rattle.plat_text.specs.Shown.{word};

    /// The words of bytes that stand in a line from `column` on.
    pub fn new(column: u32, bytes: &'a [u8]) -> Words<'a>
        requires { column + length bytes.now < 2 ^ 32 }
        ensures { result ≡ words_at column bytes.now }
    {
        Words {
            column,
            rest: bytes,
        }
    }

    /// The next word, which stays to be read.
    pub fn peek(&self) -> Option<Token<'a>>
        ensures { option_map word result ≡ slice_get self.now 0 }
    {
        Words {
            column: self.column,
            rest: self.rest,
        }
        .next()
    }

    /// Whether no word is left.
    pub fn is_empty(&self) -> bool
        ensures { result ≡ (length self.now == 0) }
    {
        self.peek().is_none()
    }
}

impl<'a> Iterator for Words<'a> {
    ghost use Rattle.plat_text.specs.Shown.{word};

    type Item = Token<'a>;

    ghost next_gives = { YieldsFirstBy word (λ s. s) };

    ghost remaining = { item_count (λ s. s) };

    #[tactic(auto, using(crate::proofs::LineLemmas::word_steps))]
    fn next(&mut self) -> Option<Token<'a>> {
        let at = word_in(self.rest)?;
        let column = self.column + at as u32;
        let word = &self.rest[at..];
        match space_in(word) {
            Some(end) => {
                self.column = column + end as u32 + 1;
                self.rest = &word[end + 1..];
                Some(Token {
                    column,
                    bytes: &word[..end],
                })
            }
            None => {
                self.rest = &word[word.len()..];
                Some(Token {
                    column,
                    bytes: word,
                })
            }
        }
    }
}
