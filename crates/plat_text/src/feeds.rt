//! Iterators over the lines of a text.
ghost use Rattle.std.specs.Prelude.{◌≡◌, ◌+◌, ◌<◌, ◌^◌, length, position};
ghost use Rattle.std.specs.Iterator.{YieldsFirstBy, item_count};
ghost use Rattle.plat_grammar.specs.Lines.{is_feed};

use std::marker::Model;

/// A line of a text: its number, counted from 1, its bytes without the line feed, and whether a line feed ends it. Only
/// the bytes after the last line feed are not ended.
#[derive(Clone, Copy, Debug)]
pub struct Line<'a> {
    pub number: u32,
    pub bytes: &'a [u8],
    pub ended: bool,
    pub ghost has_next: { number + 1 < 2 ^ 32 },
    pub ghost has_end: { length bytes.now + 1 < 2 ^ 32 },
}

/// The lines of a text that are still to come.
#[derive(Debug, Drop)]
pub struct Lines<'a> {
    number: u32,
    rest: &'a [u8],
}

impl<'a> Model for Lines<'a> {
    ghost use Rattle.std.specs.Prelude.{List, ◌+◌, ◌<◌, ◌^◌, length};
    ghost use Rattle.plat_grammar.specs.Lines.{LineText, lines_of};

    ghost Value = { List LineText };

    ghost view = { λ s. lines_of s.number s.rest.now };

    ghost invariant = { λ s. (s.number + length s.rest.now < 2 ^ 32) × (length s.rest.now + 1 < 2 ^ 32) };
}

fn feed_in(bytes: &[u8]) -> Option<usize>
    ensures { result ≡ position is_feed bytes.now }
{
    bytes.iter().position(|b| *b == b'\n')
}

impl<'a> Lines<'a> {
    ghost use Rattle.plat_grammar.specs.Lines.{lines_of};

    /// The lines of `bytes`, where the first has number `first`.
    pub fn new(first: u32, bytes: &'a [u8]) -> Lines<'a>
        requires counts { first + length bytes.now < 2 ^ 32 }
        requires fits { length bytes.now + 1 < 2 ^ 32 }
        ensures { result ≡ lines_of first bytes.now }
    {
        Lines {
            number: first,
            rest: bytes,
        }
    }
}

impl<'a> Iterator for Lines<'a> {
    ghost use Rattle.plat_text.specs.Shown.{line_text};

    type Item = Line<'a>;

    ghost next_gives = { YieldsFirstBy line_text (λ s. s) };

    ghost remaining = { item_count (λ s. s) };

    #[tactic(auto, using(crate::proofs::LineLemmas::line_steps))]
    fn next(&mut self) -> Option<Line<'a>> {
        if self.rest.is_empty() {
            return None;
        }
        let number = self.number;
        let rest = self.rest;
        match feed_in(rest) {
            Some(at) => {
                self.number = number + 1;
                self.rest = &rest[at + 1..];
                Some(Line {
                    number,
                    bytes: &rest[..at],
                    ended: true,
                })
            }
            None => {
                self.rest = &rest[rest.len()..];
                Some(Line {
                    number,
                    bytes: rest,
                    ended: false,
                })
            }
        }
    }
}
