//! Lines that have words, read word by word.
ghost use Rattle.std.specs.Prelude.{◌≡◌, ◌+◌, ◌<◌, ◌^◌, ◌==◌, Ok, length};
ghost use Rattle.plat_grammar.specs.Lines.{number_of};
ghost use Rattle.plat_grammar.specs.Forms.{Reads, first_word, refused, word_at, read_as, exactly, key, number_in, number_below, any_number};
ghost use Rattle.plat_grammar.specs.Forms.{number, below, nothing};
ghost use Rattle.plat_text.specs.Shown.{word, row_for};

use crate::cuts::words;
use crate::feeds::Line;
use crate::numbers::read_u32;
use crate::tokens::{Token, Words};
use plat_base::{Refused, Why};
use std::marker::Model;

/// A line that has words, and those of its words that are still to read.
#[derive(Debug, Drop)]
pub struct Row<'a> {
    line: u32,
    end: u32,
    words: Words<'a>,
}

impl<'a> Model for Row<'a> {
    ghost use Rattle.std.specs.Prelude.{◌+◌, ◌<◌, ◌^◌};
    ghost use Rattle.plat_grammar.specs.Forms.{Row as Seen};

    ghost Value = { Seen };

    ghost view = { λ r. record { line = r.line; end = r.end; words = r.words } };

    ghost invariant = { λ r. r.line + 1 < 2 ^ 32 };
}

impl<'a> Row<'a> {
    /// The row of a line.
    pub fn new(line: Line<'a>) -> Row<'a>
        ensures { result ≡ row_for line.entry }
    {
        Row {
            line: line.number,
            end: line.bytes.len() as u32 + 1,
            words: words(line.bytes),
        }
    }

    /// The number of the line.
    pub fn line(&self) -> u32
        ensures value { result ≡ self.now.line }
        ensures next { result + 1 < 2 ^ 32 }
    {
        self.line
    }

    /// Whether no word is left.
    pub fn is_empty(&self) -> bool
        ensures { result ≡ (length self.now.words == 0) }
    {
        self.words.is_empty()
    }

    /// The next word, which stays to be read.
    pub fn peek(&self) -> Result<Token<'a>, Refused>
        ensures { Reads word result (first_word self.now) }
    {
        match self.words.peek() {
            Some(found) => Ok(found),
            None => Err(Refused {
                line: self.line,
                column: self.end,
                why: Why::Missing,
            }),
        }
    }

    /// Takes the next word.
    pub fn next_word(&mut self) -> Result<Token<'a>, Refused>
        ensures { Reads (λ t. (word t, self.new)) result (word_at self.old) }
    {
        match self.words.next() {
            Some(found) => Ok(found),
            None => Err(Refused {
                line: self.line,
                column: self.end,
                why: Why::Missing,
            }),
        }
    }

    /// Takes a word that has to be this one.
    pub fn key(&mut self, wanted: &[u8]) -> Result<(), Refused>
        ensures { Reads (λ _. (tt {0}, self.new)) result (key wanted.now self.old) }
    {
        let line = self.line();
        let found = self.next_word()?;
        at_word(line, found, read_key(found.bytes, wanted))
    }

    /// Any number of 32 bits.
    pub fn any_number(&mut self) -> Result<u32, Refused>
        ensures { Reads (λ n. (n, self.new)) result (any_number self.old) }
    {
        let line = self.line();
        let found = self.next_word()?;
        at_word(line, found, read_u32(found.bytes))
    }

    /// A number from `low` to `high`.
    pub fn number(&mut self, low: u32, high: u32) -> Result<u32, Refused>
        ensures { Reads (λ n. (n, self.new)) result (number low high self.old) }
    {
        let line = self.line();
        let found = self.next_word()?;
        at_word(line, found, read_in(found.bytes, low, high))
    }

    /// A number below `limit`.
    pub fn below(&mut self, limit: u32) -> Result<u32, Refused>
        ensures { Reads (λ n. (n, self.new)) result (below limit self.old) }
    {
        let line = self.line();
        let found = self.next_word()?;
        at_word(line, found, read_below(found.bytes, limit))
    }

    /// Refuses a further word.
    pub fn finish(&self) -> Result<(), Refused>
        ensures { Reads (λ _. tt {0}) result (nothing self.now) }
    {
        match self.words.peek() {
            None => Ok(()),
            Some(found) => Err(Refused {
                line: self.line,
                column: found.column,
                why: Why::Extra,
            }),
        }
    }
}

/// Refuses a word.
pub fn refusal(line: u32, found: Token<'_>, why: Why) -> Refused
    ensures { result ≡ refused line found.entry.column why }
{
    Refused {
        line,
        column: found.column,
        why,
    }
}

/// What a word reads as, or why it is refused, with its place.
pub fn at_word<T>(line: u32, found: Token<'_>, read: Result<T, Why>) -> Result<T, Refused>
    ensures { result ≡ read_as line (word found.entry) read }
{
    match read {
        Ok(value) => Ok(value),
        Err(why) => Err(refusal(line, found, why)),
    }
}

fn read_key(word: &[u8], wanted: &[u8]) -> Result<(), Why>
    ensures { result ≡ exactly wanted.now word.now }
{
    if word == wanted {
        Ok(())
    } else {
        Err(Why::Expected)
    }
}

/// A number from `low` to `high`.
pub fn read_in(word: &[u8], low: u32, high: u32) -> Result<u32, Why>
    ensures { result ≡ number_in low high word.now }
{
    let n = read_u32(word)?;
    if low <= n && n <= high {
        Ok(n)
    } else {
        Err(Why::OutOfRange)
    }
}

fn read_below(word: &[u8], limit: u32) -> Result<u32, Why>
    ensures { result ≡ number_below limit word.now }
{
    let n = read_u32(word)?;
    if n < limit {
        Ok(n)
    } else {
        Err(Why::OutOfRange)
    }
}
