//! Texts read row by row, a row being a line that has words.
ghost use Rattle.std.specs.Prelude.{◌≡◌, ◌+◌, ◌<◌, ◌≤◌, ◌^◌, Ok, length};
ghost use Rattle.plat_grammar.specs.Forms.{Reads, first_row, word_ahead, row_at, word_at, opened, if_opened, over};
ghost use Rattle.plat_grammar.specs.Forms.{rest_of};
ghost use Rattle.plat_grammar.specs.Forms.{rows_of};
ghost use Rattle.plat_text.specs.Shown.{word};

use crate::ahead::{Ahead, scan};
use crate::feeds::Lines;
use crate::fields::Row;
use crate::tokens::Token;
use plat_base::{Refused, Why};
use std::marker::Model;

/// The rows of a text that are still to read. After an `Err` of any of its calls a text has its first fault, and
/// nothing more is read of it.
#[derive(Debug, Drop)]
pub struct Rows<'a> {
    ahead: Ahead<'a>,
    next: u32,
    lines: Lines<'a>,
}

impl<'a> Model for Rows<'a> {
    ghost use Rattle.plat_grammar.specs.Forms.{Rest, rest_of};
    ghost use Rattle.plat_text.specs.Shown.{with_ahead};

    ghost Value = { Rest };

    ghost view = { λ s. with_ahead s.ahead (rest_of s.next s.lines) };
}

impl<'a> Rows<'a> {
    /// The rows of `bytes`, where the first line has number `first`.
    pub fn new(first: u32, bytes: &'a [u8]) -> Rows<'a>
        requires counts { first + length bytes.now < 2 ^ 32 }
        requires fits { length bytes.now + 1 < 2 ^ 32 }
        ensures { result ≡ rows_of first bytes.now }
    {
        let mut lines = Lines::new(first, bytes);
        let (ahead, next) = scan(&mut lines, first);
        Rows { ahead, next, lines }
    }

    /// The next row, which stays to be read.
    fn first_row(&self) -> Result<Row<'a>, Refused>
        ensures { Reads (λ row. row) result (first_row self.now) }
    {
        match self.ahead {
            Ahead::Next(line) => Ok(Row::new(line)),
            Ahead::Finished(line) => Err(Refused {
                line,
                column: 1,
                why: Why::Missing,
            }),
            Ahead::Broken(fault) => Err(fault),
        }
    }

    /// Takes the next row.
    pub fn next_row(&mut self) -> Result<Row<'a>, Refused>
        ensures { Reads (λ row. (row, self.new)) result (row_at self.old) }
    {
        match self.ahead {
            Ahead::Next(line) => {
                let (ahead, next) = scan(&mut self.lines, self.next);
                self.ahead = ahead;
                self.next = next;
                Ok(Row::new(line))
            }
            Ahead::Finished(line) => Err(Refused {
                line,
                column: 1,
                why: Why::Missing,
            }),
            Ahead::Broken(fault) => Err(fault),
        }
    }

    /// The first word of the next row.
    pub fn first_word(&self) -> Result<Token<'a>, Refused>
        ensures { Reads word result (word_ahead self.now) }
    {
        self.first_row()?.peek()
    }

    /// Takes the next row, whose first word has to be this one. The row's other words are left to read.
    pub fn row_with(&mut self, wanted: &[u8]) -> Result<Row<'a>, Refused>
        ensures { Reads (λ row. (row, self.new)) result (opened wanted.now self.old) }
    {
        let mut row = self.next_row()?;
        row.key(wanted)?;
        Ok(row)
    }

    /// Takes the next row if its first word is this one. The row's other words are left to read.
    pub fn next_if(&mut self, wanted: &[u8]) -> Result<Option<Row<'a>>, Refused>
        ensures { Reads (λ row. (row, self.new)) result (if_opened wanted.now self.old) }
    {
        if self.first_word()?.bytes == wanted {
            Ok(Some(self.row_with(wanted)?))
        } else {
            Ok(None)
        }
    }

    /// Refuses a further row.
    pub fn finish(&self) -> Result<(), Refused>
        ensures { Reads (λ _. tt {0}) result (over self.now) }
    {
        match self.ahead {
            Ahead::Next(line) => {
                let found = Row::new(line).peek()?;
                Err(Refused {
                    line: line.number,
                    column: found.column,
                    why: Why::Extra,
                })
            }
            Ahead::Finished(_) => Ok(()),
            Ahead::Broken(fault) => Err(fault),
        }
    }
}
