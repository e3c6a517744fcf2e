//! Texts as lines, words and numbers with their places, and as rows: the lines that have words, in order, up to the first
//! line that is not ended or has a bad byte.
#![tactic(auto)]

mod ahead;
mod cuts;
mod feeds;
mod fields;
mod numbers;
mod readers;
mod tokens;

pub use cuts::{lines, words};
pub use feeds::{Line, Lines};
pub use fields::{Row, at_word, read_in, refusal};
pub use numbers::read_u32;
pub use readers::Rows;
pub use tokens::{Token, Words};
