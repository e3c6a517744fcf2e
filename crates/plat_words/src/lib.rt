//! The shared words: what each kind keeps, as a type that is written as a number of 64 bits and read back, the place of
//! each word, and the numbers that a word of the machine may be.
#![tactic(auto)]

mod cmap_words;
mod data_words;
mod dir_words;
mod parts;
mod places;
mod pool_words;
mod ranges;
mod stamp_words;

pub use cmap_words::CmapWord;
pub use data_words::DataWord;
pub use dir_words::DirWord;
pub use parts::{bit, bits};
pub use places::place;
pub use pool_words::PoolWord;
pub use ranges::is_word;
pub use stamp_words::StampWord;
