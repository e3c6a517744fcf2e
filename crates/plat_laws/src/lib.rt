//! Laws of items, tables, guests, folds, limits and good histories, proved of the definitions alone. They know no engine.
#![tactic(auto)]

mod histories;

pub use histories::good_history;
