//! The law of merging: the journals of a good history merge to a good history. It knows no engine.
#![tactic(auto)]

mod merging;

pub use merging::good_journals_merge;
