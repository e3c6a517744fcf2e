//! Tests of the shared table, the threads and the merge, by public calls alone. They stand in a crate of
//! their own, since a check of tests proves the whole crate again that they stand in.
#![tactic(auto)]

#[cfg(test)]
mod merge_tests;
#[cfg(test)]
mod table_tests;
#[cfg(test)]
mod threads_tests;
