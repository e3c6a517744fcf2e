//! Tests of texts: rows, machine texts and histories, by public calls alone. They stand in a crate of
//! their own, since a check of tests proves the whole crate again that they stand in.
#![tactic(auto)]

#[cfg(test)]
mod history_tests;
#[cfg(test)]
mod parse_tests;
#[cfg(test)]
mod print_tests;
#[cfg(test)]
mod text_tests;
