//! Tests of single operations: shootdowns, handlers, processors and the daemon, by public calls alone. They stand in a crate of
//! their own, since a check of tests proves the whole crate again that they stand in.
#![tactic(auto)]

#[cfg(test)]
mod daemon_tests;
#[cfg(test)]
mod fine_tests;
#[cfg(test)]
mod handler_tests;
#[cfg(test)]
mod proc_tests;
#[cfg(test)]
mod shoot_tests;
