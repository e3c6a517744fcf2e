//! Tests of the commands on small machines, by the calls of `plat_cmd`. They stand in a crate of their own, since a check of
//! tests proves the whole crate again that they stand in.
#![tactic(auto)]

#[cfg(test)]
mod answer_tests;
#[cfg(test)]
mod calls;
#[cfg(test)]
mod command_tests;
#[cfg(test)]
mod replay_tests;
#[cfg(test)]
mod report_tests;
#[cfg(test)]
mod thread_tests;
