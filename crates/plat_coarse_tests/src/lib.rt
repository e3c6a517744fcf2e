//! Tests of the coarse run, and of what judges, reports and counts a history, by public calls alone. They stand in a crate of
//! their own, since a check of tests proves the whole crate again that they stand in.
#![tactic(auto)]

#[cfg(test)]
mod coarse_tests;
#[cfg(test)]
mod cost_tests;
#[cfg(test)]
mod follow_tests;
#[cfg(test)]
mod judge_tests;
#[cfg(test)]
mod race_tests;
#[cfg(test)]
mod report_tests;
