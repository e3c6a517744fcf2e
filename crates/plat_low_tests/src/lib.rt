//! Tests of machines and items, sources and sinks, guests, schedules, policies, translations, words and ports, by public calls alone. They stand in a crate of
//! their own, since a check of tests proves the whole crate again that they stand in.
#![tactic(auto)]

#[cfg(test)]
mod base_tests;
#[cfg(test)]
mod flat_tests;
#[cfg(test)]
mod gen_tests;
#[cfg(test)]
mod guest_tests;
#[cfg(test)]
mod io_tests;
#[cfg(test)]
mod pmap_tests;
#[cfg(test)]
mod policy_tests;
#[cfg(test)]
mod ports_tests;
#[cfg(test)]
mod sched_tests;
#[cfg(test)]
mod words_tests;
