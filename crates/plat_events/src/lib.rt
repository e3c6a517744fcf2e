//! Definitions of the single operations on shared words: what each actor does next, what it makes of the word that it
//! found, runs of such operations, and the invariant of the shared state. They stand in `specs/`; there is no code.
#![tactic(auto)]
