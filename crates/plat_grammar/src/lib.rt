//! Definitions of texts: lines and words, the grammar of a machine text, and the first fault of a text that is none. The
//! crate has no code; the readers and the printers above cite `specs/`.
#![tactic(auto)]
