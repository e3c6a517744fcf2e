//! Worked runs of single operations, computed. No other crate stands on this one.
#![tactic(auto)]
