//! Worked runs, computed from the definitions: `proofs/Rows.antt` has them. Nothing stands on this crate.
#![tactic(auto)]
