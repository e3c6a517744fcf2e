//! Laws of the views of a processor and an entry: every operation keeps what always holds of them. There is no code.
#![tactic(auto)]
