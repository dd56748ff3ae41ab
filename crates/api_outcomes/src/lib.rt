//! Laws of runs: words and files can't be without an outcome.
#![tactic(auto)]

pub mod laws;
