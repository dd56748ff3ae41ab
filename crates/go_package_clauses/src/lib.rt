//! The package clause of a file, as its header tells it and as its outline has it.
#![tactic(auto)]

pub mod laws;
