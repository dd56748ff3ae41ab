//! The numbers to which walks along numbered rows lead from a set, and other words on flags and rows.
#![tactic(auto)]

pub mod any;
pub mod least;
pub mod numbers;
pub mod reached;
