//! The packages that a module with a client reaches: which folders are read, and the units that are made from their files.
#![tactic(auto)]

mod reached;
pub mod units;
