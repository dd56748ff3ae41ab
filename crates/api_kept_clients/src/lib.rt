//! A client of one world over another one that is compatible with it.
#![tactic(auto)]

pub mod laws;
