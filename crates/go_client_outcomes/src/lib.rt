//! That the units of a module with a client, and what is told of a client, exist.
#![tactic(auto)]

pub mod laws;
