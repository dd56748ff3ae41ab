//! What it means that a client is typed, bodies and all, what is told of it, and laws of that.
#![tactic(auto)]

pub mod laws;
pub mod vetted;
