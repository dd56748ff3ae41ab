//! Scopes that keep what is had of a package while it is typed.
#![tactic(auto)]

pub mod laws;
