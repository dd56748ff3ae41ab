//! Packages that two worlds share have the same features in both.
#![tactic(auto)]

pub mod after;
pub mod laws;
pub mod unit_world;
