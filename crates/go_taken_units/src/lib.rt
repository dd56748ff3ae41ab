//! Packages that are taken over from those that were typed before.
#![tactic(auto)]

pub mod laws;
mod same;
pub mod taken;
mod taken_imports;
