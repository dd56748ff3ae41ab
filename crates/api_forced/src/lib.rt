//! The pairs of old and new types of two worlds that have to correspond, for each exported object that owns them.
#![tactic(auto)]

pub mod claims;
pub mod forced;
mod graph;
pub mod laws;
mod objects;
