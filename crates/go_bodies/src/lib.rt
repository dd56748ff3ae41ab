//! The bodies of functions, read whole: their statements, and the block of each function literal in them.
#![tactic(auto)]

pub mod bodies;
pub mod braces;
pub mod literals;
