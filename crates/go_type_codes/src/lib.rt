//! Bytes that tell types and pairs of types apart.
#![tactic(auto)]

pub mod codes;
pub mod laws;
