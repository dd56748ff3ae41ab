//! Laws of typed trees: what stands in one is typed.
#![tactic(auto)]

pub mod laws;
