//! Laws of the units of trees: they are one list, or one refusal.
#![tactic(auto)]

pub mod laws;
