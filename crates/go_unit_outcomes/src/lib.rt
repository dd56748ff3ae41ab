//! Laws of the units of trees: they can't be without units or a first refusal.
#![tactic(auto)]

pub mod laws;
