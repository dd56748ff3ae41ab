//! That the standard library stands alone in the worlds of packages that are typed one after another.
#![tactic(auto)]

pub mod laws;
