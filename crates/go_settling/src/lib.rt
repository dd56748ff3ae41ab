//! Settling the declarations of a package, until no further entry is given.
#![tactic(auto)]

pub mod giver;
pub mod laws;
pub mod settle;
