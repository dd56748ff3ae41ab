//! Laws of the worlds of packages: they can't be without an outcome.
#![tactic(auto)]

pub mod laws;
