//! Which declarations of a package have a typing, told by what fails in the entries that are had.
#![tactic(auto)]

pub mod laws;
