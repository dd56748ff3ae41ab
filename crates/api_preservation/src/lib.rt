//! That a compatible verdict keeps every client of the profile.
#![tactic(auto)]

pub mod laws;
