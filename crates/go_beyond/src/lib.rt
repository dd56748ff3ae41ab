//! Which declarations of a package are beyond the profile by themselves.
#![tactic(auto)]

pub mod numbers;
