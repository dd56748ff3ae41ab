//! How much a release changes, and the version that may follow it.
#![tactic(auto)]

pub mod advice;
pub mod class;
pub mod laws;
pub mod release;
