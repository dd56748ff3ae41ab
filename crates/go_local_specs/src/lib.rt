//! The constants and variables that are declared in functions, spec by spec.
#![tactic(auto)]

pub mod entities;
pub mod listing;
