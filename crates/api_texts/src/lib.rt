//! The texts of fault lines.
#![tactic(auto)]

pub mod fixed;
pub mod left_out;
pub mod lines;
