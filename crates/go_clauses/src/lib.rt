//! Conditions, what ranges give and to what, and the clauses of switches.
#![tactic(auto)]

pub use go_assignments::go_asks;

pub mod conditions;
pub mod guards;
pub mod ranges;
pub mod tags;
pub mod targets;
