//! Packages that are checked level by level.
#![tactic(auto)]

pub use go_unit_worlds::go_typed_packages;

pub mod laws;
