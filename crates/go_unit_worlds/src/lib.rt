//! Worlds of packages that are typed one after another.
#![tactic(auto)]

pub use go_std_worlds::go_typed_packages;

pub mod laws;
