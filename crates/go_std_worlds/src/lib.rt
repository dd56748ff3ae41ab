//! Worlds of two modules over one tree of the standard library.
#![tactic(auto)]

pub use go_taken_packages::go_typed_packages;

pub mod laws;
