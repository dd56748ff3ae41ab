//! Packages that two lists share with all that they import: what becomes of them, and what is left out of them, is the same in the worlds of both.
#![tactic(auto)]

pub use go_typed_packages;

pub mod laws;
