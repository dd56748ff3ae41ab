//! The levels of a tree's packages.
#![tactic(auto)]

pub use go_level_laws::go_typed_packages;

mod known;
pub mod levels;
pub mod numbers;
