//! The names by which declarations refer to others outside of bodies.
#![tactic(auto)]

pub use go_syntax;
pub use go_syntax::go_base;

pub mod references;
