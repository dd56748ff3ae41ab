//! Which declarations of a package select from imports that aren't found.
#![tactic(auto)]

pub use go_beyond;

mod imports;
pub mod missing;
mod named_imports;
pub mod needed;
mod places;
mod references;
