//! The worlds of trees on platforms.
#![tactic(auto)]

pub use go_work;

pub mod error;
pub mod known;
pub mod laws;
pub mod left_out;
pub mod next_world;
mod platform_units;
pub mod platform_world;
pub mod refused;
pub mod trees;
pub mod world;
